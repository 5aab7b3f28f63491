//! One row, read by the columns of its header.

use crate::sources::{HALF, function_of};
use fx_fraction::Decimal;
use fx_rows::{RowFault, RowKind, read_header, read_row};
use std::test::Fail;

// what a line gives below the header `t,x`
#[rattlefmt::skip]
static ROWS: [(&str, Result<(bool, Option<(i64, u8)>), RowKind>); 4] = [
    ("0,0.3", Ok((true, Some((3, 1))))),
    ("", Ok((false, None))),
    ("1", Err(RowKind::TooFew)),
    ("0,1.0000001", Err(RowKind::OutOfRange)),
];

#[test]
fn rows_are_read(rt: HostRuntime) -> Result<(), Fail> {
    let alloc = rt.alloc();
    let function = function_of(&rt, alloc, HALF)?;
    let columns = read_header(alloc, b"t,x", &function)?.ok_or("a header")?;
    let mut row = Vec::new(alloc);
    for &(line, wanted) in &ROWS {
        let read = read_row(alloc, line.as_bytes(), &columns, &function, &mut row);
        match wanted {
            Ok((some, value)) => {
                assert_eq!(rt; read, Ok(some), "at {line}");
                let first = row.first().map(|decimal: &Decimal| (decimal.a, decimal.b));
                assert_eq!(rt; first, value, "at {line}");
            }
            Err(kind) => assert_eq!(rt; read, Err(RowFault { kind, input: 0 }), "at {line}"),
        }
    }
    Ok(())
}
