//! A program's text, read and printed.

use fx_program::{print_program, read_program};
use std::test::Fail;

#[rattlefmt::skip]
const HALF: &str = "\
fixd program 1
width 16
name f
sizes 1 0 1 4
in 0 12
const 2048 12
add 0 1 0 0
copy 2 0
";

#[test]
fn a_program_is_read_and_printed(rt: HostRuntime) -> Result<(), Fail> {
    let alloc = rt.alloc();
    let program = read_program(alloc, HALF.as_bytes())?;
    assert_eq!(rt; program.width, 16);
    assert_eq!(rt; program.codes.len(), 4);
    let text = print_program(alloc, &program)?;
    assert_eq!(rt; text.as_slice(), HALF.as_bytes());
    Ok(())
}
