//! The lines of a source, with fewer bytes than it has.

use fx_base::{BytesIn, LineFault, LineStep, Lines, Silent, read_all};
use std::test::Fail;

// The fourth byte comes with the end of the first line, so that no line is answered.
#[test]
fn three_bytes_of_two_lines(rt: HostRuntime) -> Result<(), Fail> {
    let alloc = rt.alloc();
    let mut source = BytesIn::new(b"ab\ncd\n".to_vec(alloc)?, 2, Vec::new(alloc));
    let mut lines = Lines::new(alloc, 3)?;
    let step = lines.next_line(&mut source, &Silent::new());
    assert_eq!(rt; step, Err(LineFault::TooLong));
    let left = read_all(alloc, &mut source, 100)?;
    assert_eq!(rt; left.as_slice(), b"d\n".as_slice());
    Ok(())
}

#[test]
fn all_bytes_of_two_lines(rt: HostRuntime) -> Result<(), Fail> {
    let alloc = rt.alloc();
    let mut source = BytesIn::new(b"ab\ncd\n".to_vec(alloc)?, 2, Vec::new(alloc));
    let mut lines = Lines::new(alloc, 6)?;
    for line in [b"ab", b"cd"] {
        assert!(rt; lines.ready());
        let step = lines.next_line(&mut source, &Silent::new());
        assert_eq!(rt; step, Ok(LineStep::Line));
        assert_eq!(rt; lines.line(), line.as_slice());
    }
    assert!(rt; lines.ready());
    let step = lines.next_line(&mut source, &Silent::new());
    assert_eq!(rt; step, Ok(LineStep::End));
    Ok(())
}
