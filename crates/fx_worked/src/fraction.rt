//! The floor of a decimal at a binary point.

use fx_fraction::{quantise, read_decimal};
use std::test::Fail;

// a decimal, a binary point, and the floor of the one times two to the other
#[rattlefmt::skip]
static FLOORS: [(&str, i32, i128); 4] = [
    ("-1", -1, -1),
    ("-0.3", 6, -20),
    ("0.3", 12, 1228),
    ("1", -1, 0),
];

#[test]
fn floors_of_decimals(rt: HostRuntime) -> Result<(), Fail> {
    for &(text, point, floor) in &FLOORS {
        let decimal = read_decimal(text.as_bytes())?;
        assert!(rt; point >= -64 && point <= 62);
        assert_eq!(rt; quantise(decimal, point), floor, "{text} at {point}");
    }
    Ok(())
}
