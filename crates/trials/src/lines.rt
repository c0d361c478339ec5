// Lines of a letter and numbers.
use numerals::lines::read_line;
use std::alloc::{AllocError, Global};
use std::test::Fail;

// How many numbers the line has, and the last one; None where it is no line.
fn last_of(heap: Global, line: &[u8]) -> Result<Option<(usize, u64)>, AllocError> {
    match read_line(heap, line)? {
        Some(line) => Ok(Some((
            line.numbers.len(),
            line.numbers.last().copied().unwrap_or(0),
        ))),
        None => Ok(None),
    }
}

// A line, and how many numbers it has and the last one; None where it is no line.
struct Case(&'static [u8], Option<(usize, u64)>);

const CASES: [Case; 18] = [
    Case(b"S", Some((0, 0))),
    Case(b"X 0", Some((1, 0))),
    Case(b"X 10 0 907", Some((3, 907))),
    Case(
        b"W 18446744073709551615",
        Some((1, 18_446_744_073_709_551_615)),
    ),
    Case(b"  1", Some((1, 1))),
    Case(b"", None),
    Case(b"X ", None),
    Case(b"XX", None),
    Case(b"X 1 ", None),
    Case(b"X  1", None),
    Case(b"X 01", None),
    Case(b"X 00", None),
    Case(b"X +1", None),
    Case(b"X 1\r", None),
    Case(b"X 1\t2", None),
    Case(b"X 1:", None),
    Case(b"X 18446744073709551616", None),
    Case(b"X 99999999999999999999999", None),
];

#[test]
fn lines(rt: HostRuntime) -> Result<(), Fail> {
    let heap = rt.alloc();
    for case in &CASES {
        assert_eq!(rt; last_of(heap, case.0)?, case.1);
    }
    Ok(())
}
