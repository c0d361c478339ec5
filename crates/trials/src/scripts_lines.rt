// Scripts: wrong lines.
use crate::playing::{Line, Script, play_all};
use std::test::Fail;

// Bytes, spaces and counts of numbers that make a line wrong.
const OTHER_BYTES: Script = Script {
    lines: &[
        Line(b"C 0 0 5", "C ok"),
        Line(b"", "? no"),
        Line(b"X 0\r", "? no"),
        Line(b"X\t0", "? no"),
        Line(b"X  0", "? no"),
        Line(b" X 0", "? no"),
        Line(b"X 0 ", "? no"),
        Line(b"X 00", "? no"),
        Line(b"X +0", "? no"),
        Line(b"X -0", "? no"),
        Line(b"x 0", "? no"),
        Line(b"X0", "? no"),
        Line(b"X", "? no"),
        Line(b"X 0 0", "? no"),
        Line(b"S 0", "? no"),
        Line(b"S ", "? no"),
        Line(b"R 0", "? no"),
        Line(b"D 0", "? no"),
        Line(b"M 0x0", "? no"),
        Line(b"X 0\x00", "? no"),
        Line(b"X 0\xc3\xa9", "? no"),
        Line(b"? no", "? no"),
        Line(b"X 0", "X ok 1"),
    ],
    standings: "R 0 0 0 0 0\n",
};

// Numbers at the end of their fields, and one above.
const FIELDS: Script = Script {
    lines: &[
        Line(b"C 0 4294967296 5", "? no"),
        Line(b"C 0 0 1000001", "? no"),
        Line(b"C 256 0 5", "? no"),
        Line(b"C 1 15 0", "C ok"),
        Line(b"X 255", "X no 5 4 0 32"),
        Line(b"X 256", "? no"),
        Line(b"M 256", "? no"),
        Line(b"D 256 1", "? no"),
        Line(b"D 0 65536", "? no"),
        Line(b"D 0 65535", "D no 6 4 0 32"),
        Line(b"P 256 1 1 0 0", "? no"),
        Line(b"P 0 255 1 0 0", "P no 9 4 0 32"),
        Line(b"P 0 256 1 0 0", "? no"),
        Line(b"P 0 1 4294967295 0 0", "P ok 1"),
        Line(b"P 0 1 4294967296 0 0", "? no"),
        Line(b"P 0 4 1 18446744073709551615 0", "P ok 2"),
        Line(b"P 0 4 1 18446744073709551616 0", "? no"),
        Line(b"P 0 2 1 5 4294967295", "P ok 3"),
        Line(b"P 0 2 1 5 4294967296", "? no"),
        Line(b"P 0 3 1 5 0 0 65535", "P no 9 4 0 32"),
        Line(b"P 0 3 1 5 0 0 65536", "? no"),
        Line(
            b"X 99999999999999999999999999999999999999999999999999999999999999",
            "? no",
        ),
    ],
    standings: "",
};

// Slots rise to 31, each with a place; place 0 cites nothing.
const PAIRS: Script = Script {
    lines: &[
        Line(b"C 1 15 1", "C ok"),
        Line(b"P 0 4 1 5 0 0", "? no"),
        Line(b"P 0 4 1 5 0 0 0 1", "? no"),
        Line(b"P 0 4 1 5 0 1 0 1 0", "? no"),
        Line(b"P 0 4 1 5 0 2 0 1 0", "? no"),
        Line(b"P 0 4 1 5 0 32 0", "? no"),
        Line(b"P 0 4 1 5 0 31 0", "P ok 1"),
        Line(b"P 0 4 1 5 0 0 0 1 0 2 0 3 0 4 0 30 0 31 0", "P ok 2"),
        Line(b"P 0 3 1 5 0 3 2 4 0", "P ok 3"),
        Line(b"P 0 3 1 5 0 3 2 4 2", "P no 9 4 0 32"),
        Line(b"P 0 3 1 5 0 4 65535", "P no 9 4 0 32"),
        Line(b"P 0 4 1 5", "? no"),
        Line(b"P 0 4 1 5 0 ", "? no"),
        Line(b"P 0 4 1 5 0 01 0", "? no"),
        Line(b"P 0 4 1 5 0 1 00", "? no"),
        Line(b"P 0 4 1 5 0 3 +1", "? no"),
    ],
    standings: "",
};

// Lines of 249, 250 and 251 bytes, and longer ones.
const LENGTHS: Script = Script {
    lines: &[
        Line(b"C 1 1 1", "C ok"),
        Line(
            b"P 0 3 1 5 0 0 65535 1 65535 2 65535 3 65535 4 65535 5 65535 6 65535 7 65535 8 65535 9 65535 10 65535 11 65535 12 65535 13 65535 14 65535 15 65535 16 65535 17 65535 18 65535 19 65535 20 65535 21 65535 22 0 23 0 24 0 25 0 26 0 27 0 28 0 29 0 30 0 31 0",
            "P no 9 4 0 32",
        ),
        Line(
            b"P 0 3 1 5 0 0 65535 1 65535 2 65535 3 65535 4 65535 5 65535 6 65535 7 65535 8 65535 9 65535 10 65535 11 65535 12 65535 13 65535 14 65535 15 65535 16 65535 17 65535 18 65535 19 65535 20 65535 21 65535 22 65 23 0 24 0 25 0 26 0 27 0 28 0 29 0 30 0 31 0",
            "P no 9 4 0 32",
        ),
        Line(
            b"P 0 3 1 5 0 0 65535 1 65535 2 65535 3 65535 4 65535 5 65535 6 65535 7 65535 8 65535 9 65535 10 65535 11 65535 12 65535 13 65535 14 65535 15 65535 16 65535 17 65535 18 65535 19 65535 20 65535 21 65535 22 655 23 0 24 0 25 0 26 0 27 0 28 0 29 0 30 0 31 0",
            "? no",
        ),
        Line(
            b"SSSSSSSSSSSSSSSSSSSSSSSSSSSSSSSSSSSSSSSSSSSSSSSSSSSSSSSSSSSSSSSSSSSSSSSSSSSSSSSSSSSSSSSSSSSSSSSSSSSSSSSSSSSSSSSSSSSSSSSSSSSSSSSSSSSSSSSSSSSSSSSSSSSSSSSSSSSSSSSSSSSSSSSSSSSSSSSSSSSSSSSSSSSSSSSSSSSSSSSSSSSSSSSSSSSSSSSSSSSSSSSSSSSSSSSSSSSSSSSSSSSSSSSSSSS",
            "? no",
        ),
        Line(
            b"S S S S S S S S S S S S S S S S S S S S S S S S S S S S S S S S S S S S S S S S S S S S S S S S S S S S S S S S S S S S S S S S S S S S S S S S S S S S S S S S S S S S S S S S S S S S S S S S S S S S S S S S S S S S S S S S S S S S S S S S S S S S S S S S S S S S S S S S S S S S S S S S S S S S S S S S S S S S S S S S S S S S S S S S S S S S S S S S S S S S S S S S S S S S S S S S S S S S S S S S S S S S S S S S S S S S S S S S S S S S S S S S S S S S S S S S S S S S S S S S S S S S S S S S S S S S S S S S S S S S S S S S S S S S S S S S S S S S S S S S S S S S S S S S S S S S S S S S S S S S S S S S S S S S S S S S S S S S S S S S S S S S S S S S S S S S S S S S S S S S S S S S S S S S S S S S S S S S S S S S S S S S S S S S S S S S S S S S S S S S S S S S S S S S S S S S S S S S S S S S S S S S S S S S S S S S S S S S S S S S S S S S S S S S S S S S S S S S S S S S S S S S S S S S S S S S S S S S S S S S S S S S S S S S S S S S S S S S S S S S S S S S S S S S S S S S S S S S S S S S S S S S S S S S S S S S S S S S S S S S S S S S S S S S S S S S S S S S S S S S S S S S S S S S S S S S S S S S S S S S S S S S S S S S S S S S S S S S S S S S S S S S S S S S S S S S S S S S S S S S S S S S S S S S S S S S S S S S S S S S S S S S S S S S S S S S S S S S S S S S S S S S S S S S S S S S S S S S S S S S S S S S S S S S S S S S S S S S S S S S S S S S S S S S S S S S S S S S S S S S S S S S S S S S S S S S S S S S S S S S S S S S S S S S S S S S S S S S S S S S S S S S S S S S S S S S S S S S S S S S S S S S S S S S S S S S S S S S S S S S S S S S S S S S S S S S S S S S S S S S S S S S S S S S S S S S S S S S S S S S S S S S S S S S S S S S S S S S S S S S S S S S S S S S S S S S S S S S S S S S S S S S S S S S S S S S S S S S S S S S S S S S S S S S S S S S S S S S S S S S S S S S S S S S S S S S S S S S S S S S S S S S S S S S S S S S S S S S S S S S S S S S S S S S S S S S S S S S S S S S S S S S S S S S S S S S S S S S S S S S S S S S S S S S S S S S S S S S S S S S S S S S S S S S S S S S S S S S S S S S S S S S S S S S S S S S S S S S S S S S S S S S S S S S S S S S S S S S S S S S S S S S S S S S S S S S S S S S S S S S S S S S S S S S S S S S S S S S S S S S S S S S S S S S S S S S S S S S S S S S S S S S S S S S S S S S S S S S S S S S S S S S S S S S S S S S S S S S S S S S S S S S S S S S S S S S S S S S S S S S S S S S S S S S S S S S S S S S S S S S S S S S S S S S S S S S S S S S S S S S S S S S S S S S S S S S S S S S S S S S S S S S S S S S S S S S S S S S S S S S S S S S S S S S S S S S S S S S S S S S S S S S S S S S S S S S S S S S S S S S S S S S S S S S S S S S S S S S S S S S S S S S S S S S S S S S S S S S S S S S S S S S S S S S S S S S S S S S S S S S S S S S S S S S S S S S S S S S S S S S S S S S S S S S S S S S S S S S S S S S S S S S S S S S S S S S S S S S S S S S S S S S S S S S S S S S S S S S S S S S S S S S S S S S S S S S S S S S S S S S S S S S S S S S S S S S S S S S S S S S S S S S S S S S S S S S S S S S S S S S S S S S S S S S S S S S S S S S S S S S S S S S S S S S S S S S S S S S S S S S S S S S S S S S S S S S S S S S S S S S S S S S S S S S S S S S S S S S S S S S S S S S S S S S S S S S S S S S S S S S S S S S S S S S S S S S S S S S S S S S S S S S S S S S S S S S S S S S S S S S S S S S S S S S S S S S S S S S S S S S S S S S S S S S S S S S S S S S S S S S S S S S S S S S S S S S S S S S S S S S S S S S S S S S S S S S S S S S S S S S S S S S S S S S S S S S S S S S S S S S S S S S S S S S S S S S S S S S S S S S S S S S S S S S S S S S S S S S S S S S S S S S S S S S S S S S S S S S S S S S S S S S S S S S S S S S S S S S S S S S S S S S S S S S S S S S S S S S S S S S S S S S S S S S S S S S S S S S S S S S S S S S S S S S S S S S S S S S S S S S S S S S S S S S S S S S S S S S S S S S S S S S S S S S S S S S S S S S S S S S S S S S S S S S S S S S S S S S S S S S S S S S S S S S S S S S S S S S S S S S S S S S S S S S S S S S S S S S S S S S S S S S S S S S S S S S S S S S S S S S S S S S S S S S S S S S S S S S S S S S S S S S S S S S S S S S S S S S S S S S S S S S S S S S S S S S S S S S S S S S S S S S S S S S S S S S S S S S S S S S S S S S S S S S S S S S S S S S S S S S S S S S S S S S S S S S S S S S S S S S S S S S S S S S S S S S S S S S S S S S S S S S S S S S S S S S S S S S S S S S S S S S S S S S S S S S S S S S S S S S S S S S S S S S S S S S S S S S S S S S S S S S S S S S S S S S S S S S S S S S S S S S S S S S S S S S S S S S S S S S S S S S S S S S S S S S S S S S S S S S S S S S S S S S S S S S S S S S S S S S S S S S S S S S S S S S S S S S S S S S S S S S S S S S S S S S S S S S S S S S S S S S S S S S S S S S S S S S S S S S S S S S S S S S S S S S S S S S S S S S S S S S S S S S S S S S S S S S S S S S S S S S S S S S S S S S S S S S S S S S S S S S S S S S S S S S S S S S S S S S S S S S S S S S S S S S S S S S S S S S S S S S S S S S S S S S S S S S S S S S S S S S S S S S S S S S S S S S S S S S S S S S S S S S S S S S S S S S S S S S S S S S S S S S S S S S S S S S S S S S S S S S S S S S S S S S S S S S S S S S S S S S S S S S S S S S S S S S S S S S S S S S S S S S S S S S S S S S S S S S S S S S S S S S S S S S S S S S S S S S S S S S S S S S S S S S S S S S S S S S S S S S S S S S S S S S S S S S S S S S S S S S S S S S S S S S S S S S S S S S S S S S S S S S S S S S S S S S S S S S S S S S S S S S S S S S S S S S S S S S S S S S S S S S S S S S S S S S S S S S S S S S S S S S S S S S S S S S S S S S S S S S S S S S S S S S S S S S S S S S S S S S S S S S S S S S S S S S S S S S S S S S S S S S S S S S S S S S S S S S S S S S S S S S S S S S S S S S S S S S S S S S S S S S S S S S S S S S S S S S S S S S S S S S S S S S S S S S S S S S S S S S S S S S S S S S S S S S S S S S S S S S S S S S S S S S S S S S S S S S S S S S S S S S S S S S S S S S S S S S S S S S S S S S S S S S S S S S S S S S S S S S S S S S S S S S S S S S S S S S S S S S S S S S S S S S S S S S S S S S S S S S S S S S S S S S S S S S S S S S S S S S S S S S S S S S S S S S S S S S S S S S S S S S S S S S S S S S S S S S S S S S S S S S S S S S S S S S S S S S S S S S S S S S S S S S S S S S S S S S S S S S S S S S S S S S S S S S S S S S S S S S S S S S S S S S S S S S S S S S S S S S S S S S S S S S S S S S S S S S S S S S S S S S S S S S S S S S S S S S S S S S S S S S S S S S S S S S S S S S S S S S S S S S S S S S S S S S S S S S S S S S S S S S S S S S S S S S S S S S S S S S S S S S S S S S S S S S S S S S S S S S S S S S S S S S S S S S S S S S S S S S S S S S S S S S S S S S S S S S S S S S S S S S S S S S S S S S S S S S S S S S S S S S S S S S S S S S S S S S S S S S S S S S S S S S S S S S S S S S S S S S S S S S S S S S S S S S S S S S S S S S S S S S S S S S S S S S S S S S S S S S S S S S S S S S S S S S S S S S S S S S S S S S S S S S S S S S S S S S S S S S S S S S S S S S S S S S S S S S S S S S S S S S S S S S S S S S S S S S S S S S S S S S S S S S S S S S S S S S S S S S S S S S S S S S S S S S S S S S S S S S S S S S S S S S S S S S S S S S S S S S S S S S S S S S S S S S S S S S S S S S S S S S S S S S S S S S S S S S S S S S S S S S S S S S S S S S S S S S S S S S S S S S S S S S S S S S S S S S S S S S S S S S S S S S S S S S S S S S S S S S S S S S S S S S S S S S S S S S S S S S S S S S S S S S S S S S S S S S S S S S S S S S S S S S S S S S S S S S S S S S S S S S S S S S S S S S S S S S S S S S S S S S S S S S S S S S S S S S S S S S S S S S S S S S S S S S S S S S S S S S S S S S S S S S S S S S S S S S S S S S S S S S S S S S S S S S S S S S S S S S S S S S S S S S S S S S S S S S S S S S S S S S S S S S S S S S S S S S S S S S S S S S S S S S S S S S S S S S S S S S S S S S S S S S S S S S S S S S S S S S S S S S S S S S S S S S S S S S S S S S S S S S S S S S S S S S S S S S S S S S S S S S S S S S S S S S S S S S S S S S S S S S S S S S S S S S S S S S S S S S S S S S S S S S S S S S S S S S S S S S S S S S S S S S S S S S S S S S S S S S S S S S S S S S S S S S S S S S S",
            "? no",
        ),
        Line(b"S", "S ok 0 0 0"),
    ],
    standings: "R 1 0 0 0 0\nR 2 0 0 0 0\nR 3 0 0 0 0\n",
};

#[test]
fn plays(rt: HostRuntime) -> Result<(), Fail> {
    play_all(&rt, rt.alloc(), &[OTHER_BYTES, FIELDS, PAIRS, LENGTHS])
}
