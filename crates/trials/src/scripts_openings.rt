// Scripts: openings.
use crate::playing::{Line, Script, play_all};
use std::test::Fail;

// Lines before a good C, refused openings, and C after a good one.
const BEFORE_AND_AFTER: Script = Script {
    lines: &[
        Line(b"S", "? no"),
        Line(b"X 0", "? no"),
        Line(b"M 0", "? no"),
        Line(b"D 0 1", "? no"),
        Line(b"P 0 1 1 0 0", "? no"),
        Line(b"C 11 0 5", "C no 16 4 0 32"),
        Line(b"C 255 4294967295 0", "C no 16 4 0 32"),
        Line(b"C 256 0 5", "? no"),
        Line(b"C 0 0 0", "C no 4 4 0 0"),
        Line(b"C 1 1 1000000", "C no 4 4 0 1"),
        Line(b"C 1 3 999998", "C no 4 4 0 3"),
        Line(b"S", "? no"),
        Line(b"C 1 9 999998", "C ok"),
        Line(b"C 1 9 999998", "? no"),
        Line(b"C 11 0 5", "? no"),
        Line(b"C 0 0 0", "? no"),
        Line(b"S", "S ok 0 0 0"),
    ],
    standings: "R 1 0 0 0 0\nR 2 0 0 0 0\n",
};

// Without a good C no process stands anywhere.
const NONE: Script = Script {
    lines: &[
        Line(b"C 0 0 0", "C no 4 4 0 0"),
        Line(b"C 12 0 1", "C no 16 4 0 32"),
        Line(b"X 0", "? no"),
    ],
    standings: "",
};

// All processes are foreign.
const ALL_FOREIGN: Script = Script {
    lines: &[
        Line(b"C 1 4294967295 0", "C ok"),
        Line(b"S", "S ok 0 0 0"),
        Line(b"X 0", "X no 6 4 0 32"),
        Line(b"D 3 1", "D no 6 4 0 32"),
        Line(b"M 2", "M no 6 4 0 32"),
        Line(b"P 3 1 4294967295 0 0", "P ok 1"),
        Line(b"P 4 1 1 0 0", "P no 5 4 0 32"),
        Line(b"S", "S ok 0 0 0"),
    ],
    standings: "",
};

// Own values are tested of run processes only.
const FIRST_VALUE: Script = Script {
    lines: &[
        Line(b"C 1 14 0", "C no 4 4 0 0"),
        Line(b"C 1 4294967281 0", "C ok"),
        Line(b"X 0", "X no 6 4 0 32"),
        Line(b"X 3", "X ok 1"),
    ],
    standings: "R 1 0 0 0 0\nR 2 0 0 0 0\nR 3 0 0 0 0\n",
};

// The largest own value that is valid.
const LARGEST_VALUE: Script = Script {
    lines: &[
        Line(b"C 0 4294967294 1000000", "C ok"),
        Line(b"X 0", "X ok 1"),
        Line(b"S", "S ok 1 2 0"),
        Line(b"S", "S ok 1 1 0"),
        Line(b"S", "S ok 1 1 0"),
        Line(b"S", "S ok 1 1 0"),
        Line(b"S", "S ok 1 1 0"),
    ],
    standings: "R 0 1 1 1 1000000\n",
};

#[test]
fn plays(rt: HostRuntime) -> Result<(), Fail> {
    play_all(
        &rt,
        rt.alloc(),
        &[
            BEFORE_AND_AFTER,
            NONE,
            ALL_FOREIGN,
            FIRST_VALUE,
            LARGEST_VALUE,
        ],
    )
}
