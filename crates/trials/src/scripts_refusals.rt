// Scripts: refusals of the calls.
use crate::playing::{Line, Script, play_all};
use std::test::Fail;

// Deliver: 5, 6, 8, 11, 12 and 15.
const DELIVERIES: Script = Script {
    lines: &[
        Line(b"C 1 2 1", "C ok"),
        Line(b"D 4 1", "D no 5 4 0 32"),
        Line(b"D 1 1", "D no 6 4 0 32"),
        Line(b"D 0 0", "D no 8 4 0 32"),
        Line(b"D 0 1", "D no 8 4 0 32"),
        Line(b"P 1 1 3 0 0", "P ok 1"),
        Line(b"P 1 1 2 0 0", "P ok 2"),
        Line(b"D 0 1", "D ok"),
        Line(b"D 0 1", "D no 12 4 1 32"),
        Line(b"D 0 2", "D no 12 4 2 32"),
        Line(b"P 1 2 1 0 0", "P ok 3"),
        Line(b"D 0 3", "D no 11 4 3 32"),
        Line(b"P 1 4 1 5 0", "P ok 4"),
        Line(b"D 0 4", "D no 11 4 4 32"),
        Line(b"X 0", "X ok 5"),
        Line(b"X 2", "X ok 6"),
        Line(b"X 3", "X ok 7"),
        Line(b"S", "S ok 11 6 0"),
        Line(b"D 2 3", "D no 15 4 3 32"),
        Line(b"D 0 3", "D ok"),
        Line(b"D 0 3", "D no 12 4 3 32"),
        Line(b"D 0 65535", "D no 8 4 0 32"),
        Line(b"D 255 65535", "D no 5 4 0 32"),
    ],
    standings: "R 0 1 0 0 0\nR 2 1 0 0 0\nR 3 1 0 0 0\n",
};

// Expire, move and post: 5 and 6; a posting is refused 5, then 6, then 9.
const PROCESSES: Script = Script {
    lines: &[
        Line(b"C 1 2 1", "C ok"),
        Line(b"X 4", "X no 5 4 0 32"),
        Line(b"X 255", "X no 5 4 0 32"),
        Line(b"X 1", "X no 6 4 0 32"),
        Line(b"M 4", "M no 5 4 0 32"),
        Line(b"M 1", "M no 6 4 0 32"),
        Line(b"M 0", "M no 13 4 0 32"),
        Line(b"P 4 0 0 0 0", "P no 5 4 0 32"),
        Line(b"P 255 1 1 0 0", "P no 5 4 0 32"),
        Line(b"P 0 0 0 0 0", "P no 6 4 0 32"),
        Line(b"P 0 1 1 0 0", "P no 6 4 0 32"),
        Line(b"P 1 0 1 0 0", "P no 9 4 0 32"),
        Line(b"P 1 1 1 0 0", "P ok 1"),
    ],
    standings: "R 0 0 0 0 0\nR 2 0 0 0 0\nR 3 0 0 0 0\n",
};

// Post refuses 9: kinds, view 0, unused fields, and citations that name nothing posted.
const NOT_WELL_FORMED: Script = Script {
    lines: &[
        Line(b"C 1 15 0", "C ok"),
        Line(b"P 0 0 1 0 0", "P no 9 4 0 32"),
        Line(b"P 0 6 1 0 0", "P no 9 4 0 32"),
        Line(b"P 0 255 1 0 0", "P no 9 4 0 32"),
        Line(b"P 0 1 0 0 0", "P no 9 4 0 32"),
        Line(b"P 0 1 1 1 0", "P no 9 4 0 32"),
        Line(b"P 0 1 1 0 1", "P no 9 4 0 32"),
        Line(b"P 0 1 1 0 0", "P ok 1"),
        Line(b"P 0 1 1 0 0 0 1", "P no 9 4 0 32"),
        Line(b"P 0 2 2 5 0", "P no 9 4 0 32"),
        Line(b"P 0 2 2 0 0 0 1", "P no 9 4 0 32"),
        Line(b"P 0 2 2 0 1", "P ok 2"),
        Line(b"P 0 3 1 5 1", "P no 9 4 0 32"),
        Line(b"P 0 3 1 0 0 0 3", "P no 9 4 0 32"),
        Line(b"P 0 3 1 0 0 0 2", "P ok 3"),
        Line(b"P 0 3 1 5 0 4 1", "P no 9 4 0 32"),
        Line(b"P 0 3 1 5 0 31 1", "P no 9 4 0 32"),
        Line(b"P 0 3 1 5 0 3 3 4 0 31 0", "P ok 4"),
        Line(b"P 0 4 1 5 1", "P no 9 4 0 32"),
        Line(b"P 0 4 1 5 0 1 1", "P no 9 4 0 32"),
        Line(b"P 0 4 1 0 0 1 0", "P ok 5"),
        Line(b"P 0 5 1 5 1", "P no 9 4 0 32"),
        Line(b"P 0 5 1 5 0 1 1", "P no 9 4 0 32"),
        Line(b"P 0 5 4294967295 18446744073709551615 0", "P ok 6"),
    ],
    standings: "",
};

// A full post stops a sweep's processes, and is 7 for a move, an expiry and a posting; deliveries go on.
const FULL_POST: Script = Script {
    lines: &[
        Line(b"C 10 1073741824 100", "C ok"),
        Line(b"X 0", "X ok 1"),
        Line(b"X 1", "X ok 2"),
        Line(b"X 2", "X ok 3"),
        Line(b"X 3", "X ok 4"),
        Line(b"X 4", "X ok 5"),
        Line(b"X 5", "X ok 6"),
        Line(b"X 6", "X ok 7"),
        Line(b"X 7", "X ok 8"),
        Line(b"X 8", "X ok 9"),
        Line(b"X 9", "X ok 10"),
        Line(b"X 10", "X ok 11"),
        Line(b"S", "S ok 330 30 0"),
        Line(b"S", "S ok 570 30 0"),
        Line(b"S", "S ok 30 1 0"),
        Line(b"S", "S ok 30 30 0"),
        Line(b"S", "S ok 900 30 0"),
        Line(b"X 0", "X ok 133"),
        Line(b"X 1", "X ok 134"),
        Line(b"X 2", "X ok 135"),
        Line(b"X 3", "X ok 136"),
        Line(b"X 4", "X ok 137"),
        Line(b"X 5", "X ok 138"),
        Line(b"X 6", "X ok 139"),
        Line(b"X 7", "X ok 140"),
        Line(b"X 8", "X ok 141"),
        Line(b"X 9", "X ok 142"),
        Line(b"X 10", "X ok 143"),
        Line(b"S", "S ok 1230 60 0"),
        Line(b"S", "S ok 570 30 0"),
        Line(b"S", "S ok 30 1 0"),
        Line(b"S", "S ok 30 30 0"),
        Line(b"S", "S ok 900 22 8"),
        Line(b"S", "S ok 660 0 8"),
        Line(b"M 0", "M no 13 4 0 32"),
        Line(b"M 29", "M no 7 4 0 32"),
        Line(b"X 0", "X no 7 4 0 32"),
        Line(b"X 31", "X no 5 4 0 32"),
        Line(b"X 30", "X no 6 4 0 32"),
        Line(b"P 30 1 1 0 0", "P no 7 4 0 32"),
        Line(b"P 30 1 0 0 0", "P no 9 4 0 32"),
        Line(b"S", "S ok 0 0 8"),
    ],
    standings: "R 0 2 2 1 100\nR 1 2 2 1 100\nR 2 2 2 1 100\nR 3 2 2 1 100\nR 4 2 2 1 100\nR 5 2 2 1 100\nR 6 2 2 1 100\nR 7 2 2 1 100\nR 8 2 2 1 100\nR 9 2 2 1 100\nR 10 2 2 1 100\nR 11 2 2 1 100\nR 12 2 2 1 100\nR 13 2 2 1 100\nR 14 2 2 1 100\nR 15 2 2 1 100\nR 16 2 2 1 100\nR 17 2 2 1 100\nR 18 2 2 1 100\nR 19 2 2 1 100\nR 20 2 2 1 100\nR 21 2 2 1 100\nR 22 2 1 1 100\nR 23 2 1 1 100\nR 24 2 1 1 100\nR 25 2 1 1 100\nR 26 2 1 1 100\nR 27 2 1 1 100\nR 28 2 1 1 100\nR 29 2 1 1 100\n",
};

#[test]
fn plays(rt: HostRuntime) -> Result<(), Fail> {
    play_all(
        &rt,
        rt.alloc(),
        &[DELIVERIES, PROCESSES, NOT_WELL_FORMED, FULL_POST],
    )
}
