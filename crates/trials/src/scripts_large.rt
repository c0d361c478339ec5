// Scripts: 31 processes.
use crate::playing::{Line, Script, play_all};
use std::test::Fail;

// Ten wishes are not blocking, eleven are.
const TEN_WISHES: Script = Script {
    lines: &[
        Line(b"C 10 0 1", "C ok"),
        Line(b"X 0", "X ok 1"),
        Line(b"X 1", "X ok 2"),
        Line(b"X 2", "X ok 3"),
        Line(b"X 3", "X ok 4"),
        Line(b"X 4", "X ok 5"),
        Line(b"X 5", "X ok 6"),
        Line(b"X 6", "X ok 7"),
        Line(b"X 7", "X ok 8"),
        Line(b"X 8", "X ok 9"),
        Line(b"X 9", "X ok 10"),
        Line(b"X 31", "X no 5 4 0 32"),
        Line(b"S", "S ok 310 0 0"),
        Line(b"M 30", "M no 13 4 0 32"),
        Line(b"X 10", "X ok 11"),
        Line(b"S", "S ok 31 31 0"),
    ],
    standings: "R 0 0 0 0 0\nR 1 0 0 0 0\nR 2 0 0 0 0\nR 3 0 0 0 0\nR 4 0 0 0 0\nR 5 0 0 0 0\nR 6 0 0 0 0\nR 7 0 0 0 0\nR 8 0 0 0 0\nR 9 0 0 0 0\nR 10 0 0 0 0\nR 11 0 0 0 0\nR 12 0 0 0 0\nR 13 0 0 0 0\nR 14 0 0 0 0\nR 15 0 0 0 0\nR 16 0 0 0 0\nR 17 0 0 0 0\nR 18 0 0 0 0\nR 19 0 0 0 0\nR 20 0 0 0 0\nR 21 0 0 0 0\nR 22 0 0 0 0\nR 23 0 0 0 0\nR 24 0 0 0 0\nR 25 0 0 0 0\nR 26 0 0 0 0\nR 27 0 0 0 0\nR 28 0 0 0 0\nR 29 0 0 0 0\nR 30 0 0 0 0\n",
};

// Twenty wishes are blocking and no quorum: the view is relayed at once and taken up a sweep later.
const TWENTY_WISHES: Script = Script {
    lines: &[
        Line(b"C 10 0 1", "C ok"),
        Line(b"X 0", "X ok 1"),
        Line(b"X 1", "X ok 2"),
        Line(b"X 2", "X ok 3"),
        Line(b"X 3", "X ok 4"),
        Line(b"X 4", "X ok 5"),
        Line(b"X 5", "X ok 6"),
        Line(b"X 6", "X ok 7"),
        Line(b"X 7", "X ok 8"),
        Line(b"X 8", "X ok 9"),
        Line(b"X 9", "X ok 10"),
        Line(b"X 10", "X ok 11"),
        Line(b"X 11", "X ok 12"),
        Line(b"X 12", "X ok 13"),
        Line(b"X 13", "X ok 14"),
        Line(b"X 14", "X ok 15"),
        Line(b"X 15", "X ok 16"),
        Line(b"X 16", "X ok 17"),
        Line(b"X 17", "X ok 18"),
        Line(b"X 18", "X ok 19"),
        Line(b"X 19", "X ok 20"),
        Line(b"S", "S ok 620 31 0"),
        Line(b"S", "S ok 341 31 0"),
    ],
    standings: "R 0 1 0 0 0\nR 1 1 0 0 0\nR 2 1 0 0 0\nR 3 1 0 0 0\nR 4 1 0 0 0\nR 5 1 0 0 0\nR 6 1 0 0 0\nR 7 1 0 0 0\nR 8 1 0 0 0\nR 9 1 0 0 0\nR 10 1 0 0 0\nR 11 1 0 0 0\nR 12 1 0 0 0\nR 13 1 0 0 0\nR 14 1 0 0 0\nR 15 1 0 0 0\nR 16 1 0 0 0\nR 17 1 0 0 0\nR 18 1 0 0 0\nR 19 1 0 0 0\nR 20 1 0 0 0\nR 21 1 0 0 0\nR 22 1 0 0 0\nR 23 1 0 0 0\nR 24 1 0 0 0\nR 25 1 0 0 0\nR 26 1 0 0 0\nR 27 1 0 0 0\nR 28 1 0 0 0\nR 29 1 0 0 0\nR 30 1 0 0 0\n",
};

// Twenty-one wishes are a quorum: the view is relayed and taken up at once.
const A_QUORUM: Script = Script {
    lines: &[
        Line(b"C 10 0 1", "C ok"),
        Line(b"X 0", "X ok 1"),
        Line(b"X 1", "X ok 2"),
        Line(b"X 2", "X ok 3"),
        Line(b"X 3", "X ok 4"),
        Line(b"X 4", "X ok 5"),
        Line(b"X 5", "X ok 6"),
        Line(b"X 6", "X ok 7"),
        Line(b"X 7", "X ok 8"),
        Line(b"X 8", "X ok 9"),
        Line(b"X 9", "X ok 10"),
        Line(b"X 10", "X ok 11"),
        Line(b"X 11", "X ok 12"),
        Line(b"X 12", "X ok 13"),
        Line(b"X 13", "X ok 14"),
        Line(b"X 14", "X ok 15"),
        Line(b"X 15", "X ok 16"),
        Line(b"X 16", "X ok 17"),
        Line(b"X 17", "X ok 18"),
        Line(b"X 18", "X ok 19"),
        Line(b"X 19", "X ok 20"),
        Line(b"X 20", "X ok 21"),
        Line(b"S", "S ok 651 62 0"),
    ],
    standings: "R 0 1 0 0 0\nR 1 1 0 0 0\nR 2 1 0 0 0\nR 3 1 0 0 0\nR 4 1 0 0 0\nR 5 1 0 0 0\nR 6 1 0 0 0\nR 7 1 0 0 0\nR 8 1 0 0 0\nR 9 1 0 0 0\nR 10 1 0 0 0\nR 11 1 0 0 0\nR 12 1 0 0 0\nR 13 1 0 0 0\nR 14 1 0 0 0\nR 15 1 0 0 0\nR 16 1 0 0 0\nR 17 1 0 0 0\nR 18 1 0 0 0\nR 19 1 0 0 0\nR 20 1 0 0 0\nR 21 1 0 0 0\nR 22 1 0 0 0\nR 23 1 0 0 0\nR 24 1 0 0 0\nR 25 1 0 0 0\nR 26 1 0 0 0\nR 27 1 0 0 0\nR 28 1 0 0 0\nR 29 1 0 0 0\nR 30 1 0 0 0\n",
};

#[test]
fn plays(rt: HostRuntime) -> Result<(), Fail> {
    play_all(&rt, rt.alloc(), &[TEN_WISHES, TWENTY_WISHES, A_QUORUM])
}
