// Scripts: locks that are carried into later views.
use crate::playing::{Line, Script, play_all};
use std::test::Fail;

// Process 3 alone locks in view 1. The leader of view 2 proposes the locked value, not its own.
const LOCK_CARRIED: Script = Script {
    lines: &[
        Line(b"C 1 4 100", "C ok"),
        Line(b"X 0", "X ok 1"),
        Line(b"X 1", "X ok 2"),
        Line(b"X 3", "X ok 3"),
        Line(b"S", "S ok 9 6 0"),
        Line(b"S", "S ok 3 1 0"),
        Line(b"S", "S ok 3 3 0"),
        Line(b"D 3 11", "D ok"),
        Line(b"D 3 12", "D ok"),
        Line(b"D 3 13", "D ok"),
        Line(b"M 3", "M ok 5 14"),
        Line(b"X 0", "X ok 15"),
        Line(b"X 1", "X ok 16"),
        Line(b"X 3", "X ok 17"),
        Line(b"S", "S ok 18 6 0"),
        Line(b"S", "S ok 3 1 0"),
        Line(b"S", "S ok 3 3 0"),
        Line(b"S", "S ok 9 3 0"),
        Line(b"S", "S ok 9 3 0"),
    ],
    standings: "R 0 2 2 2 100\nR 1 2 2 2 100\nR 3 2 2 2 100\n",
};

// The leader of view 2 has a quorum of reports without the lock and proposes its own value; the lock stays until its process locks again.
const LOCK_NOT_HEARD: Script = Script {
    lines: &[
        Line(b"C 1 4 100", "C ok"),
        Line(b"X 0", "X ok 1"),
        Line(b"X 1", "X ok 2"),
        Line(b"X 3", "X ok 3"),
        Line(b"S", "S ok 9 6 0"),
        Line(b"S", "S ok 3 1 0"),
        Line(b"S", "S ok 3 3 0"),
        Line(b"D 3 11", "D ok"),
        Line(b"D 3 12", "D ok"),
        Line(b"D 3 13", "D ok"),
        Line(b"M 3", "M ok 5 14"),
        Line(b"X 0", "X ok 15"),
        Line(b"X 1", "X ok 16"),
        Line(b"X 3", "X ok 17"),
        Line(b"S", "S ok 18 6 0"),
        Line(b"P 2 2 2 0 0", "P ok 24"),
        Line(b"D 1 19", "D ok"),
        Line(b"D 1 21", "D ok"),
        Line(b"D 1 24", "D ok"),
        Line(b"M 1", "M ok 3 25"),
        Line(b"S", "S ok 4 3 0"),
        Line(b"D 0 26", "D ok"),
        Line(b"D 0 27", "D ok"),
    ],
    standings: "R 0 2 0 0 0\nR 1 2 0 0 0\nR 3 2 1 0 0\n",
};

// Reports locked in 0, in 2 with value 8 and in 1 with value 9: a proposal of 9 is refused 27, one of 8 is taken.
const HIGHEST_LOCK: Script = Script {
    lines: &[
        Line(b"C 1 14 1", "C ok"),
        Line(b"P 1 4 1 9 0", "P ok 1"),
        Line(b"P 2 4 1 9 0", "P ok 2"),
        Line(b"P 3 4 1 9 0", "P ok 3"),
        Line(b"P 1 4 2 8 0", "P ok 4"),
        Line(b"P 2 4 2 8 0", "P ok 5"),
        Line(b"P 3 4 2 8 0", "P ok 6"),
        Line(b"P 1 1 3 0 0", "P ok 7"),
        Line(b"P 2 1 3 0 0", "P ok 8"),
        Line(b"P 3 1 3 0 0", "P ok 9"),
        Line(b"S", "S ok 3 2 0"),
        Line(b"P 1 2 3 0 0", "P ok 12"),
        Line(b"P 2 2 3 8 2 1 4 2 5 3 6", "P ok 13"),
        Line(b"P 3 2 3 9 1 1 1 2 2 3 3", "P ok 14"),
        Line(b"P 2 3 3 9 0 1 12 2 13 3 14", "P ok 15"),
        Line(b"D 0 15", "D no 27 3 15 32"),
        Line(b"P 2 3 3 7 0 1 12 2 13 3 14", "P ok 16"),
        Line(b"D 0 16", "D no 27 3 16 32"),
        Line(b"P 2 3 3 8 0 1 12 2 13 3 14", "P ok 17"),
        Line(b"D 0 17", "D ok"),
        Line(b"D 0 15", "D no 12 4 15 32"),
        Line(b"M 0", "M ok 4 18"),
    ],
    standings: "R 0 3 0 0 0\n",
};

// Of equal highest locks with different values the leader takes that of the lowest sender.
const EQUAL_LOCKS: Script = Script {
    lines: &[
        Line(b"C 1 14 1", "C ok"),
        Line(b"P 1 4 1 8 0", "P ok 1"),
        Line(b"P 2 4 1 8 0", "P ok 2"),
        Line(b"P 3 4 1 8 0", "P ok 3"),
        Line(b"P 1 4 1 9 0", "P ok 4"),
        Line(b"P 2 4 1 9 0", "P ok 5"),
        Line(b"P 3 4 1 9 0", "P ok 6"),
        Line(b"P 1 1 5 0 0", "P ok 7"),
        Line(b"P 2 1 5 0 0", "P ok 8"),
        Line(b"P 3 1 5 0 0", "P ok 9"),
        Line(b"S", "S ok 3 2 0"),
        Line(b"P 1 2 5 0 0", "P ok 12"),
        Line(b"P 2 2 5 8 1 1 1 2 2 3 3", "P ok 13"),
        Line(b"P 3 2 5 9 1 1 4 2 5 3 6", "P ok 14"),
        Line(b"S", "S ok 5 1 0"),
        Line(b"S", "S ok 1 1 0"),
        Line(b"P 1 4 5 8 0", "P ok 17"),
        Line(b"P 2 4 5 8 0", "P ok 18"),
        Line(b"P 3 4 5 9 0", "P ok 19"),
        Line(b"S", "S ok 4 1 0"),
    ],
    standings: "R 0 5 5 0 0\n",
};

#[test]
fn plays(rt: HostRuntime) -> Result<(), Fail> {
    play_all(
        &rt,
        rt.alloc(),
        &[LOCK_CARRIED, LOCK_NOT_HEARD, HIGHEST_LOCK, EQUAL_LOCKS],
    )
}
