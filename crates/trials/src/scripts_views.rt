// Scripts: views, wishes and decisions.
use crate::playing::{Line, Script, play_all};
use std::test::Fail;

// One process alone decides its own value in five sweeps, and then has nothing to do.
const ALONE: Script = Script {
    lines: &[
        Line(b"C 0 0 5", "C ok"),
        Line(b"X 0", "X ok 1"),
        Line(b"S", "S ok 1 2 0"),
        Line(b"S", "S ok 1 1 0"),
        Line(b"S", "S ok 1 1 0"),
        Line(b"S", "S ok 1 1 0"),
        Line(b"S", "S ok 1 1 0"),
        Line(b"S", "S ok 0 0 0"),
        Line(b"M 0", "M no 13 4 0 32"),
    ],
    standings: "R 0 1 1 1 5\n",
};

// Two wishes of four are blocking and are relayed. A sweep delivers only what was posted before it.
const TWO_WISHES: Script = Script {
    lines: &[
        Line(b"C 1 0 7", "C ok"),
        Line(b"X 1", "X ok 1"),
        Line(b"M 1", "M no 13 4 0 32"),
        Line(b"S", "S ok 4 0 0"),
        Line(b"X 2", "X ok 2"),
        Line(b"S", "S ok 4 4 0"),
        Line(b"S", "S ok 8 4 0"),
        Line(b"S", "S ok 4 1 0"),
        Line(b"S", "S ok 4 4 0"),
        Line(b"S", "S ok 16 4 0"),
        Line(b"S", "S ok 16 4 0"),
    ],
    standings: "R 0 1 1 1 7\nR 1 1 1 1 7\nR 2 1 1 1 7\nR 3 1 1 1 7\n",
};

// Votes of view 1 that are delivered in view 2 are refused, and view 2 decides.
const STALLED_LEADER: Script = Script {
    lines: &[
        Line(b"C 1 1 100", "C ok"),
        Line(b"X 1", "X ok 1"),
        Line(b"X 2", "X ok 2"),
        Line(b"X 3", "X ok 3"),
        Line(b"S", "S ok 9 6 0"),
        Line(b"P 0 3 1 500 0 1 5 2 7 3 9", "P ok 10"),
        Line(b"D 1 10", "D ok"),
        Line(b"M 1", "M ok 4 11"),
        Line(b"D 2 10", "D ok"),
        Line(b"M 2", "M ok 4 12"),
        Line(b"X 1", "X ok 13"),
        Line(b"X 2", "X ok 14"),
        Line(b"X 3", "X ok 15"),
        Line(b"S", "S ok 16 6 0"),
        Line(b"D 2 11", "D no 10 4 11 32"),
        Line(b"D 3 12", "D no 10 4 12 32"),
        Line(b"D 1 10", "D no 10 4 10 32"),
        Line(b"D 1 5", "D no 10 4 5 32"),
        Line(b"S", "S ok 3 1 0"),
        Line(b"S", "S ok 3 3 0"),
        Line(b"S", "S ok 9 3 0"),
        Line(b"S", "S ok 9 3 0"),
    ],
    standings: "R 1 2 2 2 101\nR 2 2 2 2 101\nR 3 2 2 2 101\n",
};

// Expire wishes the hopeful view where it is above the next one, and changes no row: the relay sends it again.
const EXPIRE_HOPEFUL: Script = Script {
    lines: &[
        Line(b"C 1 3 1", "C ok"),
        Line(b"P 0 1 6 0 0", "P ok 1"),
        Line(b"P 1 1 9 0 0", "P ok 2"),
        Line(b"X 2", "X ok 3"),
        Line(b"D 2 1", "D ok"),
        Line(b"D 2 2", "D ok"),
        Line(b"X 2", "X ok 4"),
        Line(b"M 2", "M ok 1 5"),
        Line(b"M 2", "M no 13 4 0 32"),
        Line(b"D 2 3", "D ok"),
        Line(b"D 2 4", "D ok"),
        Line(b"M 2", "M ok 2 6"),
        Line(b"D 3 3", "D ok"),
        Line(b"D 3 4", "D ok"),
        Line(b"D 3 5", "D no 12 4 5 32"),
        Line(b"D 3 1", "D ok"),
        Line(b"M 3", "M ok 1 7"),
        Line(b"X 3", "X ok 8"),
    ],
    standings: "R 2 6 0 0 0\nR 3 0 0 0 0\n",
};

// No view is taken up while the settled view is below the hopeful one.
const SETTLED_BELOW: Script = Script {
    lines: &[
        Line(b"C 1 1 1", "C ok"),
        Line(b"X 1", "X ok 1"),
        Line(b"X 2", "X ok 2"),
        Line(b"X 3", "X ok 3"),
        Line(b"D 1 1", "D ok"),
        Line(b"D 1 2", "D ok"),
        Line(b"D 1 3", "D ok"),
        Line(b"M 1", "M ok 1 4"),
        Line(b"M 1", "M ok 2 5"),
        Line(b"P 0 1 3 0 0", "P ok 6"),
        Line(b"D 1 6", "D ok"),
        Line(b"M 1", "M no 13 4 0 32"),
        Line(b"X 1", "X ok 7"),
        Line(b"D 1 7", "D ok"),
        Line(b"M 1", "M ok 1 8"),
        Line(b"M 1", "M no 13 4 0 32"),
        Line(b"D 2 6", "D ok"),
        Line(b"D 2 7", "D ok"),
        Line(b"D 2 2", "D ok"),
        Line(b"M 2", "M ok 1 9"),
        Line(b"M 2", "M no 13 4 0 32"),
        Line(b"D 1 9", "D ok"),
        Line(b"M 1", "M ok 2 10"),
    ],
    standings: "R 1 2 0 0 0\nR 2 0 0 0 0\nR 3 0 0 0 0\n",
};

// In the last view expire is refused 14, and the view decides.
const LAST_VIEW: Script = Script {
    lines: &[
        Line(b"C 1 3 1", "C ok"),
        Line(b"P 0 1 4294967295 0 0", "P ok 1"),
        Line(b"P 1 1 4294967295 0 0", "P ok 2"),
        Line(b"X 2", "X ok 3"),
        Line(b"S", "S ok 6 2 0"),
        Line(b"X 2", "X ok 6"),
        Line(b"S", "S ok 4 2 0"),
        Line(b"X 2", "X no 14 4 0 32"),
        Line(b"X 3", "X no 14 4 0 32"),
        Line(b"P 0 2 4294967295 0 0", "P ok 9"),
        Line(b"P 0 4 4294967295 3 0", "P ok 10"),
        Line(b"P 0 5 4294967295 3 0", "P ok 11"),
        Line(b"S", "S ok 7 1 0"),
        Line(b"S", "S ok 2 2 0"),
        Line(b"S", "S ok 4 2 0"),
        Line(b"S", "S ok 4 2 0"),
        Line(b"S", "S ok 0 0 0"),
        Line(b"X 2", "X no 14 4 0 32"),
    ],
    standings: "R 2 4294967295 4294967295 4294967295 3\nR 3 4294967295 4294967295 4294967295 3\n",
};

#[test]
fn plays(rt: HostRuntime) -> Result<(), Fail> {
    play_all(
        &rt,
        rt.alloc(),
        &[
            ALONE,
            TWO_WISHES,
            STALLED_LEADER,
            EXPIRE_HOPEFUL,
            SETTLED_BELOW,
            LAST_VIEW,
        ],
    )
}
