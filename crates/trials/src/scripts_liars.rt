// Scripts: leaders and voters that lie.
use crate::playing::{Line, Script, play_all};
use std::test::Fail;

// Each process holds the proposal that came first and refuses the other. Votes two to two let nobody lock.
const TWO_PROPOSALS: Script = Script {
    lines: &[
        Line(b"C 1 1 100", "C ok"),
        Line(b"X 1", "X ok 1"),
        Line(b"X 2", "X ok 2"),
        Line(b"X 3", "X ok 3"),
        Line(b"S", "S ok 9 6 0"),
        Line(b"P 0 3 1 500 0 1 5 2 7 3 9", "P ok 10"),
        Line(b"P 0 3 1 600 0 1 5 2 7 3 9", "P ok 11"),
        Line(b"D 1 10", "D ok"),
        Line(b"D 1 11", "D no 12 4 11 32"),
        Line(b"D 2 11", "D ok"),
        Line(b"D 2 10", "D no 12 4 10 32"),
        Line(b"D 3 11", "D ok"),
        Line(b"M 1", "M ok 4 12"),
        Line(b"M 2", "M ok 4 13"),
        Line(b"M 3", "M ok 4 14"),
        Line(b"P 0 4 1 500 0", "P ok 15"),
        Line(b"S", "S ok 12 0 0"),
        Line(b"D 1 10", "D no 12 4 10 32"),
        Line(b"M 1", "M no 13 4 0 32"),
        Line(b"M 2", "M no 13 4 0 32"),
        Line(b"M 3", "M no 13 4 0 32"),
    ],
    standings: "R 1 1 0 0 0\nR 2 1 0 0 0\nR 3 1 0 0 0\n",
};

// A second vote of a sender is refused 12; one for another value is held and does not count.
const TWO_VOTES: Script = Script {
    lines: &[
        Line(b"C 1 8 100", "C ok"),
        Line(b"X 0", "X ok 1"),
        Line(b"X 1", "X ok 2"),
        Line(b"X 2", "X ok 3"),
        Line(b"S", "S ok 9 6 0"),
        Line(b"S", "S ok 3 1 0"),
        Line(b"S", "S ok 3 3 0"),
        Line(b"P 3 4 1 900 0", "P ok 14"),
        Line(b"P 3 4 1 100 0", "P ok 15"),
        Line(b"D 0 14", "D ok"),
        Line(b"D 0 15", "D no 12 4 15 32"),
        Line(b"D 1 15", "D ok"),
        Line(b"D 1 14", "D no 12 4 14 32"),
        Line(b"D 1 12", "D ok"),
        Line(b"D 0 12", "D ok"),
        Line(b"D 0 11", "D ok"),
        Line(b"M 0", "M no 13 4 0 32"),
        Line(b"D 1 11", "D ok"),
        Line(b"M 1", "M ok 5 16"),
        Line(b"P 3 5 1 900 0", "P ok 17"),
        Line(b"P 3 5 1 100 0", "P ok 18"),
        Line(b"D 1 17", "D ok"),
        Line(b"D 1 18", "D no 12 4 18 32"),
    ],
    standings: "R 0 1 0 0 0\nR 1 1 1 0 0\nR 2 1 0 0 0\n",
};

#[test]
fn plays(rt: HostRuntime) -> Result<(), Fail> {
    play_all(&rt, rt.alloc(), &[TWO_PROPOSALS, TWO_VOTES])
}
