// Scripts: proposals at fault.
use crate::playing::{Line, Script, play_all};
use std::test::Fail;

// Not the leader, no valid value, no quorum, a wrong citation: 23 to 26 in this order.
const FAULT_ORDER: Script = Script {
    lines: &[
        Line(b"C 1 14 1", "C ok"),
        Line(b"P 1 1 2 0 0", "P ok 1"),
        Line(b"P 2 1 2 0 0", "P ok 2"),
        Line(b"P 3 1 2 0 0", "P ok 3"),
        Line(b"S", "S ok 3 2 0"),
        Line(b"P 1 2 2 0 0", "P ok 6"),
        Line(b"P 2 2 2 0 0", "P ok 7"),
        Line(b"P 2 3 2 0 0", "P ok 8"),
        Line(b"D 0 8", "D no 23 3 8 32"),
        Line(b"P 1 3 2 0 0", "P ok 9"),
        Line(b"D 0 9", "D no 24 3 9 32"),
        Line(b"P 1 3 2 1000001 0 0 5 1 6 2 7", "P ok 10"),
        Line(b"D 0 10", "D no 24 3 10 32"),
        Line(b"P 1 3 2 4294967297 0 0 5 1 6 2 7", "P ok 11"),
        Line(b"D 0 11", "D no 24 3 11 32"),
        Line(b"P 1 3 2 1000000 0 0 5 1 6", "P ok 12"),
        Line(b"D 0 12", "D no 25 3 12 32"),
        Line(b"P 1 3 2 1000000 0 0 5 1 6 3 7", "P ok 13"),
        Line(b"D 0 13", "D no 26 3 13 3"),
        Line(b"P 1 3 2 1000000 0 0 5 1 1 2 7", "P ok 14"),
        Line(b"D 0 14", "D no 26 3 14 1"),
        Line(b"P 1 3 2 1000000 0 0 5 1 6 2 7", "P ok 15"),
        Line(b"D 0 15", "D ok"),
    ],
    standings: "R 0 2 0 0 0\n",
};

// Citations are judged slot by slot, each for 26 and then for the report's own faults, at its place.
const CITATIONS: Script = Script {
    lines: &[
        Line(b"C 1 14 1", "C ok"),
        Line(b"P 1 1 2 0 0", "P ok 1"),
        Line(b"P 2 1 2 0 0", "P ok 2"),
        Line(b"P 3 1 2 0 0", "P ok 3"),
        Line(b"S", "S ok 3 2 0"),
        Line(b"P 1 2 2 8 2", "P ok 6"),
        Line(b"P 2 2 2 8 1 1 1", "P ok 7"),
        Line(b"P 2 2 2 8 1 1 1 2 2 3 3", "P ok 8"),
        Line(b"P 3 2 1 0 0", "P ok 9"),
        Line(b"P 3 2 2 0 0", "P ok 10"),
        Line(b"P 1 3 2 8 0 0 5 1 6 3 9", "P ok 11"),
        Line(b"D 0 11", "D no 22 2 6 32"),
        Line(b"P 1 3 2 8 0 0 5 2 7 3 9", "P ok 12"),
        Line(b"D 0 12", "D no 20 1 7 32"),
        Line(b"P 1 3 2 8 0 0 5 2 8 3 9", "P ok 13"),
        Line(b"D 0 13", "D no 21 1 8 1"),
        Line(b"P 1 3 2 8 0 0 10 2 8 3 9", "P ok 14"),
        Line(b"D 0 14", "D no 26 3 14 0"),
        Line(b"P 1 2 2 0 0", "P ok 15"),
        Line(b"P 1 3 2 8 0 0 5 1 15 3 9", "P ok 16"),
        Line(b"D 0 16", "D no 26 3 16 3"),
        Line(b"P 1 3 2 8 0 0 5 1 15 3 10", "P ok 17"),
        Line(b"D 0 17", "D ok"),
    ],
    standings: "R 0 2 0 0 0\n",
};

#[test]
fn plays(rt: HostRuntime) -> Result<(), Fail> {
    play_all(&rt, rt.alloc(), &[FAULT_ORDER, CITATIONS])
}
