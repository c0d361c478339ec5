// Scripts: reports and certificates at fault.
use crate::playing::{Line, Script, play_all};
use std::test::Fail;

// A certificate with one wrong place is refused 21 with the slot: another kind, sender, view or value.
const ONE_WRONG_PLACE: Script = Script {
    lines: &[
        Line(b"C 1 14 1", "C ok"),
        Line(b"P 1 4 1 8 0", "P ok 1"),
        Line(b"P 2 4 1 8 0", "P ok 2"),
        Line(b"P 3 4 1 8 0", "P ok 3"),
        Line(b"P 1 5 1 8 0", "P ok 4"),
        Line(b"P 2 4 2 8 0", "P ok 5"),
        Line(b"P 3 4 1 9 0", "P ok 6"),
        Line(b"P 1 1 5 0 0", "P ok 7"),
        Line(b"P 2 1 5 0 0", "P ok 8"),
        Line(b"P 3 1 5 0 0", "P ok 9"),
        Line(b"S", "S ok 3 2 0"),
        Line(b"P 1 2 5 8 1 1 4 2 2 3 3", "P ok 12"),
        Line(b"D 0 12", "D no 21 1 12 1"),
        Line(b"P 1 2 5 8 1 1 1 2 1 3 3", "P ok 13"),
        Line(b"D 0 13", "D no 21 1 13 2"),
        Line(b"P 1 2 5 8 1 1 1 2 5 3 3", "P ok 14"),
        Line(b"D 0 14", "D no 21 1 14 2"),
        Line(b"P 1 2 5 8 1 1 1 2 2 3 6", "P ok 15"),
        Line(b"D 0 15", "D no 21 1 15 3"),
        Line(b"P 1 2 5 8 1 0 1 1 1 2 2 3 6", "P ok 16"),
        Line(b"D 0 16", "D no 21 1 16 0"),
        Line(b"P 1 2 5 8 1 1 1 2 2 3 3", "P ok 17"),
        Line(b"D 0 17", "D ok"),
        Line(b"D 0 16", "D no 12 4 16 32"),
    ],
    standings: "R 0 5 0 0 0\n",
};

// Fault 22 comes before those of the certificate, 20 before 21; a locked view of 0 is no lock.
const FAULT_ORDER: Script = Script {
    lines: &[
        Line(b"C 1 14 1", "C ok"),
        Line(b"P 1 4 1 8 0", "P ok 1"),
        Line(b"P 2 4 1 8 0", "P ok 2"),
        Line(b"P 1 1 5 0 0", "P ok 3"),
        Line(b"P 2 1 5 0 0", "P ok 4"),
        Line(b"P 3 1 5 0 0", "P ok 5"),
        Line(b"S", "S ok 3 2 0"),
        Line(b"P 1 2 5 8 5 1 1", "P ok 8"),
        Line(b"D 0 8", "D no 22 2 8 32"),
        Line(b"P 1 2 5 8 6 1 1 2 2 3 2", "P ok 9"),
        Line(b"D 0 9", "D no 22 2 9 32"),
        Line(b"P 1 2 5 8 1 1 1 2 2", "P ok 10"),
        Line(b"D 0 10", "D no 20 1 10 32"),
        Line(b"P 1 2 5 8 1 1 2 2 1", "P ok 11"),
        Line(b"D 0 11", "D no 20 1 11 32"),
        Line(b"P 1 2 5 8 1", "P ok 12"),
        Line(b"D 0 12", "D no 20 1 12 32"),
        Line(b"P 1 2 5 8 4 1 1 2 2 3 2", "P ok 13"),
        Line(b"D 0 13", "D no 21 1 13 1"),
        Line(b"P 1 2 5 0 0", "P ok 14"),
        Line(b"D 0 14", "D ok"),
    ],
    standings: "R 0 5 0 0 0\n",
};

#[test]
fn plays(rt: HostRuntime) -> Result<(), Fail> {
    play_all(&rt, rt.alloc(), &[ONE_WRONG_PLACE, FAULT_ORDER])
}
