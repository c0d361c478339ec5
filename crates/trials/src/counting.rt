// Counting at its edges.
use quorum::counting::Counting;
use quorum::faults::FaultNumbers;
use quorum::rules::QuorumRule;
use sets::process_set::ProcessSet;
use std::test::Fail;

// f, a set, and whether it is a quorum and whether it is blocking.
struct Case(u8, u32, bool, bool);

const CASES: [Case; 18] = [
    Case(0, 0b0, false, false),
    Case(0, 0b1, true, true),
    // members from n up are disregarded
    Case(0, 0b10, false, false),
    Case(0, 0xffff_fffe, false, false),
    Case(1, 0b0000, false, false),
    Case(1, 0b1000, false, false),
    Case(1, 0b0011, false, true),
    Case(1, 0b0111, true, true),
    Case(1, 0b1111, true, true),
    Case(1, 0xffff_fff0, false, false),
    Case(1, 0xffff_fff1, false, false),
    Case(1, 0xffff_fff3, false, true),
    // 10 and 11, 20 and 21 of 31
    Case(10, 0x3ff, false, false),
    Case(10, 0x7ff, false, true),
    Case(10, 0xf_ffff, false, true),
    Case(10, 0x1f_ffff, true, true),
    Case(10, 0x8000_03ff, false, false),
    Case(10, 0x800f_ffff, false, true),
];

#[test]
fn questions(rt: HostRuntime) -> Result<(), Fail> {
    for case in &CASES {
        let rule = Counting::new(case.0)?;
        let set = ProcessSet { bits: case.1 };
        assert_eq!(rt; rule.is_quorum(set), case.2);
        assert_eq!(rt; rule.is_blocking(set), case.3);
    }
    Ok(())
}

#[test]
fn sizes(rt: HostRuntime) -> Result<(), Fail> {
    assert_eq!(rt; Counting::new(0)?.size(), 1);
    assert_eq!(rt; Counting::new(1)?.size(), 4);
    assert_eq!(rt; Counting::new(10)?.size(), 31);
    Ok(())
}

#[test]
fn refusals(rt: HostRuntime) -> Result<(), Fail> {
    for f in [11, 12, 255] {
        match Counting::new(f) {
            Ok(_) => return Err(Fail::new("a rule with too many faults")),
            Err(fault) => assert_eq!(rt;
                fault.numbers(),
                FaultNumbers {
                    number: 16,
                    layer: 4,
                    place: 0,
                    slot: 32,
                }
            ),
        }
    }
    Ok(())
}
