// Weights at their edges.
use quorum::faults::FaultNumbers;
use quorum::rules::QuorumRule;
use quorum::weights::Weights;
use sets::process_set::ProcessSet;
use std::test::Fail;

// The number and the slot of a refusal; 0 where the list is accepted.
fn refused(list: &[u32]) -> (u8, u8) {
    let mut rule = Weights::four_equal();
    match rule.replace(list) {
        Ok(()) => (0, rule.size()),
        Err(fault) => {
            let numbers = fault.numbers();
            (numbers.number, numbers.slot)
        }
    }
}

// A list, and the number and slot of its refusal, or 0 and the rule's size.
struct List(&'static [u32], (u8, u8));

const LISTS: [List; 12] = [
    List(&[], (17, 32)),
    List(&[1], (0, 1)),
    List(&[1; 32], (0, 32)),
    List(&[1; 33], (17, 32)),
    List(&[1_000_001; 33], (17, 32)),
    List(&[1_000_000, 0], (0, 2)),
    List(&[1_000_001, 0], (18, 0)),
    List(&[0, 1_000_001, 4_294_967_295], (18, 1)),
    List(&[1_000_001; 32], (18, 0)),
    List(&[0], (19, 32)),
    List(&[0; 32], (19, 32)),
    List(&[0, 0, 1], (0, 3)),
];

#[test]
fn refusals(rt: HostRuntime) {
    for case in &LISTS {
        assert_eq!(rt; refused(case.0), case.1);
    }
    let mut last = [0; 32];
    last[31] = 1_000_001;
    assert_eq!(rt; refused(&last), (18, 31));
}

#[test]
fn numbers(rt: HostRuntime) -> Result<(), Fail> {
    let mut rule = Weights::four_equal();
    match rule.replace(&[0, 0, 1_000_001]) {
        Ok(()) => Err(Fail::new("a weight that is too large")),
        Err(fault) => {
            assert_eq!(rt;
                fault.numbers(),
                FaultNumbers {
                    number: 18,
                    layer: 4,
                    place: 0,
                    slot: 2,
                }
            );
            Ok(())
        },
    }
}

#[test]
fn rules_of_lists(rt: HostRuntime) -> Result<(), Fail> {
    let rule = Weights::new(&[5, 1, 1, 1])?;
    assert_eq!(rt; rule.size(), 4);
    assert_eq!(rt; rule.is_quorum(ProcessSet { bits: 0b0011 }), true);
    assert_eq!(rt; rule.is_quorum(ProcessSet { bits: 0b1110 }), false);
    assert!(rt; Weights::new(&[0, 0]).is_err());
    Ok(())
}

// Whether the set is a quorum of the rule by these weights, and whether it is blocking.
fn asked(list: &[u32], bits: u32) -> (bool, bool) {
    let mut rule = Weights::four_equal();
    let _ = rule.replace(list);
    let set = ProcessSet { bits };
    (rule.is_quorum(set), rule.is_blocking(set))
}

// Weights and a set, and whether it is a quorum and whether it is blocking.
struct Question(&'static [u32], u32, (bool, bool));

const QUESTIONS: [Question; 14] = [
    Question(&[5, 1, 1, 1], 0b0011, (true, true)),
    Question(&[5, 1, 1, 1], 0b1110, (false, true)),
    Question(&[5, 1, 1, 1], 0b0110, (false, false)),
    Question(&[5, 1, 1, 1], 0b0001, (false, true)),
    Question(&[5, 1, 1, 1], 0xffff_fff6, (false, false)),
    // exactly two thirds, and exactly one
    Question(&[1, 1, 1], 0b011, (false, true)),
    Question(&[1, 1, 1], 0b001, (false, true)),
    Question(&[1, 1, 1], 0b111, (true, true)),
    // zero weights beside others
    Question(&[0, 4, 0, 0], 0b1101, (false, false)),
    Question(&[0, 4, 0, 0], 0b0010, (true, true)),
    Question(&[1_000_000; 32], 0x1f_ffff, (false, true)),
    Question(&[1_000_000; 32], 0x3f_ffff, (true, true)),
    Question(&[1_000_000; 32], 0x3ff, (false, false)),
    Question(&[1_000_000; 32], 0x7ff, (false, true)),
];

#[test]
fn questions(rt: HostRuntime) {
    for case in &QUESTIONS {
        assert_eq!(rt; asked(case.0, case.1), case.2);
    }
}

#[test]
fn a_refusal_leaves_the_rule(rt: HostRuntime) {
    // the four equal weights
    assert_eq!(rt; asked(&[], 0b0111), (true, true));
    assert_eq!(rt; asked(&[0, 0], 0b0011), (false, true));
    let mut rule = Weights::four_equal();
    assert!(rt; rule.replace(&[2, 1]).is_ok());
    assert!(rt; rule.replace(&[1_000_001]).is_err());
    assert_eq!(rt; rule.size(), 2);
    assert_eq!(rt; rule.is_quorum(ProcessSet { bits: 0b01 }), false);
    assert_eq!(rt; rule.is_blocking(ProcessSet { bits: 0b10 }), true);
}
