// Sets at their edges.
use sets::process_set::ProcessSet;

const ALL: ProcessSet = ProcessSet { bits: 0xffff_ffff };

#[test]
fn members(rt: HostRuntime) {
    let ends = ProcessSet::empty()
        .insert(0)
        .insert(31)
        .insert(32)
        .insert(255);
    assert_eq!(rt; ends.bits, 0x8000_0001);
    assert_eq!(rt; ends.insert(31).bits, 0x8000_0001);
    assert_eq!(rt; ends.contains(0), true);
    assert_eq!(rt; ends.contains(1), false);
    assert_eq!(rt; ends.contains(31), true);
    assert_eq!(rt; ends.contains(32), false);
    assert_eq!(rt; ALL.contains(255), false);
}

#[test]
fn parts(rt: HostRuntime) {
    assert_eq!(rt; ALL.below(0).bits, 0);
    assert_eq!(rt; ALL.below(4).bits, 0b1111);
    assert_eq!(rt; ALL.below(32).bits, 0xffff_ffff);
    assert_eq!(rt; ALL.below(255).bits, 0xffff_ffff);
    let odd = ProcessSet { bits: 0b1010 };
    assert_eq!(rt; odd.others(0).bits, 0);
    assert_eq!(rt; odd.others(3).bits, 0b101);
    assert_eq!(rt; odd.others(32).bits, 0xffff_fff5);
    assert_eq!(rt; odd.others(255).bits, 0xffff_fff5);
    assert_eq!(rt; odd.count(3), 1);
    assert_eq!(rt; odd.count(32), 2);
    assert_eq!(rt; ALL.count(255), 32);
}
