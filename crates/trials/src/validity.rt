// Valid values.
use quorum::validity::{Allowed, Framed, ValidityRule};

// Frame, limit and value, and whether it is valid.
struct Case(u32, u32, u64, bool);

const CASES: [Case; 10] = [
    Case(7, 10, 30_064_771_072, false),
    Case(7, 10, 30_064_771_073, true),
    Case(7, 10, 30_064_771_082, true),
    Case(7, 10, 30_064_771_083, false),
    Case(7, 10, 1, false),
    Case(0, 0, 0, false),
    Case(0, 0, 1, false),
    Case(0, 1, 1, true),
    Case(
        4_294_967_295,
        4_294_967_295,
        18_446_744_073_709_551_615,
        true,
    ),
    Case(
        4_294_967_295,
        4_294_967_294,
        18_446_744_073_709_551_615,
        false,
    ),
];

#[test]
fn framed(rt: HostRuntime) {
    for case in &CASES {
        let rule = Framed {
            frame: case.0,
            limit: case.1,
        };
        assert_eq!(rt; rule.is_valid(case.2), case.3);
    }
}

#[test]
fn allowed(rt: HostRuntime) {
    assert_eq!(rt; Allowed { values: &[] }.is_valid(0), false);
    let rule = Allowed {
        values: &[3, 18_446_744_073_709_551_615, 3],
    };
    assert_eq!(rt; rule.is_valid(3), true);
    assert_eq!(rt; rule.is_valid(18_446_744_073_709_551_615), true);
    assert_eq!(rt; rule.is_valid(0), false);
    assert_eq!(rt; rule.is_valid(4), false);
}
