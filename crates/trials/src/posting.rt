// Well-formed messages.
use mail::message::Message;

// Kind, view, value, locked view, a slot and a place to cite there, and whether the message may be posted
// among 4 processes after 9 messages.
struct Case(u8, u32, u64, u32, usize, u16, bool);

const CASES: [Case; 32] = [
    Case(0, 1, 0, 0, 0, 0, false),
    Case(6, 1, 0, 0, 0, 0, false),
    Case(255, 1, 0, 0, 0, 0, false),
    Case(1, 1, 0, 0, 0, 0, true),
    Case(1, 0, 0, 0, 0, 0, false),
    Case(1, 1, 1, 0, 0, 0, false),
    Case(1, 1, 0, 1, 0, 0, false),
    Case(1, 1, 0, 0, 0, 1, false),
    Case(1, 1, 0, 0, 31, 1, false),
    Case(2, 1, 0, 0, 0, 0, true),
    Case(2, 0, 0, 0, 0, 0, false),
    Case(2, 1, 1, 0, 0, 0, false),
    Case(2, 1, 0, 0, 0, 1, false),
    Case(2, 1, 1, 1, 0, 0, true),
    Case(2, 1, 0, 4_294_967_295, 3, 9, true),
    Case(2, 1, 0, 1, 3, 10, false),
    Case(2, 1, 0, 1, 4, 1, false),
    Case(2, 1, 0, 1, 31, 9, false),
    Case(3, 1, 0, 0, 0, 0, true),
    Case(3, 1, 7, 0, 3, 9, true),
    Case(3, 0, 7, 0, 3, 9, false),
    Case(3, 1, 7, 1, 3, 9, false),
    Case(3, 1, 7, 0, 3, 10, false),
    Case(3, 1, 7, 0, 4, 9, false),
    Case(4, 1, 0, 0, 0, 0, true),
    Case(4, 4_294_967_295, 7, 0, 0, 0, true),
    Case(4, 1, 7, 1, 0, 0, false),
    Case(4, 1, 7, 0, 0, 1, false),
    Case(5, 1, 7, 0, 0, 0, true),
    Case(5, 0, 7, 0, 0, 0, false),
    Case(5, 1, 7, 1, 0, 0, false),
    Case(5, 1, 7, 0, 31, 1, false),
];

fn citing(case: &Case) -> Message {
    let mut citations = [0; 32];
    if case.4 < 32 {
        citations[case.4] = case.5;
    }
    Message {
        sender: 3,
        kind: case.0,
        view: case.1,
        value: case.2,
        locked: case.3,
        citations,
    }
}

#[test]
fn well_formed(rt: HostRuntime) {
    for case in &CASES {
        assert_eq!(rt; citing(case).is_well_formed(4, 9), case.6);
    }
}
