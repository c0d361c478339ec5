// Places of hostile posts, leaders, and the tests of places.
use mail::held::{Held, HeldValue};
use mail::kind::{Kind, UnknownKind};
use mail::leader::{is_leader, leader};
use mail::message::Message;
use mail::place::Reading;
use quorum::tally::tally;

const fn wish(sender: u8, kind: u8, value: u64) -> Message {
    Message {
        sender,
        kind,
        view: 1,
        value,
        locked: 0,
        citations: [0; 32],
    }
}

// The value that place `place` reads as, of a post whose messages have values 1 to 6.
fn value_at(count: u16, size: u8, place: u16) -> u64 {
    let post = [
        wish(0, 1, 1),
        wish(3, 5, 2),
        wish(4, 1, 3),
        wish(0, 0, 4),
        wish(0, 6, 5),
        wish(255, 255, 6),
    ];
    let reading = Reading {
        post: &post,
        count,
        size,
    };
    reading.at(place).value
}

// Count, size and place, and the value that is read: 0 where there is no message.
struct Case(u16, u8, u16, u64);

const CASES: [Case; 14] = [
    Case(6, 4, 0, 0),
    Case(6, 4, 1, 1),
    Case(6, 4, 2, 2),
    // a sender from n up
    Case(6, 4, 3, 0),
    Case(6, 5, 3, 3),
    Case(6, 3, 2, 0),
    // kinds 0, 6 and 255
    Case(6, 4, 4, 0),
    Case(6, 4, 5, 0),
    Case(6, 255, 6, 0),
    // above the count, and above the post's length
    Case(1, 4, 2, 0),
    Case(2, 4, 2, 2),
    Case(65_535, 4, 7, 0),
    Case(65_535, 4, 65_535, 0),
    Case(0, 4, 1, 0),
];

#[test]
fn reads(rt: HostRuntime) {
    for case in &CASES {
        assert_eq!(rt; value_at(case.0, case.1, case.2), case.3);
    }
}

#[test]
fn kinds(rt: HostRuntime) {
    assert_eq!(rt; Kind::try_from(0), Err(UnknownKind(0)));
    assert_eq!(rt; Kind::try_from(1), Ok(Kind::Wish));
    assert_eq!(rt; Kind::try_from(5), Ok(Kind::Committed));
    assert_eq!(rt; Kind::try_from(6), Err(UnknownKind(6)));
    assert_eq!(rt; Kind::Committed.number(), 5);
}

#[test]
fn leaders(rt: HostRuntime) {
    assert_eq!(rt; leader(4, 0), None);
    assert_eq!(rt; leader(4, 1), Some(0));
    assert_eq!(rt; leader(4, 4), Some(3));
    assert_eq!(rt; leader(4, 5), Some(0));
    assert_eq!(rt; leader(4, 4_294_967_295), Some(2));
    assert_eq!(rt; leader(0, 1), None);
    assert_eq!(rt; leader(1, 4_294_967_295), Some(0));
    assert_eq!(rt; is_leader(4, 5, 0), true);
    assert_eq!(rt; is_leader(4, 5, 1), false);
    assert_eq!(rt; is_leader(4, 0, 0), false);
}

#[test]
fn tests_of_places(rt: HostRuntime) {
    let post = [wish(0, 1, 7), wish(1, 1, 8), wish(9, 1, 7)];
    let places = [1, 0, 2, 3, 9];
    assert_eq!(rt; tally(&places, &Held).bits, 0b11101);
    let reading = Reading {
        post: &post,
        count: 3,
        size: 4,
    };
    let seven = HeldValue { reading, value: 7 };
    assert_eq!(rt; tally(&places, &seven).bits, 0b00001);
    // a held place without a message has the value 0
    let zero = HeldValue { reading, value: 0 };
    assert_eq!(rt; tally(&places, &zero).bits, 0b11000);
}
