// The judging of mail, in posts of any content. There are four processes, by counting.
use mail::certificate::judge_certificate;
use mail::message::Message;
use mail::place::Reading;
use mail::proposal::judge_proposal;
use mail::report::judge_report;
use quorum::counting::Counting;
use quorum::faults::FaultNumbers;
use quorum::validity::Framed;
use std::test::Fail;

fn message(sender: u8, kind: u8, view: u32, value: u64, locked: u32, cited: [u16; 5]) -> Message {
    let mut citations = [0; 32];
    citations[..5].copy_from_slice(&cited);
    Message {
        sender,
        kind,
        view,
        value,
        locked,
        citations,
    }
}

const NONE: [u16; 5] = [0; 5];

// Places 1 to 3: PREPARED of view 2 and value 8. 4 to 6: of view 1 and value 9. 7 to 9: reports of view 3, locked in 0, 2 and 1.
// 10: the same report as at 8, from a process that is not there. 11: a report that cites itself.
fn hostile() -> [Message; 11] {
    [
        message(0, 4, 2, 8, 0, NONE),
        message(1, 4, 2, 8, 0, NONE),
        message(2, 4, 2, 8, 0, NONE),
        message(0, 4, 1, 9, 0, NONE),
        message(1, 4, 1, 9, 0, NONE),
        message(2, 4, 1, 9, 0, NONE),
        message(0, 2, 3, 0, 0, NONE),
        message(1, 2, 3, 8, 2, [1, 2, 3, 0, 0]),
        message(2, 2, 3, 9, 1, [4, 5, 6, 0, 0]),
        message(4, 2, 3, 8, 2, [1, 2, 3, 0, 0]),
        message(3, 2, 3, 8, 2, [1, 2, 11, 0, 0]),
    ]
}

// Number, place and slot of a refusal.
fn short(numbers: FaultNumbers) -> (u8, u16, u8) {
    (numbers.number, numbers.place, numbers.slot)
}

// What a report is refused with, judged at place 12 of the post with this count; 0 where it is valid.
fn report(
    rule: &Counting,
    count: u16,
    view: u32,
    value: u64,
    locked: u32,
    cited: [u16; 5],
) -> (u8, u16, u8) {
    let post = hostile();
    let reading = Reading {
        post: &post,
        count,
        size: 4,
    };
    let judged = message(1, 2, view, value, locked, cited);
    match judge_report(rule, &reading, &judged, 12) {
        Ok(()) => (0, 0, 0),
        Err(fault) => short(fault.numbers()),
    }
}

// Count, view, value, locked view and citations of a report, and what it is refused with.
struct ReportCase(u16, u32, u64, u32, [u16; 5], (u8, u16, u8));

const REPORTS: [ReportCase; 18] = [
    ReportCase(11, 3, 8, 3, [1, 2, 3, 0, 0], (22, 12, 32)),
    ReportCase(11, 3, 8, 4, [1, 2, 3, 0, 0], (22, 12, 32)),
    ReportCase(11, 0, 0, 0, NONE, (22, 12, 32)),
    ReportCase(11, 3, 8, 2, [1, 2, 3, 0, 0], (0, 0, 0)),
    // without a lock nothing else is looked at
    ReportCase(11, 3, 8, 0, [1, 7, 99, 0, 0], (0, 0, 0)),
    // no quorum comes before a wrong message; slots from n up are disregarded
    ReportCase(11, 3, 8, 2, [1, 2, 0, 0, 0], (20, 12, 32)),
    ReportCase(11, 3, 8, 2, [1, 2, 0, 0, 3], (20, 12, 32)),
    ReportCase(11, 3, 8, 2, [7, 7, 0, 0, 0], (20, 12, 32)),
    ReportCase(11, 3, 8, 2, [1, 2, 3, 0, 7], (0, 0, 0)),
    // wrong sender, kind, view, value; the lowest slot is named
    ReportCase(11, 3, 8, 2, [2, 1, 3, 0, 0], (21, 12, 0)),
    ReportCase(11, 3, 8, 2, [1, 2, 7, 0, 0], (21, 12, 2)),
    ReportCase(11, 3, 8, 2, [1, 5, 6, 0, 0], (21, 12, 1)),
    ReportCase(11, 3, 9, 2, [1, 2, 3, 0, 0], (21, 12, 0)),
    ReportCase(11, 3, 8, 1, [1, 2, 3, 0, 0], (21, 12, 0)),
    // later places, the report's own, and places above the count
    ReportCase(11, 3, 8, 2, [1, 2, 12, 0, 0], (21, 12, 2)),
    ReportCase(11, 3, 8, 2, [1, 2, 65_535, 0, 0], (21, 12, 2)),
    ReportCase(2, 3, 8, 2, [1, 2, 3, 0, 0], (21, 12, 2)),
    ReportCase(65_535, 3, 8, 2, [1, 2, 3, 0, 0], (0, 0, 0)),
];

#[test]
fn reports(rt: HostRuntime) -> Result<(), Fail> {
    let rule = Counting::new(1)?;
    for case in &REPORTS {
        assert_eq!(rt;
            report(&rule, case.0, case.1, case.2, case.3, case.4),
            case.5
        );
    }
    Ok(())
}

#[test]
fn certificates(rt: HostRuntime) -> Result<(), Fail> {
    let rule = Counting::new(1)?;
    let post = hostile();
    let reading = Reading {
        post: &post,
        count: 11,
        size: 4,
    };
    assert!(rt; judge_certificate(&rule, &reading, &post[7], 8).is_ok());
    let empty = Reading {
        post: &[],
        count: 65_535,
        size: 4,
    };
    match judge_certificate(&rule, &empty, &post[7], 8) {
        Ok(()) => Err(Fail::new("a certificate from an empty post")),
        Err(fault) => {
            assert_eq!(rt; short(fault.numbers()), (21, 8, 0));
            Ok(())
        },
    }
}

// What a proposal is refused with, judged at place 12; 0 where it is safe. The values from 1 to 9 are valid.
fn proposal(rule: &Counting, sender: u8, view: u32, value: u64, cited: [u16; 5]) -> (u8, u16, u8) {
    let validity = Framed { frame: 0, limit: 9 };
    let post = hostile();
    let reading = Reading {
        post: &post,
        count: 11,
        size: 4,
    };
    let judged = message(sender, 3, view, value, 0, cited);
    match judge_proposal(rule, &validity, &reading, &judged, 12) {
        Ok(()) => (0, 0, 0),
        Err(fault) => short(fault.numbers()),
    }
}

// Sender, view, value and citations of a proposal, and what it is refused with.
struct ProposalCase(u8, u32, u64, [u16; 5], (u8, u16, u8));

const PROPOSALS: [ProposalCase; 17] = [
    ProposalCase(2, 3, 8, [7, 8, 9, 0, 0], (0, 0, 0)),
    ProposalCase(2, 3, 9, [7, 8, 9, 0, 0], (27, 12, 32)),
    ProposalCase(2, 3, 7, [7, 8, 9, 0, 0], (27, 12, 32)),
    ProposalCase(1, 3, 8, [7, 8, 9, 0, 0], (23, 12, 32)),
    ProposalCase(0, 0, 8, [7, 8, 9, 0, 0], (23, 12, 32)),
    ProposalCase(2, 3, 10, [7, 8, 9, 0, 0], (24, 12, 32)),
    ProposalCase(2, 3, 8, [7, 8, 0, 0, 0], (25, 12, 32)),
    ProposalCase(2, 3, 8, [7, 8, 0, 0, 10], (25, 12, 32)),
    ProposalCase(2, 3, 8, [7, 8, 9, 0, 10], (0, 0, 0)),
    // not a report, of another sender, of another view; the lowest slot is named
    ProposalCase(2, 3, 8, [1, 8, 9, 0, 0], (26, 12, 0)),
    ProposalCase(2, 3, 8, [7, 9, 8, 0, 0], (26, 12, 1)),
    ProposalCase(2, 7, 8, [7, 8, 9, 0, 0], (26, 12, 0)),
    ProposalCase(2, 3, 8, [7, 8, 10, 0, 0], (26, 12, 2)),
    ProposalCase(2, 3, 8, [7, 8, 12, 0, 0], (26, 12, 2)),
    ProposalCase(2, 3, 8, [7, 8, 65_535, 0, 0], (26, 12, 2)),
    // a fault of a cited report, at its own place, and after the lower slots'
    ProposalCase(2, 3, 8, [7, 8, 0, 11, 0], (21, 11, 2)),
    ProposalCase(2, 3, 8, [7, 0, 8, 11, 0], (26, 12, 2)),
];

#[test]
fn proposals(rt: HostRuntime) -> Result<(), Fail> {
    let rule = Counting::new(1)?;
    for case in &PROPOSALS {
        assert_eq!(rt; proposal(&rule, case.0, case.1, case.2, case.3), case.4);
    }
    Ok(())
}
