// A committee by its calls: what no script reaches.
use committee::committee::Committee;
use mail::message::SILENCE;
use protocol::call::{Answer, Call, Posting};
use protocol::moves::Move;
use protocol::refusal::Refusal;
use protocol::row::{Phase, Row};
use quorum::counting::Counting;
use quorum::validity::{Allowed, Framed};
use quorum::weights::Weights;
use sets::process_set::ProcessSet;
use std::test::Fail;
use steps::rows::new_row;

const VALUES: Framed = Framed { frame: 0, limit: 9 };

const NOBODY: ProcessSet = ProcessSet { bits: 0 };

#[test]
fn openings_that_are_refused(rt: HostRuntime) -> Result<(), Fail> {
    let heap = rt.alloc();
    let mut committee = Committee::new(Counting::new(1)?, VALUES);
    let mut table = [new_row(0); 4];
    let post = [SILENCE; 8];
    assert_eq!(rt;
        committee.open(&mut table, &post, NOBODY, &[1, 2, 3]),
        Err(Refusal::FewValues)
    );
    assert_eq!(rt;
        committee.open(&mut table[..3], &post, NOBODY, &[1, 2, 3, 4]),
        Err(Refusal::ShortTable)
    );
    assert_eq!(rt;
        committee.open(&mut table[..3], &post, NOBODY, &[1, 2, 3]),
        Err(Refusal::FewValues)
    );
    assert_eq!(rt;
        committee.open(&mut table, &[], NOBODY, &[1, 2, 3, 4]),
        Err(Refusal::PostLength)
    );
    let long = vec![in heap; SILENCE; 65_536]?;
    assert_eq!(rt;
        committee.open(&mut table, &long, NOBODY, &[1, 2, 3, 4]),
        Err(Refusal::PostLength)
    );
    assert_eq!(rt;
        committee.open(&mut table, &post, NOBODY, &[1, 0, 10, 4]),
        Err(Refusal::OwnNotValid { slot: 1 })
    );
    let first_two = ProcessSet { bits: 0b11 };
    assert_eq!(rt;
        committee.open(&mut table, &post, first_two, &[1, 0, 10, 4]),
        Err(Refusal::OwnNotValid { slot: 2 })
    );
    assert_eq!(rt; committee.books().span, 0);
    assert_eq!(rt;
        committee.open(&mut table, &long[..65_535], NOBODY, &[1, 2, 3, 4]),
        Ok(())
    );
    assert_eq!(rt; committee.books().span, 65_535);
    Ok(())
}

#[test]
fn memory_of_another_length(rt: HostRuntime) -> Result<(), Fail> {
    let mut committee = Committee::new(Counting::new(1)?, VALUES);
    let mut table = [new_row(0); 5];
    let mut post = [SILENCE; 8];
    committee.open(
        &mut table,
        &post,
        ProcessSet { bits: 0b1000 },
        &[1, 2, 3, 4],
    )?;
    let mut few = [new_row(0); 3];
    let mut less = [SILENCE; 7];
    let wish = Posting {
        kind: 1,
        view: 1,
        value: 0,
        locked: 0,
        citations: [0; 32],
    };
    let short = Refusal::ShortTable;
    assert_eq!(rt; committee.expire(&few, &mut post, 0), Err(short));
    assert_eq!(rt; committee.post(&few, &mut post, 3, &wish), Err(short));
    assert_eq!(rt; committee.deliver(&mut few, &post, 0, 1), Err(short));
    assert_eq!(rt; committee.make_move(&mut few, &mut post, 0), Err(short));
    assert_eq!(rt; committee.decision(&few, &post, 0), Err(short));
    assert_eq!(rt; committee.sweep(&mut few, &mut post), Err(short));
    let other = Refusal::PostLength;
    assert_eq!(rt; committee.expire(&table, &mut less, 0), Err(other));
    assert_eq!(rt; committee.post(&table, &mut less, 3, &wish), Err(other));
    assert_eq!(rt; committee.deliver(&mut table, &less, 0, 1), Err(other));
    assert_eq!(rt; committee.make_move(&mut table, &mut less, 0), Err(other));
    assert_eq!(rt; committee.decision(&table, &less, 0), Err(other));
    assert_eq!(rt; committee.sweep(&mut table, &mut less), Err(other));
    assert_eq!(rt; committee.books().count, 0);
    // a longer table is as good, and its last row stays
    assert_eq!(rt; committee.expire(&table, &mut post, 0), Ok(1));
    assert_eq!(rt; committee.sweep(&mut table, &mut post).is_ok(), true);
    assert_eq!(rt; table[4], new_row(0));
    Ok(())
}

// A row that holds a place without a message, for the voted value 0.
fn holding(place: u16) -> Row {
    let mut row = new_row(1);
    row.ballot.view = 1;
    row.ballot.phase = Phase::Voted;
    row.ballot.prepared[0] = place;
    row
}

#[test]
fn rows_of_any_content(rt: HostRuntime) -> Result<(), Fail> {
    let mut committee = Committee::new(Counting::new(0)?, VALUES);
    let mut table = [new_row(0)];
    let mut post = [SILENCE; 2];
    committee.open(&mut table, &post, NOBODY, &[1])?;
    table[0] = holding(9);
    assert_eq!(rt;
        committee.make_move(&mut table, &mut post, 0),
        Ok((Move::Lock, 1))
    );
    assert_eq!(rt; table[0].lock.view, 1);
    assert_eq!(rt; table[0].lock.value, 0);
    assert_eq!(rt; table[0].lock.certificate[0], 9);
    // a slot from n up is nobody's
    table[0] = holding(0);
    table[0].ballot.prepared[1] = 9;
    assert_eq!(rt;
        committee.make_move(&mut table, &mut post, 0),
        Err(Refusal::NoMove)
    );
    Ok(())
}

#[test]
fn weights_and_allowed_values(rt: HostRuntime) -> Result<(), Fail> {
    let rule = Weights::new(&[5, 1, 1, 1])?;
    let mut committee = Committee::new(rule, Allowed { values: &[7, 8] });
    let mut table = [new_row(0); 4];
    let mut post = [SILENCE; 64];
    assert_eq!(rt;
        committee.open(&mut table, &post, NOBODY, &[7, 8, 9, 7]),
        Err(Refusal::OwnNotValid { slot: 2 })
    );
    // the heavy process and another are a quorum; the two others keep silent
    committee.open(
        &mut table,
        &post,
        ProcessSet { bits: 0b1100 },
        &[7, 8, 9, 7],
    )?;
    assert_eq!(rt; committee.expire(&table, &mut post, 0), Ok(1));
    assert_eq!(rt; committee.expire(&table, &mut post, 1), Ok(2));
    for _ in 0..6 {
        assert!(rt; committee.sweep(&mut table, &mut post).is_ok());
    }
    for process in 0..2 {
        let decision = committee.decision(&table, &post, process)?;
        assert_eq!(rt; decision.map(|decision| decision.value), Some(7));
    }
    assert_eq!(rt; committee.decision(&table, &post, 2), Err(Refusal::Foreign));
    assert_eq!(rt;
        committee.decision(&table, &post, 4),
        Err(Refusal::NoProcess)
    );
    Ok(())
}

#[test]
fn opening_again(rt: HostRuntime) -> Result<(), Fail> {
    let mut committee = Committee::new(Counting::new(0)?, VALUES);
    let mut table = [new_row(0)];
    let mut post = [SILENCE; 8];
    // never opened: no post is as long as it wants
    assert_eq!(rt;
        committee.expire(&table, &mut post, 0),
        Err(Refusal::PostLength)
    );
    assert_eq!(rt;
        committee.expire(&table, &mut [], 0),
        Err(Refusal::PostFull)
    );
    committee.open(&mut table, &post, NOBODY, &[5])?;
    let expiry = Call::Expire { process: 0 };
    assert_eq!(rt;
        committee.carry_out(&mut table, &mut post, expiry),
        Ok(Answer::Sent { place: 1 })
    );
    for _ in 0..5 {
        assert!(rt;
            committee
                .carry_out(&mut table, &mut post, Call::Sweep)
                .is_ok()
        );
    }
    assert_eq!(rt;
        committee
            .decision(&table, &post, 0)?
            .map(|decision| decision.value),
        Some(5)
    );
    let books = committee.books();
    let row = table[0];
    // a refused opening leaves all
    assert_eq!(rt;
        committee.open(&mut table, &post, NOBODY, &[]),
        Err(Refusal::FewValues)
    );
    assert_eq!(rt; committee.books(), books);
    assert_eq!(rt; table[0], row);
    // another sets all new
    committee.open(&mut table, &post, NOBODY, &[6])?;
    assert_eq!(rt; committee.books().count, 0);
    assert_eq!(rt; table[0], new_row(6));
    assert_eq!(rt; committee.decision(&table, &post, 0), Ok(None));
    Ok(())
}

#[test]
fn all_foreign(rt: HostRuntime) -> Result<(), Fail> {
    let mut committee = Committee::new(Counting::new(1)?, VALUES);
    let mut table = [new_row(0); 4];
    let mut post = [SILENCE; 8];
    committee.open(&mut table, &post, ProcessSet { bits: 0xffff_ffff }, &[0; 4])?;
    assert_eq!(rt;
        committee.expire(&table, &mut post, 0),
        Err(Refusal::Foreign)
    );
    assert!(rt; committee.sweep(&mut table, &mut post).is_ok());
    assert_eq!(rt; committee.books().count, 0);
    Ok(())
}
