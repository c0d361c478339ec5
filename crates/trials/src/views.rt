// The tally of wishes, and the pair of hopeful and settled view.
use quorum::counting::Counting;
use quorum::tally::{AtLeast, tally};
use quorum::views::views;
use quorum::weights::Weights;
use std::test::Fail;

const LAST: u32 = 4_294_967_295;

// Wishes under counting with f = 1, and under the weights 5, 1, 1, 1, and the pair.
struct Case(&'static [u32], (u32, u32));

const COUNTED: [Case; 13] = [
    Case(&[3, 3, 5, 0], (3, 3)),
    Case(&[1, 3, 5, 0], (3, 1)),
    Case(&[0, 0, 0, 0], (0, 0)),
    // ties
    Case(&[2, 2, 2, 2], (2, 2)),
    Case(&[2, 2, 1, 1], (2, 1)),
    // the last view
    Case(&[LAST, LAST, LAST, LAST], (LAST, LAST)),
    Case(&[0, LAST, 0, LAST], (LAST, 0)),
    Case(&[LAST, 0, 0, 0], (0, 0)),
    // lists of another length
    Case(&[], (0, 0)),
    Case(&[7], (0, 0)),
    Case(&[7, 7], (7, 0)),
    Case(&[7, 7, 7], (7, 7)),
    Case(&[5, 5, 5, 5, 9, 9, 9, 9], (5, 5)),
];

const WEIGHED: [Case; 4] = [
    Case(&[2, 2, 1, 0], (2, 2)),
    Case(&[2, 0, 1, 0], (2, 1)),
    Case(&[0, 3, 3, 3], (3, 0)),
    Case(&[0, 3, 3, 0], (0, 0)),
];

#[test]
fn by_counting(rt: HostRuntime) -> Result<(), Fail> {
    let rule = Counting::new(1)?;
    for case in &COUNTED {
        assert_eq!(rt; views(&rule, case.0), case.1);
    }
    Ok(())
}

#[test]
fn by_weights(rt: HostRuntime) {
    let mut rule = Weights::four_equal();
    assert!(rt; rule.replace(&[5, 1, 1, 1]).is_ok());
    for case in &WEIGHED {
        assert_eq!(rt; views(&rule, case.0), case.1);
    }
}

#[test]
fn of_lists_past_the_processes(rt: HostRuntime) -> Result<(), Fail> {
    let wide = Counting::new(10)?;
    // the slots from 31 up are no process's
    let past = wished([0; 40], 31, 40);
    assert_eq!(rt; views(&wide, &past), (0, 0));
    let mut twenty = wished(past, 0, 20);
    assert_eq!(rt; views(&wide, &twenty), (9, 0));
    twenty[20] = 8;
    assert_eq!(rt; views(&wide, &twenty), (9, 8));
    Ok(())
}

// The wishes with view 9 in the slots of a range.
fn wished(mut wishes: [u32; 40], from: usize, to: usize) -> [u32; 40] {
    for wish in wishes.iter_mut().take(to).skip(from) {
        *wish = 9;
    }
    wishes
}

#[test]
fn tallies(rt: HostRuntime) {
    assert_eq!(rt; tally(&[], &AtLeast { view: 0 }).bits, 0);
    assert_eq!(rt; tally(&[0, 0], &AtLeast { view: 0 }).bits, 0b11);
    assert_eq!(rt; tally(&[4, 5, 6], &AtLeast { view: 5 }).bits, 0b110);
    assert_eq!(rt; tally(&[9; 32], &AtLeast { view: 9 }).bits, 0xffff_ffff);
    assert_eq!(rt; tally(&[9; 40], &AtLeast { view: 9 }).bits, 0xffff_ffff);
    let mut last = [0; 40];
    last[31] = LAST;
    last[32] = LAST;
    assert_eq!(rt; tally(&last, &AtLeast { view: LAST }).bits, 0x8000_0000);
}
