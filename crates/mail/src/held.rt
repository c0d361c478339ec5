// Tests of places, for the tally of a box or of citations.
ghost use Rattle.std.specs.Prelude.{◌≡◌, ◌&&◌};
ghost use Rattle.mail.specs.Messages.{held, has_value};
ghost use Rattle.mail.specs.Readings.{read};

use crate::place::Reading;
use quorum::tally::EntryTest;

// A place that is not 0: a held place of a box, a citation of a message.
#[derive(Clone, Copy, PartialEq, Eq, Debug)]
pub struct Held;

impl EntryTest<u16> for Held {
    ghost accepts = { λ _ place. held place };

    fn passes(&self, entry: u16) -> bool {
        entry > 0
    }
}

// A held place whose message has this value.
#[derive(Clone, Copy)]
pub struct HeldValue<'a> {
    pub reading: Reading<'a>,
    pub value: u64,
}

impl<'a> EntryTest<u16> for HeldValue<'a> {
    ghost accepts = { λ test place. held place && has_value test.value (read test.reading place) };

    fn passes(&self, entry: u16) -> bool {
        entry != 0 && self.reading.at(entry).value == self.value
    }
}
