// How many lines were rolls that were accepted, rolls that were refused, and no rolls.
ghost use Rattle.std.specs.Prelude.{◌≡◌, Some};
ghost use Rattle.roll.specs.Summaries.{none_yet, accepted_more, refused_more, others_more, rolls_in, lines_in};
ghost use Rattle.roll.specs.Texts.{summary_text};

use std::fmt;

#[derive(Clone, Copy, Default, PartialEq, Eq, Debug)]
pub struct Summary {
    accepted: u64,
    refused: u64,
    others: u64,
}

impl Summary {
    pub(crate) fn new() -> Self
        ensures { result ≡ none_yet }
    {
        Summary::default()
    }

    // One more line; each kind of line has a number and a method.
    pub(crate) fn accept(&mut self)
        ensures { self.new ≡ accepted_more self.old }
    {
        self.accepted = self.accepted.saturating_add(1);
    }

    pub(crate) fn refuse(&mut self)
        ensures { self.new ≡ refused_more self.old }
    {
        self.refused = self.refused.saturating_add(1);
    }

    // How many lines were rolls.
    pub(crate) fn rolls(&self) -> u64
        ensures { result ≡ rolls_in self.now }
    {
        self.accepted.saturating_add(self.refused)
    }

    // How many lines there were.
    pub(crate) fn lines(&self) -> u64
        ensures { result ≡ lines_in self.now }
    {
        self.rolls().saturating_add(self.others)
    }

    // One more line that is no roll.
    pub(crate) fn pass(&mut self)
        ensures { self.new ≡ others_more self.old }
    {
        self.others = self.others.saturating_add(1);
    }
}

impl fmt::Display for Summary {
    ghost output = { λ s. Some (summary_text s) };

    fn fmt<W: fmt::Write>(&self, f: &mut fmt::Formatter<W>) -> fmt::Result {
        write!(
            f,
            "rolls read {}, accepted {}, refused {}; other lines {}",
            self.rolls(),
            self.accepted,
            self.refused,
            self.others
        )
    }
}
