// A committee, by the two rules that it is given.
ghost use Rattle.std.specs.Prelude.{◌≡◌};
ghost use Rattle.committee.specs.Committees.{no_books};

use crate::books::Books;
use quorum::rules::QuorumRule;
use quorum::validity::ValidityRule;
use sets::process_set::ProcessSet;

#[derive(Drop)]
pub struct Committee<Q: QuorumRule, V: ValidityRule> {
    pub(crate) rule: Q,
    pub(crate) validity: V,
    pub(crate) books: Books,
    pub(crate) foreign: ProcessSet,
}

impl<Q: QuorumRule, V: ValidityRule> Committee<Q, V> {
    // A committee that is not opened: it takes no post.
    pub fn new(rule: Q, validity: V) -> Self
        ensures rules { (result.rule ≡ rule) × (result.validity ≡ validity) }
        ensures books { result.books ≡ no_books }
        ensures foreign { result.foreign.bits ≡ 0 }
    {
        Committee {
            rule,
            validity,
            books: Books::default(),
            foreign: ProcessSet::empty(),
        }
    }

    // How many messages are posted, and how long the post was at the opening.
    pub fn books(&self) -> Books
        ensures { result ≡ self.now.books }
    {
        self.books
    }
}
