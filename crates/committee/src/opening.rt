// Opening a committee.
ghost use Rattle.std.specs.Prelude.{◌≡◌, ◌≤◌, true, not, ◌&&◌, length, Ok};
ghost use Rattle.sets.specs.Sets.{has};
ghost use Rattle.quorum.specs.Firsts.{answered, fault_if, first_below};
ghost use Rattle.protocol.specs.declared.refusal.Refusal.TheVariants.{OwnNotValid};
ghost use Rattle.protocol.specs.Openings.{new_rows, open_fault, opening, own_fault};
ghost use Rattle.agreement.specs.Promise.{Promise};
ghost use Rattle.committee.specs.Committees.{counts, lent, setting, whole};

use crate::books::Books;
use crate::committee::Committee;
use mail::faults::check;
use mail::message::Message;
use protocol::refusal::Refusal;
use protocol::row::Row;
use quorum::rules::QuorumRule;
use quorum::validity::ValidityRule;
use sets::process_set::ProcessSet;
use steps::rows::new_row;

impl<Q: QuorumRule, V: ValidityRule> Committee<Q, V> {
    // Sets all new, in place, since a committee can be opened again. What is promised from there on stands in the last clause.
    #[tactic(auto, unfolding(protocol::specs::Openings::open_fault))]
    pub fn open(
        &mut self,
        table: &mut [Row],
        post: &[Message],
        foreign: ProcessSet,
        owns: &[u64],
    ) -> Result<(), Refusal>
        ensures answer { result ≡ (opening (Q.meaning self.old.rule) (V.valid self.old.validity) (whole self.old.books self.old.foreign.bits) table.old post.now foreign.bits owns.now).answer }
        ensures table { table.new ≡ (opening (Q.meaning self.old.rule) (V.valid self.old.validity) (whole self.old.books self.old.foreign.bits) table.old post.now foreign.bits owns.now).table }
        ensures books { self.new.books ≡ counts (opening (Q.meaning self.old.rule) (V.valid self.old.validity) (whole self.old.books self.old.foreign.bits) table.old post.now foreign.bits owns.now).books }
        ensures foreign { self.new.foreign.bits ≡ (opening (Q.meaning self.old.rule) (V.valid self.old.validity) (whole self.old.books self.old.foreign.bits) table.old post.now foreign.bits owns.now).books.foreign }
        ensures rules { (self.new.rule ≡ self.old.rule) × (self.new.validity ≡ self.old.validity) }
        ensures promise { result ≡ Ok tt → (Q.meaning self.new.rule).tolerated self.new.foreign.bits ≡ true → Promise (setting Q.meaning V.valid self.new) (lent self.new.books table.new post.now) }
    {
        check_opening(&self.rule, &self.validity, table, post, foreign, owns)?;
        let size = self.rule.size();
        set_new(table, owns, size);
        self.books = Books {
            count: 0,
            span: post.len() as u16,
        };
        self.foreign = foreign.below(size);
        Ok(())
    }
}

#[tactic(auto, unfolding(protocol::specs::Openings::open_fault))]
fn check_opening<Q: QuorumRule, V: ValidityRule>(
    rule: &Q,
    validity: &V,
    table: &[Row],
    post: &[Message],
    foreign: ProcessSet,
    owns: &[u64],
) -> Result<(), Refusal>
    ensures { result ≡ answered (open_fault (Q.meaning rule.now) (V.valid validity.now) table.now post.now foreign.bits owns.now) tt }
{
    let size = rule.size();
    check(owns.len() >= size as usize, Refusal::FewValues)?;
    check(table.len() >= size as usize, Refusal::ShortTable)?;
    check(
        (1..=usize::from(u16::MAX)).contains(&post.len()),
        Refusal::PostLength,
    )?;
    check_owns(validity, size, foreign, owns)
}

// The own values of run processes are valid.
fn check_owns<V: ValidityRule>(
    validity: &V,
    size: u8,
    foreign: ProcessSet,
    owns: &[u64],
) -> Result<(), Refusal>
    requires { size ≤ length owns.now }
    ensures { result ≡ answered (first_below (own_fault (V.valid validity.now) foreign.bits owns.now) size) tt }
{
    for (slot, own) in (0..size).zip(owns) {
        check_own(validity, foreign, slot, *own)?;
    }
    Ok(())
}

fn check_own<V: ValidityRule>(
    validity: &V,
    foreign: ProcessSet,
    slot: u8,
    own: u64,
) -> Result<(), Refusal>
    ensures { result ≡ answered (fault_if (not (has foreign.bits slot) && not (V.valid validity.now own)) (OwnNotValid slot)) tt }
{
    check(
        foreign.contains(slot) || validity.is_valid(own),
        Refusal::OwnNotValid { slot },
    )
}

#[tactic(auto, using(crate::proofs::Opened::rows_more), unfolding(protocol::specs::Openings::new_rows))]
fn set_new(table: &mut [Row], owns: &[u64], size: u8)
    requires { (size ≤ length table.old) × (size ≤ length owns.now) }
    ensures { table.new ≡ new_rows owns.now table.old size }
{
    // By slot: what a walk by `iter_mut().zip(..)` writes is not known after it.
    for (slot, own) in owns[..size as usize].iter().enumerate() {
        table[slot] = new_row(*own);
    }
}
