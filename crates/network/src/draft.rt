// The draft, in which a network's figures are entered before a book is opened on them.
ghost use Rattle.std.specs.Prelude.{◌≡◌, ◌<◌};
ghost use Rattle.network.specs.Answers.{Gives};
ghost use Rattle.network.specs.Entries.{MemberSet, ClaimSet, Blank};
ghost use Rattle.network.specs.Refusals.{member_fault, claim_fault};

use crate::fault::{Cause, Fault, Layer};
use crate::figures::{Figures, Member};
use crate::member_count::MemberCount;

// A draft of a network. Opening a book uses it up.
#[derive(Drop)]
pub struct Draft {
    pub(crate) figures: Figures,
}

impl Draft {
    // A draft of that many members in which every entry is 0.
    pub fn new(count: MemberCount) -> Draft
        ensures { Blank count.n result.figures }
    {
        Draft {
            figures: Figures::blank(count),
        }
    }

    pub fn count(&self) -> MemberCount
        ensures { result.n ≡ self.now.figures.n }
    {
        MemberCount::of(&self.figures)
    }

    pub fn figures(&self) -> &Figures
        ensures { result.now ≡ self.now.figures }
    {
        &self.figures
    }

    // The figures of a draft that is used up.
    pub fn into_figures(self) -> Figures
        ensures { result ≡ self.figures }
    {
        self.figures
    }

    // Sets the house, the class and the endowment of one member.
    pub fn enter_member(&mut self, member: u8, entry: Member) -> Result<(), Fault>
        ensures { Gives (member_fault self.old.figures.n member entry.class entry.endowment)
            (λ _. MemberSet self.old.figures member entry.house entry.class entry.endowment self.new.figures)
            (self.new ≡ self.old) result }
    {
        if member >= self.figures.n {
            return Err(Fault::of_member(Layer::Draft, Cause::NoSuchMember, member));
        }
        if entry.class > 7 {
            return Err(Fault::of_member(Layer::Draft, Cause::ClassTooHigh, member));
        }
        if entry.endowment > 1_000_000 {
            return Err(Fault::of_member(Layer::Draft, Cause::EndowmentTooLarge, member));
        }
        self.figures.set_member(member, entry);
        Ok(())
    }

    // Sets the claim of one creditor on one debtor; 0 erases it. (Three numbers and no struct, here and wherever a claim is
    // named: a call would make one only to take it apart.)
    pub fn enter_claim(&mut self, debtor: u8, creditor: u8, units: u32) -> Result<(), Fault>
        ensures { Gives (claim_fault self.old.figures.n debtor creditor units)
            (λ _. ClaimSet self.old.figures debtor creditor units self.new.figures)
            (self.new ≡ self.old) result }
    {
        if debtor >= self.figures.n || creditor >= self.figures.n {
            return Err(Fault::of_pair(Layer::Draft, Cause::NoSuchMember, debtor, creditor));
        }
        if debtor == creditor {
            return Err(Fault::of_pair(Layer::Draft, Cause::ClaimOnItself, debtor, creditor));
        }
        if units > 10_000 {
            return Err(Fault::of_pair(Layer::Draft, Cause::ClaimTooLarge, debtor, creditor));
        }
        self.figures.set_claim(debtor, creditor, units);
        Ok(())
    }
}
