// Hatchings and results taken away.
ghost use Rattle.record.specs.Calls.{Limits, Withdraws};
ghost use Rattle.record.specs.Refusals.{limit_refusal, withdraw_refusal};
ghost use Rattle.record.specs.Replies.{Replies};

use crate::record::Record;
use crate::refusal::Refusal;
use crate::stand::Stand;
use words::WordSet;

// The highest result that a row can have.
const LAST_RESULT: u32 = 63;

// The two end in the same steps: one function for these would take the stand and hand it back with the set, and be longer.
impl Record {
    // Takes a hatching out of a part's palette, and answers how many are left there.
    pub fn withdraw(&mut self, part: u32, hatching: u32) -> Result<u32, Refusal>
        ensures { let a = self.old in Replies (withdraw_refusal a.current.stand a.n a.d part hatching) a result self.new (Withdraws a part hatching) }
    {
        self.check_laid()?;
        if part >= self.n {
            return Err(Refusal::NoPart);
        }
        if hatching >= self.d {
            return Err(Refusal::NoHatching);
        }
        let palette = self.current.palettes[part as usize];
        if palette.contains(hatching) {
            self.current.stand = Stand::Open;
        }
        let rest = palette.without(hatching);
        self.current.palettes[part as usize] = rest;
        Ok(rest.count())
    }

    // Takes a result out of those that are allowed, and answers how many are left.
    pub fn limit(&mut self, outcome: u32) -> Result<u32, Refusal>
        ensures { let a = self.old in Replies (limit_refusal a.current.stand outcome) a result self.new (Limits a outcome) }
    {
        self.check_laid()?;
        if outcome > LAST_RESULT {
            return Err(Refusal::NoResult);
        }
        if self.current.results.contains(outcome) {
            self.current.stand = Stand::Open;
        }
        self.current.results = self.current.results.without(outcome);
        Ok(self.current.results.count())
    }
}
