// The calls of a row. Each contract says what is replied and left, for every argument; that rule and tally stay; and
// that the row goes on agreeing with what the calls alone make of a bare record.
// That rule and tally stay is said at each call: an invariant of the type speaks of one value, not of before and after.
ghost use Rattle.std.specs.Prelude.{◌≡◌, ℕ, ◌*◌, length, Ok, Err, Option};
ghost use Rattle.layers.specs.Rows.{model};
ghost use Rattle.layers.specs.Scratch.{Lives, SameFrom};
ghost use Rattle.record.specs.Calls.{GoesBack, Lays, Limits, Looks, NothingLaid, Saves, Withdraws};
ghost use Rattle.record.specs.Refusals.{back_refusal, lay_refusal, limit_refusal, look_refusal, mark_refusal, settle_refusal, withdraw_refusal};
ghost use Rattle.record.specs.Replies.{By, Replies};
ghost use Rattle.bare.specs.Agreement.{Agrees};
ghost use Rattle.bare.specs.Bare.{Back, Lay, Limit, Mark, Settle, Withdraw, blank};
ghost use Rattle.bare.specs.Settling.{Settles, parts_of};
ghost use Rattle.row.specs.Kept.{Carries, Keeps};

use crate::settling::settle;
use record::{Record, Refusal, Stand};
use rules::NeighbourRule;
use tallies::Tally;

// A row: the record, and the rule and the tally that it is settled by.
#[derive(Drop)]
pub struct Row<R, T> {
    // which hatching may stand after which
    pub rule: R,
    // what is counted along the row
    pub tally: T,
    pub record: Record,
}

#[tactic(auto, using(bare::proofs::Carrying::carrying))]
impl<R: NeighbourRule, T: Tally> Row<R, T> {
    // A blank row under this rule and tally.
    pub fn new(rule: R, tally: T) -> Row<R, T>
        ensures rule { result.rule ≡ rule }
        ensures tally { result.tally ≡ tally }
        ensures blank { NothingLaid result.record }
        ensures agrees { Agrees (model (R.pairs rule) (T.machine tally)) blank result.record }
    {
        let record = Record::blank();
        Row {
            rule,
            tally,
            record,
        }
    }

    // Lays a row of n parts and d hatchings, and answers how many parts it has.
    pub fn lay(&mut self, n: u32, d: u32, results: u64, palettes: &[u32]) -> Result<u32, Refusal>
        ensures reply { let a = self.old.record in Replies (lay_refusal n d palettes.now) a result self.new.record (Lays a n d results palettes.now) }
        ensures stays { Keeps self.old self.new }
        ensures carries { Carries R.pairs T.machine (λ _. Lay n d results palettes.now) self.old self.new }
    {
        self.record.lay(n, d, results, palettes)
    }

    // Takes a hatching out of a part's palette, and answers how many are left there.
    pub fn withdraw(&mut self, part: u32, hatching: u32) -> Result<u32, Refusal>
        ensures reply { let a = self.old.record in Replies (withdraw_refusal a.current.stand a.n a.d part hatching) a result self.new.record (Withdraws a part hatching) }
        ensures stays { Keeps self.old self.new }
        ensures carries { Carries R.pairs T.machine (λ m. Withdraw m part hatching) self.old self.new }
    {
        self.record.withdraw(part, hatching)
    }

    // Takes a result out of those that are allowed, and answers how many are left.
    pub fn limit(&mut self, outcome: u32) -> Result<u32, Refusal>
        ensures reply { let a = self.old.record in Replies (limit_refusal a.current.stand outcome) a result self.new.record (Limits a outcome) }
        ensures stays { Keeps self.old self.new }
        ensures carries { Carries R.pairs T.machine (λ m. Limit m outcome) self.old self.new }
    {
        self.record.limit(outcome)
    }

    // Saves the row as the youngest mark, and answers how many marks are held.
    pub fn mark(&mut self) -> Result<u32, Refusal>
        ensures reply { let a = self.old.record in Replies (mark_refusal a.current.stand a.marks) a result self.new.record (Saves a) }
        ensures stays { Keeps self.old self.new }
        ensures carries { Carries R.pairs T.machine (λ _. Mark) self.old self.new }
    {
        self.record.mark()
    }

    // Makes the row what the youngest mark saved, drops that mark, and answers how many marks are held.
    pub fn back(&mut self) -> Result<u32, Refusal>
        ensures reply { let a = self.old.record in Replies (back_refusal a.current.stand a.marks) a result self.new.record (GoesBack a) }
        ensures stays { Keeps self.old self.new }
        ensures carries { Carries R.pairs T.machine (λ _. Back) self.old self.new }
    {
        self.record.back()
    }

    // Strikes the hatchings and results that no complete row has, and answers how many of each fell.
    // The scratch gets the live states; its later words stay.
    pub fn settle(&mut self, scratch: &mut [u64]) -> Result<(u32, u32), Refusal>
        ensures reply { let a = self.old.record in let m = model (R.pairs self.old.rule) (T.machine self.old.tally) in
            Replies (settle_refusal a.current.stand a.n (length scratch.old)) a result self.new.record (λ k. Settles m a k.0 k.1) }
        ensures live { let a = self.old.record in let m = model (R.pairs self.old.rule) (T.machine self.old.tally) in
            By (settle_refusal a.current.stand a.n (length scratch.old)) (λ _. scratch.new ≡ scratch.old)
            (Lives m (parts_of a) a.current.results scratch.new × SameFrom (32 * a.n) scratch.new scratch.old) }
        ensures stays { Keeps self.old self.new }
        ensures carries { Carries R.pairs T.machine (λ m. Settle m (length scratch.old)) self.old self.new }
    {
        settle(&self.rule, &self.tally, &mut self.record, scratch)
    }

    // The lowest hatching that stands at a part, at or above a number.
    pub fn look(&self, part: u32, number: u32) -> Result<Option<u32>, Refusal>
        ensures { let a = self.now.record in By (look_refusal a.current.stand a.n part) (λ e. result ≡ Err e) ((found : Option ℕ) × ((result ≡ Ok found) × Looks a part number found)) }
    {
        self.record.look(part, number)
    }

    // How the row stands.
    pub fn stand(&self) -> Stand
        ensures { result ≡ self.now.record.current.stand }
    {
        self.record.stand()
    }
}
