// The stretch counter.
ghost use Rattle.std.specs.Result.{MatchResult};
ghost use Rattle.tallies.specs.Rows.{Faulty};
ghost use Rattle.tallies.specs.Stretches.{Stretches, stretch_machine};
ghost use Rattle.std.proofs.Common.{rules};

use crate::finished::{FinishedRow, RowFault};
use crate::outcome::outcome_of;
use crate::outside::{image_outside, preimage_outside};
use crate::tally::Tally;
use moves::{one_up, one_up_into};
use rules::NeighbourRule;
use words::WordSet;

// Counts the stretches of a row: a new one begins where two neighbours are not a pair of the rule.
#[derive(Clone, Copy)]
pub struct StretchCounter<C> {
    pub rule: C,
}

impl<C: NeighbourRule> Tally for StretchCounter<C> {
    const STATES: u32 = 64;

    ghost STATES = { 64 };

    ghost machine = { λ t. stretch_machine (C.pairs t.rule) };

    ghost laws = { Prim.search rules };

    fn start(&self, v: u32) -> u32 {
        if v < 32 { 1 } else { 0 }
    }

    fn step(&self, s: u32, v: u32, w: u32) -> u32 {
        if s >= 64 || v >= 32 || w >= 32 {
            return 0;
        }
        if self.rule.allows(v, w) {
            s
        } else {
            (s + 1).min(63)
        }
    }

    fn result(&self, s: u32) -> u32 {
        if s < 64 { s } else { 0 }
    }

    fn image(&self, set: u64, v: u32, w: u32) -> u64 {
        if v >= 32 || w >= 32 {
            image_outside(set)
        } else if self.rule.allows(v, w) {
            set
        } else {
            one_up(set)
        }
    }

    fn preimage(&self, set: u64, v: u32, w: u32, target: u64) -> u64 {
        if v >= 32 || w >= 32 {
            preimage_outside(set, target)
        } else if self.rule.allows(v, w) {
            set.intersection(target)
        } else {
            set.intersection(one_up_into(target))
        }
    }
}

impl<C: NeighbourRule> StretchCounter<C> {
    // How many stretches a finished row has.
    // The counter's result is the SEQBIN count up to 63, and for at most 60 parts that count itself.
    pub fn stretches_in(&self, row: FinishedRow<'_>) -> u32
        ensures { Stretches (C.pairs self.now.rule) row.entry.hatchings.now result }
    {
        outcome_of(self, row.hatchings)
    }

    // The same of numbers, where they are a finished row.
    pub fn stretches(&self, row: &[u32]) -> Result<u32, RowFault>
        ensures { MatchResult result (Stretches (C.pairs self.now.rule) row.now) (Faulty row.now) }
    {
        Ok(self.stretches_in(FinishedRow::try_from(row)?))
    }
}
