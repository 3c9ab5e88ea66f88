// The plateau counter.
ghost use Rattle.std.specs.Result.{MatchResult};
ghost use Rattle.tallies.specs.Plateaus.{Measures, plateau_machine};
ghost use Rattle.tallies.specs.Rows.{Faulty};
ghost use Rattle.std.proofs.Common.{rules};

use crate::finished::{FinishedRow, RowFault};
use crate::outcome::outcome_of;
use crate::outside::{image_outside, preimage_outside};
use crate::tally::Tally;
use moves::{first_row, first_row_into, row_down, row_down_into, to_diagonal, to_diagonal_into};
use words::WordSet;

// Measures the longest run of equal hatchings, up to 8, which is eight or more.
// A state is 8 × (K − 1) + (M − 1) for the current run K and the longest run M.
#[derive(Clone, Copy)]
pub struct PlateauCounter;

impl Tally for PlateauCounter {
    const STATES: u32 = 64;

    ghost STATES = { 64 };

    ghost machine = { λ _. plateau_machine };

    ghost laws = { Prim.search rules };

    fn start(&self, _v: u32) -> u32 {
        0
    }

    fn step(&self, s: u32, v: u32, w: u32) -> u32 {
        if s >= 64 || v >= 32 || w >= 32 {
            return 0;
        }
        let current = if v == w { (s / 8 + 2).min(8) } else { 1 };
        let longest = (s % 8 + 1).max(current);
        8 * (current - 1) + (longest - 1)
    }

    fn result(&self, s: u32) -> u32 {
        if s < 64 { s % 8 + 1 } else { 0 }
    }

    // A state is a cell of eight rows of eight, in row K − 1 and column M − 1. A run that goes on is a row down, and M is then at
    // least K: the cell is not left of the diagonal.
    fn image(&self, set: u64, v: u32, w: u32) -> u64 {
        if v >= 32 || w >= 32 {
            image_outside(set)
        } else if v == w {
            to_diagonal(row_down(set))
        } else {
            first_row(set)
        }
    }

    fn preimage(&self, set: u64, v: u32, w: u32, target: u64) -> u64 {
        if v >= 32 || w >= 32 {
            preimage_outside(set, target)
        } else if v == w {
            set.intersection(row_down_into(to_diagonal_into(target)))
        } else {
            set.intersection(first_row_into(target))
        }
    }
}

impl PlateauCounter {
    // How long the longest run of a finished row is.
    // The counter's result is the LONGESTPLATEAU up to 8; a run counts even where it is the last and no step ends it.
    pub fn longest_run_in(&self, row: FinishedRow<'_>) -> u32
        ensures { Measures row.entry.hatchings.now result }
    {
        outcome_of(self, row.hatchings)
    }

    // The same of numbers, where they are a finished row.
    pub fn longest_run(&self, row: &[u32]) -> Result<u32, RowFault>
        ensures { MatchResult result (Measures row.now) (Faulty row.now) }
    {
        Ok(self.longest_run_in(FinishedRow::try_from(row)?))
    }
}
