// What the program tells of a row.
ghost use Rattle.std.specs.Prelude.{ℕ, List, MatchResult};
ghost use Rattle.counting.specs.Counts.{Counted};
ghost use Rattle.counting.specs.Faults.{Told, Uncounted};
ghost use Rattle.counting.specs.Lines.{Reads};

use crate::fault::LineFault;
use crate::line::numbers;
use rules::FormulaRule;
use std::alloc::Global;
use tallies::{FinishedRow, PlateauCounter, StretchCounter};

// The stretches of a row over each formula, and its longest run.
#[derive(Clone, Copy, PartialEq, Eq, Debug)]
pub struct Counts {
    pub always: u32,
    pub equal: u32,
    pub different: u32,
    pub less: u32,
    pub at_most: u32,
    pub within: u32,
    pub both_at_least: u32,
    pub longest_run: u32,
}

// Counts a finished row of at most 60 parts; r is the number of the last two formulas.
pub fn counts_of(row: &[u32], r: u32) -> Result<Counts, LineFault>
    ensures { MatchResult result (Counted r row.now) (Uncounted row.now) }
{
    if row.len() > 60 {
        return Err(LineFault::TooMany(row.len()));
    }
    let row = FinishedRow::try_from(row)?;
    let stretches = |rule| StretchCounter { rule }.stretches_in(row);
    Ok(Counts {
        always: stretches(FormulaRule::Always),
        equal: stretches(FormulaRule::Equal),
        different: stretches(FormulaRule::Different),
        less: stretches(FormulaRule::Less),
        at_most: stretches(FormulaRule::AtMost),
        within: stretches(FormulaRule::Within(r)),
        both_at_least: stretches(FormulaRule::BothAtLeast(r)),
        longest_run: PlateauCounter.longest_run_in(row),
    })
}

// Reads a line and counts its row.
pub fn count_line(heap: Global, line: &[u8], r: u32) -> Result<Counts, LineFault>
    ensures { MatchResult result (λ k. (row : List ℕ) × (Reads line.now row × Counted r row k)) (Told line.now) }
{
    let row = numbers(heap, line)?;
    counts_of(&row, r)
}
