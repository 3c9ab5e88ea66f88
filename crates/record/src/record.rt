// The record of a row. What its ghost fields say is true of every record, whatever calls are made on it.
ghost use Rattle.std.specs.Prelude.{◌≡◌, ℕ, ◌<◌, ◌≤◌, length, ◌≢◌, slice_index};
ghost use Rattle.words.specs.Sets.{In};
ghost use Rattle.record.specs.declared.stand.Stand.TheVariants.{Blank};
ghost use Rattle.record.specs.Copies.{copy_of};

use crate::moment::Moment;
use crate::undo::UndoTable;

#[derive(Drop)]
pub struct Record {
    // how many parts the row has, and how many hatchings
    pub n: u32,
    pub d: u32,
    // what it has now: places for 60 palettes, since the engine has no heap, of which the first n are the parts'
    pub current: Moment,
    // how many marks are held: the first so many copies of the table
    pub marks: u32,
    pub undo: UndoTable,
    // the arrays' lengths, for clauses
    ghost places: { length current.palettes ≡ 60 },
    ghost copies: { length undo.saved ≡ 8 },
    ghost parts: { n ≤ 60 },
    ghost hatchings: { d ≤ 32 },
    ghost held: { marks ≤ 8 },
    // no palette has a hatching at or above d, nor has one that a mark saved
    ghost drawn: { (i v : ℕ) → In v (slice_index current.palettes i) → v < d },
    ghost saved_drawn: { (k i v : ℕ) → (k < marks) × In v (slice_index (copy_of undo k).palettes i) → v < d },
    // a row that is not blank has a part, one that is has no mark, and no mark saved a blank one
    ghost laid: { (current.stand ≢ Blank) → 0 < n },
    ghost unmarked: { current.stand ≡ Blank → marks ≡ 0 },
    ghost saved_laid: { (k : ℕ) → k < marks → (copy_of undo k).stand ≢ Blank },
}
