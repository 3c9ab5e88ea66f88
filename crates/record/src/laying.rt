// A blank record, and a row laid into it.
ghost use Rattle.std.specs.Prelude.{◌≡◌, ℕ, ◌≤◌, ◌↔◌, length, IsTrue, slice_index};
ghost use Rattle.words.specs.Sets.{In};
ghost use Rattle.record.specs.Calls.{Lays, NothingLaid};
ghost use Rattle.record.specs.Refusals.{any_too_high, lay_refusal, out_of_range, too_high};
ghost use Rattle.record.specs.Replies.{Replies};

use crate::moment::Moment;
use crate::record::Record;
use crate::refusal::Refusal;
use crate::stand::Stand;
use crate::undo::UndoTable;
use words::WordSet;

// The most parts that a row can have.
const MOST_PARTS: u32 = 60;

// The most hatchings that a row can have.
const MOST_HATCHINGS: u32 = 32;

// Whether a number is not from 1 to the most that there may be.
fn is_out_of_range(most: u32, k: u32) -> bool
    ensures { result ≡ out_of_range most k }
{
    !(1..=most).contains(&k)
}

// Whether a palette has a hatching at or above d.
fn is_too_high(d: u32, palette: u32) -> bool
    ensures test { result ≡ too_high d palette }
    ensures meaning { IsTrue result ↔ ((v : ℕ) × ((d ≤ v) × In v palette)) }
{
    palette.lowest_from(d).is_some()
}

// Whether one of the palettes has such a hatching.
fn any_too_high(d: u32, palettes: &[u32]) -> bool
    ensures { result ≡ any_too_high d palettes.now }
{
    palettes.iter().any(|palette| is_too_high(d, *palette))
}

// The palettes in the places of a record, with 0 behind the last.
fn placed(palettes: &[u32]) -> [u32; 60]
    requires { length palettes.now ≤ 60 }
    ensures { (i : ℕ) → slice_index result i ≡ slice_index palettes.now i }
{
    let mut places = [0; 60];
    places[..palettes.len()].copy_from_slice(palettes);
    places
}

impl Record {
    // A record with no row.
    pub fn blank() -> Record
        ensures { NothingLaid result }
    {
        let current = Moment {
            palettes: [0; 60],
            results: 0,
            stand: Stand::Blank,
        };
        let undo = UndoTable {
            saved: [current; 8],
        };
        Record {
            n: 0,
            d: 0,
            current,
            marks: 0,
            undo,
        }
    }

    // Lays a row of n parts and d hatchings, and answers how many parts it has.
    // n stands beside the palettes since a caller says both, and is refused where they differ.
    #[tactic(auto, using(crate::proofs::Heights::each_low))]
    pub fn lay(&mut self, n: u32, d: u32, results: u64, palettes: &[u32]) -> Result<u32, Refusal>
        ensures { let a = self.old in Replies (lay_refusal n d palettes.now) a result self.new (Lays a n d results palettes.now) }
    {
        if is_out_of_range(MOST_PARTS, n)
            || is_out_of_range(MOST_HATCHINGS, d)
            || palettes.len() != n as usize
        {
            return Err(Refusal::WrongSize);
        }
        if any_too_high(d, palettes) {
            return Err(Refusal::HighPalette);
        }
        let current = Moment {
            palettes: placed(palettes),
            results,
            stand: Stand::Open,
        };
        self.n = n;
        self.d = d;
        self.current = current;
        self.marks = 0;
        Ok(n)
    }
}
