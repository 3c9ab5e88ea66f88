// The table of neighbours.
ghost use Rattle.std.specs.Prelude.{◌≡◌, true};
ghost use Rattle.words.specs.Sets.{In, Holds, HoldsEach};
ghost use Rattle.neighbours.specs.Pairs.{PairInUse};

use rules::{Mirror, NeighbourRule, TableRule};
use words::{WordSet, members, union_of};

// For each hatching, those that may stand right after it and right before it.
// Two arrays and not one of pairs: a pass reads one of them, the forward pass `before`, the backward pass `after`.
#[derive(Clone, Copy)]
pub struct Neighbours {
    pub after: [u32; 32],
    pub before: [u32; 32],
}

// The hatchings of the set that may stand right after v.
// Several crates have such a loop: one function for all would be public, and no public one here may require a closure to be callable.
fn row_of<R: NeighbourRule>(rule: &R, used: u32, v: u32) -> u32
    ensures { Holds result (λ w. In w used × (R.pairs rule.now v w ≡ true)) }
{
    let mut row = 0u32;
    for w in members(used) {
        if rule.allows(v, w) {
            row = row.with(w);
        }
    }
    row
}

// The same for each hatching of the set.
// Not one function with the layers' layer_of, of words of 64 bits: it would be public too.
fn table_of<R: NeighbourRule>(rule: &R, used: u32) -> [u32; 32]
    ensures { HoldsEach result (λ v w. In v used × (In w used × (R.pairs rule.now v w ≡ true))) }
{
    let mut table = [0; 32];
    for v in members(used) {
        table[v as usize] = row_of(rule, used, v);
    }
    table
}

// The neighbours of each hatching that some palette has. The rule is asked once for each pair: the left neighbours are read
// off the table of the right ones, which is itself a rule.
pub fn neighbours_of<R: NeighbourRule>(rule: &R, palettes: &[u32]) -> Neighbours
    ensures after { HoldsEach result.after (PairInUse (R.pairs rule.now) palettes.now) }
    ensures before { HoldsEach result.before (λ w v. PairInUse (R.pairs rule.now) palettes.now v w) }
{
    let used = union_of(palettes);
    let after = table_of(rule, used);
    let turned = Mirror {
        rule: TableRule { words: after },
    };
    let before = table_of(&turned, used);
    Neighbours { after, before }
}
