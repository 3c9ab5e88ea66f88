// The forward pass: the states in which each part can be reached.
// After part i, the words of the parts up to i hold their reachable states.
ghost use Rattle.std.specs.Prelude.{◌≡◌, ◌*◌, length, slice_index};
ghost use Rattle.words.specs.Sets.{In, Holds, HoldsEach};
ghost use Rattle.layers.specs.Layers.{Arrives};
ghost use Rattle.layers.specs.Passes.{Reaches};
ghost use Rattle.layers.specs.Scratch.{HasRoom, SameFrom};

use crate::layer::{layer_of, united};
use crate::store::store;
use neighbours::Neighbours;
use tallies::Tally;
use words::WordSet;

// The states in which a row can have w, right after a hatching of `from` in a state of the layer.
fn arrivals<T: Tally>(tally: &T, layer: &[u64; 32], from: u32, w: u32) -> u64
    ensures { Holds result (Arrives (T.machine tally.now) layer.now (λ v. In v from) w) }
{
    united(from, |v| tally.image(layer[v as usize], v, w))
}

// One layer forward: from the states of one part to those of the next.
// Tally and neighbours side by side: a struct of both would be made once and taken apart in each function, as the loops need one of them.
fn advance<T: Tally>(
    tally: &T,
    neighbours: &Neighbours,
    layer: [u64; 32],
    palette: u32,
    next: u32,
) -> [u64; 32]
    ensures { HoldsEach result (λ w s. In w next × Arrives (T.machine tally.now) layer (λ v. In v (slice_index neighbours.now.before w) × In v palette) w s) }
{
    layer_of(next, |w| {
        let from = neighbours.before[w as usize].intersection(palette);
        arrivals(tally, &layer, from, w)
    })
}

// The layer of the first part.
fn first_layer<T: Tally>(tally: &T, palette: u32) -> [u64; 32]
    ensures { HoldsEach result (λ v s. In v palette × ((T.machine tally.now).start v ≡ s)) }
{
    layer_of(palette, |v| 0u64.with(tally.start(v)))
}

// The reachable states of every part, in the words 32 × i + v.
pub(crate) fn forward<T: Tally>(
    tally: &T,
    neighbours: &Neighbours,
    palettes: &[u32],
    scratch: &mut [u64],
)
    requires room { HasRoom (length palettes.now) scratch.old }
    ensures reached { Reaches (T.machine tally.now) neighbours.now.before palettes.now scratch.new }
    ensures rest { SameFrom (32 * length palettes.now) scratch.new scratch.old }
{
    let [first, ..] = palettes else {
        return;
    };
    let mut layer = first_layer(tally, *first);
    store(scratch, 0, layer);
    // By index, since i also says where the words are; over windows the invariant would have to carry that iterator's state.
    for i in 1..palettes.len() {
        // A name of its own: the check does not cover a call's result that is laid straight in `layer`.
        let next = advance(tally, neighbours, layer, palettes[i - 1], palettes[i]);
        store(scratch, i, next);
        layer = next;
    }
}
