// The backward pass: of the reachable states of each part, those from which the row can be completed.
// Before part i, the words of the parts from i + 1 on hold their live states.
ghost use Rattle.std.specs.Prelude.{◌*◌, ◌<◌, length, slice_index};
ghost use Rattle.words.specs.Sets.{In, Holds, HoldsEach};
ghost use Rattle.layers.specs.Layers.{Departs};
ghost use Rattle.layers.specs.Passes.{Retains};
ghost use Rattle.layers.specs.Scratch.{HasRoom, SameFrom};

use crate::layer::{layer_of, united};
use crate::store::{load, store};
use neighbours::Neighbours;
use tallies::Tally;
use words::WordSet;

// Of the states at v, those that a step to a hatching of `to` takes into the layer.
fn departures<T: Tally>(tally: &T, states: u64, layer: &[u64; 32], to: u32, v: u32) -> u64
    ensures { Holds result (Departs (T.machine tally.now) states layer.now (λ w. In w to) v) }
{
    united(to, |w| tally.preimage(states, v, w, layer[w as usize]))
}

// One layer backward: of the states of one part, those that can go on into the next.
// Tally and neighbours side by side, as in `advance`.
fn retain<T: Tally>(
    tally: &T,
    neighbours: &Neighbours,
    layer: [u64; 32],
    palette: u32,
    live: [u64; 32],
    next: u32,
) -> [u64; 32]
    ensures { HoldsEach result (λ v s. In v palette × Departs (T.machine tally.now) (slice_index layer v) live (λ w. In w (slice_index neighbours.now.after v) × In w next) v s) }
{
    layer_of(palette, |v| {
        let to = neighbours.after[v as usize].intersection(next);
        departures(tally, layer[v as usize], &live, to, v)
    })
}

// The states of the tally whose result is allowed.
// A loop that keeps what passes: one function for this and `used_at` of verdicts would be public, and require that its closure can be called.
fn ending_states<T: Tally>(tally: &T, allowed: u64) -> u64
    ensures { Holds result (λ s. (s < T.STATES) × In ((T.machine tally.now).result s) allowed) }
{
    let mut ending = 0u64;
    for s in 0..T::STATES {
        if allowed.contains(tally.result(s)) {
            ending = ending.with(s);
        }
    }
    ending
}

// The layer of the last part: of its states, those that the row may end in.
fn last_layer(layer: [u64; 32], palette: u32, ending: u64) -> [u64; 32]
    ensures { HoldsEach result (λ v s. In v palette × (In s (slice_index layer v) × In s ending)) }
{
    layer_of(palette, |v| layer[v as usize].intersection(ending))
}

// The live states of every part, where the words hold the reachable ones.
pub(crate) fn backward<T: Tally>(
    tally: &T,
    neighbours: &Neighbours,
    palettes: &[u32],
    allowed: u64,
    scratch: &mut [u64],
)
    requires { HasRoom (length palettes.now) scratch.old }
    ensures through { Retains (T.machine tally.now) neighbours.now.after palettes.now allowed scratch.old scratch.new }
    ensures rest { SameFrom (32 * length palettes.now) scratch.new scratch.old }
{
    let [.., palette] = palettes else {
        return;
    };
    let last = palettes.len() - 1;
    let ending = ending_states(tally, allowed);
    let mut live = last_layer(load(scratch, last), *palette, ending);
    store(scratch, last, live);
    // By index and with a name for the result, as in the forward pass.
    for i in (0..last).rev() {
        let layer = load(scratch, i);
        let retained = retain(tally, neighbours, layer, palettes[i], live, palettes[i + 1]);
        store(scratch, i, retained);
        live = retained;
    }
}
