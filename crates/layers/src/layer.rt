// What is made of the members of a set: a layer, or one set of states.
// A layer is 32 words, one for each hatching: an array, passed by value, since the engine has no heap.
ghost use Rattle.layers.specs.Layers.{IsLaid, IsUnited, TakesHatchings};

use words::{WordSet, members};

// The layer that has at each hatching of the palette the states that are given for it, and none elsewhere.
// Not one function with neighbours' table_of, of words of 32 bits: it would be public, and require that its closure can be called.
pub(crate) fn layer_of<F: Fn(u32) -> u64>(palette: u32, states: F) -> [u64; 32]
    requires { TakesHatchings (F.pre states) }
    ensures { IsLaid (F.post states) palette result }
{
    let mut layer = [0; 32];
    // array::from_fn is no plainer: it asks at all 32 numbers, and its proof is an induction of its own over the calls.
    for v in members(palette) {
        layer[v as usize] = states(v);
    }
    layer
}

// The states that are given for some member of the set.
pub(crate) fn united<F: Fn(u32) -> u64>(set: u32, states: F) -> u64
    requires { TakesHatchings (F.pre states) }
    ensures { IsUnited (F.post states) set result }
{
    let mut all = 0u64;
    for v in members(set) {
        all = all.union(states(v));
    }
    all
}
