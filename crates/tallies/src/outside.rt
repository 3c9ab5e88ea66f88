// Steps to or from a hatching above 31, which give 0 from every state.
ghost use Rattle.moves.specs.Maps.{Image};
ghost use Rattle.words.specs.Sets.{Holds, In};

use words::WordSet;

// What such a step gives from the states of the set: 0, where there is a state.
pub(crate) fn image_outside(set: u64) -> u64
    ensures { Holds result (Image (λ _. 0) set) }
{
    if set.is_empty() {
        set
    } else {
        u64::empty().with(0)
    }
}

// The states of the set that such a step takes into the target: all where 0 is in it, and else none.
pub(crate) fn preimage_outside(set: u64, target: u64) -> u64
    ensures { Holds result (λ s. In s set × In 0 target) }
{
    if target.contains(0) {
        set
    } else {
        u64::empty()
    }
}
