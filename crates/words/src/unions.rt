// Several sets as one.
ghost use Rattle.std.specs.Prelude.{Any};
ghost use Rattle.words.specs.Sets.{In, Holds};

use crate::WordSet;

// What is in any of the sets.
pub fn union_of<W: WordSet>(sets: &[W]) -> W
    ensures { Holds (W.word result) (λ k. Any (λ set. In k (W.word set)) sets.now) }
{
    let mut all = W::empty();
    for set in sets {
        all = all.union(*set);
    }
    all
}
