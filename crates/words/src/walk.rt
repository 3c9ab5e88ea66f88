// The numbers of a set, one after the other.
ghost use Rattle.std.specs.Prelude.{◌≡◌};
ghost use Rattle.words.specs.Sets.{Takes};
ghost use Rattle.std.specs.Iterator.{at_most};

use crate::WordSet;

// The numbers that are still to come, lowest first.
#[derive(Drop)]
pub struct Ascending<W> {
    pub rest: W,
}

impl<W: WordSet + Drop> Iterator for Ascending<W> {
    type Item = u32;

    ghost next_gives = { λ s r t. Takes W.width (W.word s.rest) r (W.word t.rest) };

    ghost remaining = { λ s. at_most (W.word s.rest) };

    fn next(&mut self) -> Option<u32> {
        let lowest = self.rest.lowest_from(0)?;
        self.rest = self.rest.without(lowest);
        Some(lowest)
    }
}

// The set's numbers, lowest first.
pub fn members<W: WordSet>(set: W) -> Ascending<W>
    ensures { result.rest ≡ set }
{
    Ascending { rest: set }
}
