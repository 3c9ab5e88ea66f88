// Sets in the bits of a word narrower than 64, by the operations of the word of 64.
use crate::WordSet;
use crate::widths::WordWithin64;

// A word whose sets are those of the word of 64 below its width.
pub trait NarrowWord: WordWithin64 {}

impl NarrowWord for u32 {}

impl<W: NarrowWord> WordSet for W {
    ghost width = { W.WordWithin64.width };

    ghost word = { W.WordWithin64.word };

    fn empty() -> W {
        W::narrow(u64::empty())
    }

    fn is_empty(self) -> bool {
        self.wide().is_empty()
    }

    fn contains(self, k: u32) -> bool {
        self.wide().contains(k)
    }

    fn with(self, k: u32) -> W {
        W::narrow(self.wide().with(k))
    }

    fn without(self, k: u32) -> W {
        W::narrow(self.wide().without(k))
    }

    fn union(self, other: W) -> W {
        W::narrow(self.wide().union(other.wide()))
    }

    fn intersection(self, other: W) -> W {
        W::narrow(self.wide().intersection(other.wide()))
    }

    fn count(self) -> u32 {
        self.wide().count()
    }

    fn lowest_from(self, from: u32) -> Option<u32> {
        self.wide().lowest_from(from)
    }
}
