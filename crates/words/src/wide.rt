// Sets in the bits of a word of 64. Each operation is written once, here: those of a narrower word go through this one.
use crate::WordSet;

impl WordSet for u64 {
    ghost width = { 64 };

    ghost word = { λ w. w };

    fn empty() -> u64 {
        0
    }

    fn is_empty(self) -> bool {
        self == 0
    }

    fn contains(self, k: u32) -> bool {
        k < 64 && self >> k & 1 == 1
    }

    fn with(self, k: u32) -> u64 {
        if k < 64 { self | 1 << k } else { self }
    }

    fn without(self, k: u32) -> u64 {
        if k < 64 { self & !(1 << k) } else { self }
    }

    fn union(self, other: u64) -> u64 {
        self | other
    }

    fn intersection(self, other: u64) -> u64 {
        self & other
    }

    fn count(self) -> u32 {
        self.count_ones()
    }

    fn lowest_from(self, from: u32) -> Option<u32> {
        let above = self.checked_shr(from)?;
        if above == 0 {
            return None;
        }
        Some(from + above.trailing_zeros())
    }
}
