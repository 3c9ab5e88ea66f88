// The conversions of a word of at most 64 bits: palettes are words of 32, states and results words of 64.
ghost use Rattle.std.specs.Prelude.{◌≡◌, ℕ, ◌<◌, ◌≤◌};
ghost use Rattle.words.specs.Sets.{In, Holds};
ghost use Rattle.std.proofs.Common.{rules};

// A word of at most 64 bits, turned into a word of 64 and back.
pub trait WordWithin64: Copy {
    // how many bits the word has
    ghost width: { ℕ };

    // the word as a number
    ghost word: { Self → ℕ };

    // The same set in a word of 64.
    fn wide(self) -> u64
        ensures same { result ≡ word self }
        ensures inside { (k : ℕ) → In k result → k < width };

    // Those numbers of a set that are below the width.
    fn narrow(set: u64) -> Self
        ensures { Holds (word result) (λ k. In k set × (k < width)) };

    // a word has at most 64 bits
    ghost few: { width ≤ 64 };
}

impl WordWithin64 for u32 {
    ghost width = { 32 };

    ghost word = { λ w. w };

    ghost few = { Prim.search rules };

    fn wide(self) -> u64 {
        u64::from(self)
    }

    fn narrow(set: u64) -> u32 {
        (set & u64::from(u32::MAX)) as u32
    }
}

impl WordWithin64 for u64 {
    ghost width = { 64 };

    ghost word = { λ w. w };

    ghost few = { Prim.search rules };

    fn wide(self) -> u64 {
        self
    }

    fn narrow(set: u64) -> u64 {
        set
    }
}
