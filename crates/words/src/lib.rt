// Sets of small numbers, kept in the bits of a word: bit k, lowest first, stands for the number k.
// A number at or above the word's width is in no set, whatever number it is.
#![tactic(auto)]

ghost use Rattle.std.specs.Prelude.{◌≡◌, ℕ, ◌<◌, ◌⊎◌, IfSome, IsTrue, ◌↔◌, ◌≢◌};
ghost use Rattle.words.specs.Sets.{In, Holds, Lowest, size};

pub mod narrow;
pub mod unions;
pub mod walk;
pub mod wide;
pub mod widths;

pub use narrow::NarrowWord;
pub use unions::union_of;
pub use walk::{Ascending, members};
pub use widths::WordWithin64;

pub trait WordSet: Copy {
    // how many bits the word has
    ghost width: { ℕ };

    // the word as a number
    ghost word: { Self → ℕ };

    // The set with nothing in it.
    fn empty() -> Self
        ensures { Holds (word result) (λ _. ⊥) };

    // Whether nothing is in the set.
    fn is_empty(self) -> bool
        ensures { IsTrue result ↔ ((k : ℕ) → ¬ In k (word self)) };

    // Whether k is in the set.
    fn contains(self, k: u32) -> bool
        ensures member { IsTrue result ↔ In k (word self) }
        ensures inside { IsTrue result → k < width };

    // The set with k in it too; a k at or above the width stays out.
    fn with(self, k: u32) -> Self
        ensures { Holds (word result) (λ j. In j (word self) ⊎ ((j ≡ k) × (k < width))) };

    // The set without k.
    fn without(self, k: u32) -> Self
        ensures { Holds (word result) (λ j. In j (word self) × (j ≢ k)) };

    // What is in one set or the other.
    fn union(self, other: Self) -> Self
        ensures { Holds (word result) (λ k. In k (word self) ⊎ In k (word other)) };

    // What is in both sets.
    fn intersection(self, other: Self) -> Self
        ensures { Holds (word result) (λ k. In k (word self) × In k (word other)) };

    // How many numbers are in the set.
    fn count(self) -> u32
        ensures { result ≡ size width (word self) };

    // The lowest number in the set at or above `from`.
    fn lowest_from(self, from: u32) -> Option<u32>
        ensures lowest { Lowest (λ k. In k (word self)) from result }
        ensures inside { IfSome result (λ k. k < width) };
}
