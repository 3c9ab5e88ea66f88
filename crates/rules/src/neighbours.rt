// What every neighbour rule is.
ghost use Rattle.std.specs.Prelude.{◌≡◌, ℕ, ◌<◌, Bool, true};

pub trait NeighbourRule {
    // the rule's set of ordered pairs, by its test
    ghost pairs: { Self → ℕ → ℕ → Bool };

    // Whether b may stand right after a: whether (a, b) is in the set.
    fn allows(&self, a: u32, b: u32) -> bool
        ensures { result ≡ pairs self.now a b };

    // both numbers of a pair are hatchings
    ghost below: { (x : Self) (a b : ℕ) → pairs x a b ≡ true → (a < 32) × (b < 32) };
}
