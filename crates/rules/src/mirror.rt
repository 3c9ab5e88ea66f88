// Neighbour rules turned round.
ghost use Rattle.std.specs.Prelude.{◌≡◌};
ghost use Rattle.rules.specs.Pairs.{mirrored};
ghost use Rattle.std.proofs.Common.{rules};

use crate::neighbours::NeighbourRule;

// (a, b) is a pair where (b, a) is one of the rule below.
#[derive(Clone, Copy)]
pub struct Mirror<R> {
    pub rule: R,
}

impl<R: NeighbourRule> NeighbourRule for Mirror<R> {
    ghost pairs = { λ m. mirrored (R.pairs m.rule) };

    ghost below = { Prim.search rules };

    fn allows(&self, a: u32, b: u32) -> bool {
        self.rule.allows(b, a)
    }
}

impl<R: NeighbourRule> Mirror<Mirror<R>> {
    // Asks the outer mirror. A mirror over a mirror has the innermost set, so the innermost rule's answer comes.
    pub fn allows_as_innermost(&self, a: u32, b: u32) -> bool
        ensures set { mirrored (mirrored (R.pairs self.now.rule.rule)) ≡ R.pairs self.now.rule.rule }
        ensures answer { result ≡ R.pairs self.now.rule.rule a b }
    {
        self.allows(a, b)
    }
}
