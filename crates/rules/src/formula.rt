// Neighbour rules that are given by a formula.
ghost use Rattle.std.specs.Prelude.{◌≡◌, ◌<◌, MatchOption};
ghost use Rattle.rules.specs.Formulas.{Carries, formula_code, formula_pairs};
ghost use Rattle.std.proofs.Common.{rules};

use crate::neighbours::NeighbourRule;

#[derive(Clone, Copy, PartialEq, Eq, Debug)]
pub enum FormulaRule {
    // every two hatchings
    Always,
    // the same hatching twice
    Equal,
    // two that differ
    Different,
    // the first is less than the second
    Less,
    // the first is at most the second
    AtMost,
    // they differ by at most r
    Within(u32),
    // both are at least r
    BothAtLeast(u32),
}

impl FormulaRule {
    // The formula of a code from 0 to 6, in the order above; r counts in the last two only.
    // No TryFrom: of a pair of two numbers nobody sees which is the code.
    pub fn from_code(code: u32, r: u32) -> Option<FormulaRule>
        ensures { MatchOption result (6 < code) (λ g. (formula_code g ≡ code) × Carries g r) }
    {
        match code {
            0 => Some(FormulaRule::Always),
            1 => Some(FormulaRule::Equal),
            2 => Some(FormulaRule::Different),
            3 => Some(FormulaRule::Less),
            4 => Some(FormulaRule::AtMost),
            5 => Some(FormulaRule::Within(r)),
            6 => Some(FormulaRule::BothAtLeast(r)),
            _ => None,
        }
    }

    // The formula's code. No cast gives it, since an enum with data has no discriminants.
    pub fn number(self) -> u32
        ensures { result ≡ formula_code self }
    {
        match self {
            FormulaRule::Always => 0,
            FormulaRule::Equal => 1,
            FormulaRule::Different => 2,
            FormulaRule::Less => 3,
            FormulaRule::AtMost => 4,
            FormulaRule::Within(_) => 5,
            FormulaRule::BothAtLeast(_) => 6,
        }
    }
}

impl NeighbourRule for FormulaRule {
    ghost pairs = { formula_pairs };

    ghost below = { Prim.search rules };

    fn allows(&self, a: u32, b: u32) -> bool {
        if a >= 32 || b >= 32 {
            return false;
        }
        // A match and no closures: the seven are a closed list, and a rule is a plain value that can be copied and compared.
        match *self {
            FormulaRule::Always => true,
            FormulaRule::Equal => a == b,
            FormulaRule::Different => a != b,
            FormulaRule::Less => a < b,
            FormulaRule::AtMost => a <= b,
            FormulaRule::Within(r) => a.abs_diff(b) <= r,
            FormulaRule::BothAtLeast(r) => a.min(b) >= r,
        }
    }
}
