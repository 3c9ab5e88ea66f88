// The live states of a row.
ghost use Rattle.std.specs.Prelude.{◌≡◌, ◌*◌, ◌<◌, length, MatchResult};
ghost use Rattle.layers.specs.declared.shortage.Shortage.TheVariants.{Scratch};
ghost use Rattle.layers.specs.Scratch.{HasRoom, Lives, SameFrom};
ghost use Rattle.layers.specs.Rows.{model};

use crate::backward::backward;
use crate::forward::forward;
use crate::shortage::Shortage;
use neighbours::neighbours_of;
use rules::NeighbourRule;
use tallies::Tally;

// What is to be completed: the rule, the tally, a palette for each part, and the results that are allowed.
#[derive(Drop)]
pub struct Problem<'a, R, T> {
    pub rule: &'a R,
    pub tally: &'a T,
    pub palettes: &'a [u32],
    pub allowed: u64,
}

// Whether the scratch has 32 words for each part.
pub fn check_scratch(palettes: &[u32], scratch: &[u64]) -> Result<(), Shortage>
    ensures { MatchResult result (λ _. HasRoom (length palettes.now) scratch.now) (λ e. (e ≡ Scratch) × (length scratch.now < 32 * length palettes.now)) }
{
    if scratch.len() / 32 < palettes.len() {
        return Err(Shortage::Scratch);
    }
    Ok(())
}

// The two passes.
// A definition for the model of a problem would take the same four things: the members of the two bounds, and the two values.
// SameFrom speaks of before and after, so no invariant of a type can say it; it is a name already.
fn pass<R: NeighbourRule, T: Tally>(problem: &Problem<R, T>, scratch: &mut [u64])
    requires { HasRoom (length problem.now.palettes.now) scratch.old }
    ensures live { Lives (model (R.pairs problem.now.rule.now) (T.machine problem.now.tally.now)) problem.now.palettes.now problem.now.allowed scratch.new }
    ensures rest { SameFrom (32 * length problem.now.palettes.now) scratch.new scratch.old }
{
    let Problem {
        rule,
        tally,
        palettes,
        allowed,
    } = *problem;
    let neighbours = neighbours_of(rule, palettes);
    forward(tally, &neighbours, palettes, scratch);
    backward(tally, &neighbours, palettes, allowed, scratch);
}

// Writes the live states of the row: word 32 × i + v gets those of part i and hatching v. Later words stay.
pub fn write_live<R: NeighbourRule, T: Tally>(
    problem: &Problem<R, T>,
    scratch: &mut [u64],
) -> Result<(), Shortage>
    ensures live { let m = model (R.pairs problem.now.rule.now) (T.machine problem.now.tally.now) in let ps = problem.now.palettes.now in MatchResult result (λ _. Lives m ps problem.now.allowed scratch.new) (λ e. (e ≡ Scratch) × (length scratch.old < 32 * length ps) × (scratch.new ≡ scratch.old)) }
    ensures rest { SameFrom (32 * length problem.now.palettes.now) scratch.new scratch.old }
{
    check_scratch(problem.palettes, scratch)?;
    pass(problem, scratch);
    Ok(())
}
