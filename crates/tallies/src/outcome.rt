// A tally read along a whole row.
ghost use Rattle.std.specs.Prelude.{◌≡◌};
ghost use Rattle.tallies.specs.Machines.{outcome};

use crate::tally::Tally;

// The result of a row, read from its first hatching to its last; an empty row ends in state 0.
pub fn outcome_of<T: Tally>(tally: &T, row: &[u32]) -> u32
    ensures { result ≡ outcome (T.machine tally.now) row.now }
{
    let [first, rest @ ..] = row else {
        return tally.result(0);
    };
    let state = row.iter().zip(rest).fold(
        tally.start(*first),
        |state, (v, w)| tally.step(state, *v, *w),
    );
    tally.result(state)
}
