// Settle: what no complete row uses or has is struck from the row.
ghost use Rattle.std.specs.Prelude.{◌≡◌, ℕ, ◌*◌, ◌<◌, ◌≤◌, Bool, false, length};
ghost use Rattle.layers.specs.Rows.{model, Possible};
ghost use Rattle.layers.specs.Scratch.{Lives, SameFrom};
ghost use Rattle.record.specs.declared.stand.Stand.TheVariants.{Settled, Dead};
ghost use Rattle.record.specs.Refusals.{settle_refusal};
ghost use Rattle.record.specs.Replies.{By, Replies};
ghost use Rattle.record.specs.Stands.{is_blank};
ghost use Rattle.verdicts.specs.Verdicts.{WhereLive};
ghost use Rattle.bare.specs.Settling.{Settles, parts_of};
ghost use Rattle.row.specs.Narrowing.{Narrows};

use layers::{Problem, write_live};
use record::{Moment, Record, Refusal, Stand};
use rules::NeighbourRule;
use tallies::Tally;
use verdicts::{is_possible, results_at, used_at};
use words::WordSet;

// Leaves in each palette what the live states use there, and answers how many hatchings fell.
#[tactic(auto, using(words::proofs::Sizes::size_within, words::proofs::Sizes::size_le, crate::proofs::Keeping::total_le))]
fn narrow(palettes: &mut [u32], live: &[u64]) -> u32
    requires { length palettes.old ≤ 60 }
    ensures { Narrows palettes.old live.now result palettes.new }
{
    let mut fallen = 0;
    for (i, palette) in palettes.iter_mut().enumerate() {
        let rest = palette.intersection(used_at(live, i));
        fallen += palette.count() - rest.count();
        *palette = rest;
    }
    fallen
}

// How a row stands once its live states are found: settled, or dead where there is no complete row.
fn judgement(live: &[u64]) -> Stand
    ensures stand { WhereLive live.now (λ m palettes allowed. 0 < length palettes → (Possible m palettes allowed → result ≡ Settled) × ((Possible m palettes allowed → ⊥) → result ≡ Dead)) }
    ensures laid { is_blank result ≡ false }
{
    if is_possible(live) {
        Stand::Settled
    } else {
        Stand::Dead
    }
}

// Strikes from the record what its live states do not use or have, and answers how many hatchings and results fell.
#[tactic(auto, using(words::proofs::Sizes::size_within))]
fn strike<T: Tally>(tally: &T, row: &mut Record, live: &[u64]) -> (u32, u32)
    requires { 0 < row.old.n }
    ensures { let a = row.old in ((p : ℕ → ℕ → Bool) → Lives (model p (T.machine tally.now)) (parts_of a) a.current.results live.now → Settles (model p (T.machine tally.now)) a result.0 result.1 row.new) }
{
    let parts = row.n as usize;
    let mut palettes = row.current.palettes;
    let hatchings = narrow(&mut palettes[..parts], live);
    let allowed = row.current.results;
    let had = allowed.intersection(results_at(tally, live, parts - 1));
    let results = allowed.count() - had.count();
    row.current = Moment {
        palettes,
        results: had,
        stand: judgement(live),
    };
    (hatchings, results)
}

// Strikes from a record the hatchings and results that no complete row has, and answers how many of each fell.
// The scratch gets the live states; its later words stay.
pub fn settle<R: NeighbourRule, T: Tally>(
    rule: &R,
    tally: &T,
    row: &mut Record,
    scratch: &mut [u64],
) -> Result<(u32, u32), Refusal>
    ensures reply { let a = row.old in let m = model (R.pairs rule.now) (T.machine tally.now) in
        Replies (settle_refusal a.current.stand a.n (length scratch.old)) a result row.new (λ k. Settles m a k.0 k.1) }
    ensures live { let a = row.old in let m = model (R.pairs rule.now) (T.machine tally.now) in
        By (settle_refusal a.current.stand a.n (length scratch.old)) (λ _. scratch.new ≡ scratch.old)
        (Lives m (parts_of a) a.current.results scratch.new × SameFrom (32 * a.n) scratch.new scratch.old) }
{
    row.check_laid()?;
    let parts = row.n as usize;
    let problem = Problem {
        rule,
        tally,
        palettes: &row.current.palettes[..parts],
        allowed: row.current.results,
    };
    write_live(&problem, scratch).map_err(|_| Refusal::ShortScratch)?;
    Ok(strike(tally, row, scratch))
}
