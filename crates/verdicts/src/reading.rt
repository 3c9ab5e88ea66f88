// What the live states tell of the complete rows.
// Each contract says which words are read, and what that means where they hold the live states of a row.
// Slice and part are handed on as two: a struct of both would be made at each call for that call alone.
ghost use Rattle.std.specs.Prelude.{◌≡◌, ℕ, suc, ◌<◌, ◌≤◌, ◌↔◌, IsTrue, length, slice_index};
ghost use Rattle.words.specs.Sets.{In, Holds};
ghost use Rattle.verdicts.specs.Verdicts.{PartHas, WhereLive, WordHas};
ghost use Rattle.layers.specs.Rows.{Possible, Uses, Yields};

use tallies::Tally;
use words::{WordSet, members, union_of};

// Whether there is a state in the set.
fn has_state(set: u64) -> bool
    ensures { IsTrue result ↔ ((s : ℕ) × In s set) }
{
    !set.is_empty()
}

// The words of a part, one for each hatching, or none where they are not all there.
fn words_at(live: &[u64], part: usize) -> &[u64]
    ensures few { length result.now ≤ 32 }
    ensures words { (v s : ℕ) → (v < length result.now) × In s (slice_index result.now v) ↔ WordHas live.now part v s }
{
    match live.as_chunks::<32>().0.get(part) {
        Some(words) => words,
        None => &[],
    }
}

// The hatchings of a part that some complete row uses.
// A loop that keeps what passes: one function for this and `ending_states` would be public, and require that its closure can be called.
pub fn used_at(live: &[u64], part: usize) -> u32
    ensures words { Holds result (λ v. (s : ℕ) × WordHas live.now part v s) }
    ensures uses { WhereLive live.now (λ m palettes allowed. part < length palettes → Holds result (Uses m palettes allowed part)) }
{
    let mut used = 0u32;
    for (v, states) in words_at(live, part).iter().enumerate() {
        if has_state(*states) {
            used = used.with(v as u32);
        }
    }
    used
}

// The states of a part, with whatever hatching.
fn states_at(live: &[u64], part: usize) -> u64
    ensures { Holds result (PartHas live.now part) }
{
    union_of(words_at(live, part))
}

// The results that some complete row has: those of the states of its last part.
// A loop that collects what each state gives: one function for such loops would be public too, with the same requirement.
pub fn results_at<T: Tally>(tally: &T, live: &[u64], part: usize) -> u64
    ensures words { Holds result (λ k. (s : ℕ) × (PartHas live.now part s × ((T.machine tally.now).result s ≡ k))) }
    ensures yields { WhereLive live.now (λ m palettes allowed. (m.machine ≡ T.machine tally.now) → suc part ≡ length palettes → Holds result (Yields m palettes allowed)) }
{
    let mut results = 0u64;
    for s in members(states_at(live, part)) {
        results = results.with(tally.result(s));
    }
    results
}

// Whether there is a complete row: whether a hatching of the first part is used.
pub fn is_possible(live: &[u64]) -> bool
    ensures words { IsTrue result ↔ ((s : ℕ) × PartHas live.now 0 s) }
    ensures possible { WhereLive live.now (λ m palettes allowed. 0 < length palettes → IsTrue result ↔ Possible m palettes allowed) }
{
    has_state(states_at(live, 0))
}
