// The first complete row in dictionary order, by one walk forward through the live states: no search, no way back.
// After part i, the strip's first i + 1 bytes begin that row, and s is its tally there.
ghost use Rattle.std.specs.Prelude.{◌≡◌, ℕ, ◌+◌, ◌*◌, ◌<◌, ◌≤◌, true, length, MatchResult, slice_index};
ghost use Rattle.words.specs.Sets.{In, Lowest};
ghost use Rattle.layers.specs.Layers.{TakesHatchings};
ghost use Rattle.layers.specs.Scratch.{HasRoom, Lives, SameFrom, Shortens};
ghost use Rattle.verdicts.specs.Verdicts.{Fills, IsLowest};
ghost use Rattle.layers.specs.Rows.{model};

use layers::{Problem, Shortage, check_scratch, write_live};
use rules::NeighbourRule;
use tallies::Tally;
use words::{WordSet, members};

// The lowest hatching of the palette that passes the test.
fn lowest<F: Fn(u32) -> bool>(palette: u32, test: F) -> Option<u32>
    requires { TakesHatchings (F.pre test) }
    ensures { IsLowest (F.post test) palette result }
{
    members(palette).find(
        |v|
            requires { F.pre test v.now }
        { test(*v) },
    )
}

// The lowest hatching of the palette that a complete row begins with.
fn first_hatching<T: Tally>(tally: &T, palette: u32, live: &[u64]) -> Option<u32>
    requires { HasRoom 1 live.now }
    ensures { Lowest (λ v. In v palette × In ((T.machine tally.now).start v) (slice_index live.now v)) 0 result }
{
    lowest(palette, |v| live[v as usize].contains(tally.start(v)))
}

// The lowest hatching of the palette with which a complete row goes on at part i, after v and the state s.
// Words are read by their place in the whole slice, of which the contract and what live states are speak.
fn next_hatching<R: NeighbourRule, T: Tally>(
    rule: &R,
    tally: &T,
    palette: u32,
    live: &[u64],
    i: usize,
    v: u32,
    s: u32,
) -> Option<u32>
    requires { HasRoom (i + 1) live.now }
    ensures { Lowest (λ w. In w palette × ((R.pairs rule.now v w ≡ true) × In ((T.machine tally.now).step s v w) (slice_index live.now (32 * i + w)))) 0 result }
{
    lowest(palette, |w| {
        rule.allows(v, w) && live[32 * i + w as usize].contains(tally.step(s, v, w))
    })
}

// Writes the row, and gives its result.
// It takes the palettes by themselves: of a slice in a struct the check does not know that its words are below 2^32.
fn walk<R: NeighbourRule, T: Tally>(
    rule: &R,
    tally: &T,
    palettes: &[u32],
    live: &[u64],
    strip: &mut [u8],
) -> Option<u32>
    requires words { HasRoom (length palettes.now) live.now }
    requires bytes { length palettes.now ≤ length strip.old }
    ensures { let m = model (R.pairs rule.now) (T.machine tally.now) in ((allowed : ℕ) → Lives m palettes.now allowed live.now → Fills m palettes.now allowed strip.old strip.new result) }
{
    let palette = palettes.first()?;
    let mut v = first_hatching(tally, *palette, live)?;
    let mut s = tally.start(v);
    strip[0] = v as u8;
    // By index: i finds the palette, the words and the byte of the part; over the palettes alone the invariant would have to count them.
    for i in 1..palettes.len() {
        let w = next_hatching(rule, tally, palettes[i], live, i, v, s)?;
        s = tally.step(s, v, w);
        v = w;
        strip[i] = v as u8;
    }
    Some(tally.result(s))
}

// Writes the first complete row into the strip, one byte a part, and gives its result, or nothing where no row is complete.
// The scratch gets the live states. Later words and bytes stay, and a refusal leaves everything.
pub fn write_first<R: NeighbourRule, T: Tally>(
    problem: &Problem<R, T>,
    scratch: &mut [u64],
    strip: &mut [u8],
) -> Result<Option<u32>, Shortage>
    ensures row { let m = model (R.pairs problem.now.rule.now) (T.machine problem.now.tally.now) in let ps = problem.now.palettes.now in let allowed = problem.now.allowed in MatchResult result (λ o. Lives m ps allowed scratch.new × Fills m ps allowed strip.old strip.new o) (λ e. Shortens (length ps) (length scratch.old) (length strip.old) e × (scratch.new ≡ scratch.old) × (strip.new ≡ strip.old)) }
    ensures rest { SameFrom (32 * length problem.now.palettes.now) scratch.new scratch.old }
{
    let Problem {
        rule,
        tally,
        palettes,
        ..
    } = *problem;
    check_scratch(palettes, scratch)?;
    if strip.len() < palettes.len() {
        return Err(Shortage::Strip);
    }
    write_live(problem, scratch)?;
    Ok(walk(rule, tally, palettes, scratch, strip))
}
