// The live states of a small row, and what they tell.
use layers::{Problem, Shortage, write_live};
use rules::FormulaRule;
use tallies::StretchCounter;
use verdicts::{is_possible, results_at, used_at, write_first};

// {0}, {0, 1} and {0, 1}
const PALETTES: [u32; 3] = [0b01, 0b11, 0b11];

// the result 2 alone
const TWO: u64 = 0b100;

const RULE: FormulaRule = FormulaRule::Always;

const TALLY: StretchCounter<FormulaRule> = StretchCounter {
    rule: FormulaRule::Equal,
};

// The row of these palettes with the results that are allowed.
fn problem(allowed: u64) -> Problem<'static, FormulaRule, StretchCounter<FormulaRule>> {
    Problem {
        rule: &RULE,
        tally: &TALLY,
        palettes: &PALETTES,
        allowed,
    }
}

#[test]
fn live_states_stand_at_their_words(rt: HostRuntime) {
    let mut scratch = [7; 98];
    assert!(rt; write_live(&problem(TWO), &mut scratch).is_ok());
    for (k, word) in scratch.iter().enumerate() {
        let wanted = match k {
            0 | 32 => 0b010,
            33 | 65 => 0b100,
            96 | 97 => 7,
            _ => 0,
        };
        assert!(rt; *word == wanted);
    }
}

#[test]
fn live_states_tell_hatchings_and_results(rt: HostRuntime) {
    let mut scratch = [7; 96];
    assert!(rt; write_live(&problem(TWO), &mut scratch).is_ok());
    assert!(rt; is_possible(&scratch));
    assert!(rt; used_at(&scratch, 1) == 0b11);
    assert!(rt; used_at(&scratch, 2) == 0b10);
    assert!(rt; used_at(&scratch, 3) == 0);
    assert!(rt; used_at(&scratch, usize::MAX) == 0);
    assert!(rt; results_at(&TALLY, &scratch, 2) == TWO);
}

#[test]
fn first_row_is_written(rt: HostRuntime) {
    let mut scratch = [7; 96];
    let mut strip = [9; 4];
    let answer = write_first(&problem(TWO), &mut scratch, &mut strip);
    assert!(rt; answer == Ok(Some(2)));
    assert!(rt; strip == [0, 0, 1, 9]);
}

#[test]
fn no_row_leaves_the_strip(rt: HostRuntime) {
    let mut scratch = [7; 96];
    let mut strip = [9; 4];
    let answer = write_first(&problem(0b10000), &mut scratch, &mut strip);
    assert!(rt; answer == Ok(None));
    assert!(rt; strip == [9; 4]);
    assert!(rt; scratch == [0; 96]);
}

#[test]
fn short_scratch_comes_before_short_strip(rt: HostRuntime) {
    let mut scratch = [7; 96];
    let mut strip = [9; 4];
    let short = write_first(&problem(TWO), &mut scratch[..95], &mut strip[..2]);
    assert!(rt; short == Err(Shortage::Scratch));
    let strips = write_first(&problem(TWO), &mut scratch, &mut strip[..2]);
    assert!(rt; strips == Err(Shortage::Strip));
    assert!(rt; scratch == [7; 96]);
    assert!(rt; strip == [9; 4]);
}
