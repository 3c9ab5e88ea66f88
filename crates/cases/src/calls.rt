// The calls of a row: every refusal, and every bound from both sides.
use record::{Refusal, Stand};
use row::Row;
use rules::FormulaRule;
use tallies::StretchCounter;

type TestRow = Row<FormulaRule, StretchCounter<FormulaRule>>;

fn blank_row() -> TestRow {
    let tally = StretchCounter {
        rule: FormulaRule::Equal,
    };
    Row::new(FormulaRule::Always, tally)
}

// {0}, {0, 1} and {0, 1}, with the result 2 alone
fn small_row() -> TestRow {
    let mut row = blank_row();
    let _laid = row.lay(3, 2, 0b100, &[0b01, 0b11, 0b11]);
    row
}

#[test]
fn a_blank_row_refuses_all_but_lay_and_stand(rt: HostRuntime) {
    let mut row = blank_row();
    assert!(rt; row.stand() == Stand::Blank);
    assert!(rt; row.withdraw(0, 0) == Err(Refusal::NoRow));
    assert!(rt; row.limit(u32::MAX) == Err(Refusal::NoRow));
    assert!(rt; row.mark() == Err(Refusal::NoRow));
    assert!(rt; row.back() == Err(Refusal::NoRow));
    assert!(rt; row.look(u32::MAX, 0) == Err(Refusal::NoRow));
    assert!(rt; row.settle(&mut []) == Err(Refusal::NoRow));
    assert!(rt; row.stand() == Stand::Blank);
}

#[test]
fn lay_at_its_bounds(rt: HostRuntime) {
    let mut row = blank_row();
    assert!(rt; row.lay(60, 32, u64::MAX, &[u32::MAX; 60]) == Ok(60));
    assert!(rt; row.lay(61, 32, 0, &[0; 61]) == Err(Refusal::WrongSize));
    assert!(rt; row.lay(60, 33, 0, &[0; 60]) == Err(Refusal::WrongSize));
    assert!(rt; row.lay(0, 1, 0, &[]) == Err(Refusal::WrongSize));
    assert!(rt; row.lay(1, 0, 0, &[0]) == Err(Refusal::WrongSize));
    assert!(rt; row.lay(2, 1, 0, &[0]) == Err(Refusal::WrongSize));
    assert!(rt; row.lay(u32::MAX, u32::MAX, 0, &[0]) == Err(Refusal::WrongSize));
    assert!(rt; row.lay(1, 31, 0, &[0x8000_0000]) == Err(Refusal::HighPalette));
    assert!(rt; row.look(59, 31) == Ok(Some(31)));
    assert!(rt; row.lay(1, 32, 0, &[0x8000_0000]) == Ok(1));
}

#[test]
fn numbers_out_of_range(rt: HostRuntime) {
    let mut row = small_row();
    assert!(rt; row.withdraw(3, 0) == Err(Refusal::NoPart));
    assert!(rt; row.withdraw(u32::MAX, u32::MAX) == Err(Refusal::NoPart));
    assert!(rt; row.withdraw(2, 2) == Err(Refusal::NoHatching));
    assert!(rt; row.withdraw(0, u32::MAX) == Err(Refusal::NoHatching));
    assert!(rt; row.limit(64) == Err(Refusal::NoResult));
    assert!(rt; row.limit(u32::MAX) == Err(Refusal::NoResult));
    assert!(rt; row.limit(63) == Ok(1));
    assert!(rt; row.look(3, 0) == Err(Refusal::NoPart));
    assert!(rt; row.look(2, u32::MAX) == Ok(None));
}

#[test]
fn eight_marks(rt: HostRuntime) {
    let mut row = small_row();
    assert!(rt; row.back() == Err(Refusal::NoMark));
    for k in 1..9 {
        assert!(rt; row.mark() == Ok(k));
    }
    assert!(rt; row.mark() == Err(Refusal::FullMarks));
    assert!(rt; row.back() == Ok(7));
    assert!(rt; row.lay(1, 1, 1, &[1]) == Ok(1));
    assert!(rt; row.back() == Err(Refusal::NoMark));
}

#[test]
fn settle_and_back(rt: HostRuntime) {
    let mut row = small_row();
    let mut scratch = [7; 97];
    assert!(rt; row.settle(&mut scratch[..95]) == Err(Refusal::ShortScratch));
    assert!(rt; scratch == [7; 97] && row.stand() == Stand::Open);
    assert!(rt; row.settle(&mut scratch) == Ok((1, 0)));
    assert!(rt; scratch[96] == 7 && row.stand() == Stand::Settled);
    assert!(rt; row.mark() == Ok(1));
    assert!(rt; row.withdraw(2, 0) == Ok(1) && row.stand() == Stand::Settled);
    assert!(rt; row.withdraw(2, 1) == Ok(0) && row.stand() == Stand::Open);
    assert!(rt; row.settle(&mut scratch) == Ok((3, 1)) && row.stand() == Stand::Dead);
    assert!(rt; row.look(0, 0) == Ok(None));
    assert!(rt; row.back() == Ok(0) && row.stand() == Stand::Settled);
    assert!(rt; row.look(2, 0) == Ok(Some(1)));
}

#[test]
fn limit_opens_only_where_the_result_stood(rt: HostRuntime) {
    let mut row = small_row();
    let mut scratch = [0; 96];
    assert!(rt; row.settle(&mut scratch) == Ok((1, 0)));
    assert!(rt; row.limit(3) == Ok(1) && row.stand() == Stand::Settled);
    assert!(rt; row.limit(2) == Ok(0) && row.stand() == Stand::Open);
    assert!(rt; row.settle(&mut scratch) == Ok((4, 0)) && row.stand() == Stand::Dead);
}
