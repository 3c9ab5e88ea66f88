// Finished rows: at least one part, and a hatching below 32 at each.
ghost use Rattle.std.specs.Prelude.{◌≡◌};
ghost use Rattle.std.specs.Result.{MatchResult};
ghost use Rattle.tallies.specs.Rows.{Faulty, Finished};

// What keeps numbers from being a finished row.
#[derive(Clone, Copy, PartialEq, Eq, Debug)]
pub enum RowFault {
    // there is no part
    Empty,
    // the number at this position, counted from 0, is the first above 31
    TooHigh(usize),
}

// Refuses numbers that are no finished row.
pub fn check_finished(row: &[u32]) -> Result<(), RowFault>
    ensures { MatchResult result (λ _. Finished row.now) (Faulty row.now) }
{
    if row.is_empty() {
        return Err(RowFault::Empty);
    }
    match row.iter().position(|hatching| *hatching > 31) {
        Some(i) => Err(RowFault::TooHigh(i)),
        None => Ok(()),
    }
}

// A finished row that is lent.
#[derive(Clone, Copy)]
pub struct FinishedRow<'a> {
    pub hatchings: &'a [u32],
    ghost finished: { Finished hatchings.now },
}

// The numbers as a finished row, where they are one.
impl<'a> TryFrom<&'a [u32]> for FinishedRow<'a> {
    type Error = RowFault;

    ghost try_from_gives = { λ row r. MatchResult r (λ finished. finished.hatchings.now ≡ row.now) (Faulty row.now) };

    fn try_from(row: &'a [u32]) -> Result<FinishedRow<'a>, RowFault> {
        check_finished(row)?;
        Ok(FinishedRow { hatchings: row })
    }
}
