// Why a call is refused.
ghost use Rattle.std.specs.Prelude.{◌≡◌};
ghost use Rattle.record.specs.Refusals.{refusal_number};

#[derive(Clone, Copy, PartialEq, Eq, Debug)]
pub enum Refusal {
    // there is no row yet
    NoRow = 1,
    // not 1 to 60 parts or not 1 to 32 hatchings, or not a palette for each part
    WrongSize = 2,
    // a palette has a hatching that the row does not have
    HighPalette = 3,
    // the row has no such part
    NoPart = 4,
    // the row has no such hatching
    NoHatching = 5,
    // the result is above 63
    NoResult = 6,
    // eight marks are held
    FullMarks = 7,
    // no mark is held
    NoMark = 8,
    // the scratch has fewer than 32 words for each part
    ShortScratch = 9,
}

impl Refusal {
    // The number of this refusal.
    pub fn number(self) -> u32
        ensures { result ≡ refusal_number self }
    {
        self as u32
    }
}
