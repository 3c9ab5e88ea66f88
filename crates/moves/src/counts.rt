// Numbers one up, and not above 63.
// These and the grid's row_down differ in the shift and in what it would lose; with both as parameters a common function would be
// longer than the one expression of each.
ghost use Rattle.moves.specs.Maps.{Image, Preimage, one_up};
ghost use Rattle.words.specs.Sets.{Holds};

// Each number of the set one up. The shift loses 63, which stays.
pub fn one_up(set: u64) -> u64
    ensures { Holds result (Image one_up set) }
{
    set << 1 | set & 1 << 63
}

// The numbers that are in the set once they are one up.
pub fn one_up_into(set: u64) -> u64
    ensures { Holds result (Preimage one_up set) }
{
    set >> 1 | set & 1 << 63
}
