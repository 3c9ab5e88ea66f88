// Cells of a grid of eight rows of eight: a row is a byte of the word, and a column a bit of each byte.
ghost use Rattle.moves.specs.Maps.{Image, Preimage, first_row, row_down, to_diagonal};
ghost use Rattle.words.specs.Sets.{Holds};

// the first row
const FIRST: u64 = 0xff;

// the last row
const LAST: u64 = FIRST << 56;

const DIAGONAL: u64 = 0x8040_2010_0804_0201;

// the cells left of the diagonal: k of them in row k
const LEFT: u64 = 0x7f3f_1f0f_0703_0100;

// Each cell's column in the first row: eight rows folded onto four, these onto two, and these onto one.
pub fn first_row(set: u64) -> u64
    ensures { Holds result (Image first_row set) }
{
    let four = set | set >> 32;
    let two = four | four >> 16;
    (two | two >> 8) & FIRST
}

// The cells whose column is in the set: the set's first row spread over all eight.
pub fn first_row_into(set: u64) -> u64
    ensures { Holds result (Preimage first_row set) }
{
    let one = set & FIRST;
    let two = one | one << 8;
    let four = two | two << 16;
    four | four << 32
}

// Each cell a row down. The shift loses the last row, which stays. (Beside one_up: see there.)
pub fn row_down(set: u64) -> u64
    ensures { Holds result (Image row_down set) }
{
    set << 8 | set & LAST
}

// The cells that are in the set once they are a row down.
pub fn row_down_into(set: u64) -> u64
    ensures { Holds result (Preimage row_down set) }
{
    set >> 8 | set & LAST
}

// Each cell left of the diagonal moved onto it, in its row. Such a cell is spread over the eight cells from it on: the diagonal
// of its row is among them, and that of no other row.
pub fn to_diagonal(set: u64) -> u64
    ensures { Holds result (Image to_diagonal set) }
{
    let left = set & LEFT;
    let two = left | left << 1;
    let four = two | two << 2;
    let eight = four | four << 4;
    set & !LEFT | eight & DIAGONAL
}

// The cells that are in the set once they are moved onto the diagonal so. A cell of the diagonal is spread over the eight cells
// up to it: all those left of it in its row are among them, and none left of the diagonal in another row.
pub fn to_diagonal_into(set: u64) -> u64
    ensures { Holds result (Preimage to_diagonal set) }
{
    let on = set & DIAGONAL;
    let two = on | on >> 1;
    let four = two | two >> 2;
    let eight = four | four >> 4;
    set & !LEFT | eight & LEFT
}
