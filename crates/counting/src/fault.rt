// What can be wrong with a line.
ghost use Rattle.std.specs.Prelude.{◌≡◌};
ghost use Rattle.counting.specs.declared.fault.LineFault.TheVariants.{Memory};
ghost use Rattle.counting.specs.Faults.{of_row};

use std::alloc::{AllocError, AllocFailed};
use tallies::RowFault;
use thiserror::Error;

#[derive(Clone, Copy, PartialEq, Eq, Debug, Error)]
pub enum LineFault {
    #[error("there is no part")]
    NoParts,
    // this word, counted from 0, is the first that is no number
    #[error("word {} is no number", .0.saturating_add(1))]
    NoNumber(usize),
    // the hatching of this part, counted from 0, is the first above 31
    #[error("word {} is above 31, the highest hatching", .0.saturating_add(1))]
    TooHigh(usize),
    // so many parts, which are more than 60
    #[error("there are {0} parts, and 60 are the most")]
    TooMany(usize),
    // there is no memory for the line's numbers
    #[error("there is no memory for it")]
    Memory,
}

// The conversions are written out: the contracts name the fault that `?` makes, and a derived one has no contract.
impl From<AllocError> for LineFault {
    ghost from_gives = { λ _ r. r ≡ Memory };

    fn from(_e: AllocError) -> LineFault {
        LineFault::Memory
    }
}

impl<T: Drop> From<AllocFailed<T>> for LineFault {
    ghost from_gives = { λ _ r. r ≡ Memory };

    fn from(_e: AllocFailed<T>) -> LineFault {
        LineFault::Memory
    }
}

impl From<RowFault> for LineFault {
    ghost from_gives = { λ e r. r ≡ of_row e };

    fn from(e: RowFault) -> LineFault {
        match e {
            RowFault::Empty => LineFault::NoParts,
            RowFault::TooHigh(i) => LineFault::TooHigh(i),
        }
    }
}
