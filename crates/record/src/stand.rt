// How a row stands.
ghost use Rattle.std.specs.Prelude.{◌≡◌, Some};
ghost use Rattle.record.specs.Stands.{is_blank, stand_name, stand_number};

use std::fmt;

#[derive(Clone, Copy, PartialEq, Eq, Debug)]
pub enum Stand {
    // no row has been laid
    Blank = 0,
    // what can still stand is not known
    Open = 1,
    // the palettes have exactly what can still stand
    Settled = 2,
    // no row can be completed
    Dead = 3,
}

impl Stand {
    // The number of this stand.
    pub fn number(self) -> u32
        ensures { result ≡ stand_number self }
    {
        self as u32
    }

    // Whether there is no row yet.
    pub fn is_blank(self) -> bool
        ensures { result ≡ is_blank self }
    {
        matches!(self, Stand::Blank)
    }
}

impl fmt::Display for Stand {
    ghost output = { λ stand. Some (stand_name stand) };

    fn fmt<W: fmt::Write>(&self, f: &mut fmt::Formatter<W>) -> fmt::Result {
        match self {
            Stand::Blank => f.write_str("blank"),
            Stand::Open => f.write_str("open"),
            Stand::Settled => f.write_str("settled"),
            Stand::Dead => f.write_str("dead"),
        }
    }
}
