// What can be too short of what is lent.
ghost use Rattle.std.specs.Prelude.{◌≡◌};
ghost use Rattle.layers.specs.Scratch.{shortage_number};

#[derive(Clone, Copy, PartialEq, Eq, Debug)]
pub enum Shortage {
    // the scratch has fewer than 32 words for each part
    Scratch = 9,
    // the strip has fewer bytes than there are parts
    Strip = 10,
}

impl Shortage {
    // The number of this refusal.
    pub fn number(self) -> u32
        ensures { result ≡ shortage_number self }
    {
        self as u32
    }
}
