// What can be seen of a row.
ghost use Rattle.std.specs.Prelude.{◌≡◌, ℕ, true, false, Ok, Err, Option, MatchResult};
ghost use Rattle.record.specs.declared.refusal.Refusal.TheVariants.{NoRow};
ghost use Rattle.record.specs.Calls.{Looks};
ghost use Rattle.record.specs.Refusals.{look_refusal};
ghost use Rattle.record.specs.Replies.{By};
ghost use Rattle.record.specs.Stands.{is_blank};

use crate::record::Record;
use crate::refusal::Refusal;
use crate::stand::Stand;
use words::WordSet;

impl Record {
    // Refuses where there is no row yet.
    pub fn check_laid(&self) -> Result<(), Refusal>
        ensures { MatchResult result (λ _. is_blank self.now.current.stand ≡ false) (λ e. (e ≡ NoRow) × (is_blank self.now.current.stand ≡ true)) }
    {
        if self.current.stand.is_blank() {
            return Err(Refusal::NoRow);
        }
        Ok(())
    }

    // The lowest hatching of a part's palette, at or above a number.
    pub fn look(&self, part: u32, number: u32) -> Result<Option<u32>, Refusal>
        ensures { let a = self.now in By (look_refusal a.current.stand a.n part) (λ e. result ≡ Err e) ((found : Option ℕ) × ((result ≡ Ok found) × Looks a part number found)) }
    {
        self.check_laid()?;
        if part >= self.n {
            return Err(Refusal::NoPart);
        }
        Ok(self.current.palettes[part as usize].lowest_from(number))
    }

    // How the row stands.
    pub fn stand(&self) -> Stand
        ensures { result ≡ self.now.current.stand }
    {
        self.current.stand
    }
}
