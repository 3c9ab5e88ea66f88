// The marks: a row saved, and gone back to.
ghost use Rattle.record.specs.Calls.{GoesBack, Saves};
ghost use Rattle.record.specs.Refusals.{back_refusal, mark_refusal};
ghost use Rattle.record.specs.Replies.{Replies};

use crate::record::Record;
use crate::refusal::Refusal;

// The most marks that a row can hold.
const MOST_MARKS: u32 = 8;

impl Record {
    // Saves the row as the youngest mark, and answers how many marks are held.
    pub fn mark(&mut self) -> Result<u32, Refusal>
        ensures { let a = self.old in Replies (mark_refusal a.current.stand a.marks) a result self.new (Saves a) }
    {
        self.check_laid()?;
        if self.marks >= MOST_MARKS {
            return Err(Refusal::FullMarks);
        }
        self.undo.put(self.marks, self.current);
        self.marks += 1;
        Ok(self.marks)
    }

    // Makes the row what the youngest mark saved, drops that mark, and answers how many marks are held.
    pub fn back(&mut self) -> Result<u32, Refusal>
        ensures { let a = self.old in Replies (back_refusal a.current.stand a.marks) a result self.new (GoesBack a) }
    {
        self.check_laid()?;
        if self.marks == 0 {
            return Err(Refusal::NoMark);
        }
        self.current = self.undo.get(self.marks - 1);
        self.marks -= 1;
        Ok(self.marks)
    }
}
