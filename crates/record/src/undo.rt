// The saved copies that a row can go back to.
ghost use Rattle.std.specs.Prelude.{◌≡◌, ◌<◌, slice_index_or, slice_set};
ghost use Rattle.record.specs.Copies.{no_copy};

use crate::moment::Moment;

// Room for eight marks, the oldest first: the engine has no heap, and the record counts those that are held.
#[derive(Clone, Copy)]
pub struct UndoTable {
    pub saved: [Moment; 8],
}

impl UndoTable {
    // Writes a copy into place `at`.
    pub(crate) fn put(&mut self, at: u32, saved: Moment)
        requires { at < 8 }
        ensures { self.new.saved ≡ slice_set self.old.saved at saved }
    {
        self.saved[at as usize] = saved;
    }

    // The copy in place `at`.
    pub(crate) fn get(&self, at: u32) -> Moment
        requires { at < 8 }
        ensures { result ≡ slice_index_or self.now.saved at no_copy }
    {
        self.saved[at as usize]
    }
}
