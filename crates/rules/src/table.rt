// Neighbour rules that are given by a table.
ghost use Rattle.rules.specs.Tables.{table_pairs};
ghost use Rattle.std.proofs.Common.{rules};

use crate::neighbours::NeighbourRule;
use words::WordSet;

// (a, b) is a pair where bit b of word a is one.
#[derive(Clone, Copy)]
pub struct TableRule {
    pub words: [u32; 32],
}

impl NeighbourRule for TableRule {
    ghost pairs = { λ t. table_pairs t.words };

    ghost below = { Prim.search rules };

    fn allows(&self, a: u32, b: u32) -> bool {
        a < 32 && self.words[a as usize].contains(b)
    }
}
