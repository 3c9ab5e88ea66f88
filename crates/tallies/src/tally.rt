// What every tally is.
ghost use Rattle.std.specs.Prelude.{◌≡◌, ℕ};
ghost use Rattle.words.specs.Sets.{Holds};
ghost use Rattle.tallies.specs.Machines.{Image, Machine, Preimage, TallyLaws};

use words::{WordSet, members};

pub trait Tally {
    // How many states the tally has. States are numbered from 0.
    const STATES: u32;

    // the same number, for clauses
    ghost STATES: { ℕ };

    // what the tally means: start, step and result
    ghost machine: { Self → Machine };

    // The state after the first hatching v of a row.
    fn start(&self, v: u32) -> u32
        ensures { result ≡ (machine self.now).start v };

    // The state after w, where it was s after v.
    fn step(&self, s: u32, v: u32, w: u32) -> u32
        ensures { result ≡ (machine self.now).step s v w };

    // The number that the last state s comes to.
    fn result(&self, s: u32) -> u32
        ensures { result ≡ (machine self.now).result s };

    // The states that the step from v to w gives from those of the set.
    // A tally that can move a whole set at once writes its own.
    // Several crates have such a loop: one function for all would be public, and no public one here may require a closure to be callable.
    fn image(&self, set: u64, v: u32, w: u32) -> u64
        ensures { Holds result (Image (machine self.now) set v w) }
    {
        let mut states = 0u64;
        for s in members(set) {
            states = states.with(self.step(s, v, w));
        }
        states
    }

    // The states of the set that the step from v to w takes into the target.
    // A loop that sifts, as image is one that collects: here too a common function would require a closure to be callable.
    fn preimage(&self, set: u64, v: u32, w: u32, target: u64) -> u64
        ensures { Holds result (Preimage (machine self.now) set v w target) }
    {
        let mut states = 0u64;
        for s in members(set) {
            if target.contains(self.step(s, v, w)) {
                states = states.with(s);
            }
        }
        states
    }

    // what each implementation proves: from 1 to 64 states, and nothing past them
    ghost laws: { TallyLaws STATES machine };
}
