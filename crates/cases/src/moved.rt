// Sets of states, moved by a step.
ghost use Rattle.std.specs.Prelude.{◌+◌, ◌%◌};
ghost use Rattle.tallies.specs.Machines.{on_states};
ghost use Rattle.std.proofs.Common.{rules};

use rules::FormulaRule;
use std::process::Abort;
use tallies::{PlateauCounter, StretchCounter, Tally};
use words::WordSet;

// Hatchings, and two numbers above them.
const HATCHINGS: [u32; 5] = [0, 7, 31, 32, u32::MAX];

const SETS: [u64; 6] = [
    0,
    1,
    0x8000_0000_0000_0000,
    0x8040_2010_0804_0201,
    0x0123_4567_89ab_cdef,
    u64::MAX,
];

// Counts the parts, and begins again after two. It keeps the image and the preimage that every tally has.
struct PartCounter;

impl Tally for PartCounter {
    const STATES: u32 = 3;

    ghost STATES = { 3 };

    ghost machine = { λ _. on_states 3 (record { start = λ _. 1; step = λ s _ _. (s + 1) % 3; result = λ s. s }) };

    ghost laws = { Prim.search rules };

    fn start(&self, v: u32) -> u32 {
        if v < 32 { 1 } else { 0 }
    }

    fn step(&self, s: u32, v: u32, w: u32) -> u32 {
        if s < 3 && v < 32 && w < 32 {
            (s + 1) % 3
        } else {
            0
        }
    }

    fn result(&self, s: u32) -> u32 {
        if s < 3 { s } else { 0 }
    }
}

// Whether a tally moves sets as its step moves one state after the other.
fn moves_as_steps<T: Tally>(tally: &T, set: u64, v: u32, w: u32, target: u64) -> bool {
    let mut image = 0u64;
    let mut preimage = 0u64;
    for s in 0..64u32 {
        let next = tally.step(s, v, w);
        if set.contains(s) {
            image = image.with(next);
            if target.contains(next) {
                preimage = preimage.with(s);
            }
        }
    }
    tally.image(set, v, w) == image && tally.preimage(set, v, w, target) == preimage
}

fn check_moves<T: Tally>(rt: &impl Abort, tally: &T) {
    for v in HATCHINGS {
        for w in HATCHINGS {
            for set in SETS {
                for target in SETS {
                    assert!(rt; moves_as_steps(tally, set, v, w, target));
                }
            }
        }
    }
}

#[test]
fn stretch_counter_moves_sets(rt: HostRuntime) {
    check_moves(
        &rt,
        &StretchCounter {
            rule: FormulaRule::AtMost,
        },
    );
}

#[test]
fn plateau_counter_moves_sets(rt: HostRuntime) {
    check_moves(&rt, &PlateauCounter);
}

#[test]
fn a_tally_of_three_functions_moves_sets(rt: HostRuntime) {
    check_moves(&rt, &PartCounter);
}
