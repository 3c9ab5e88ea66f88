// Shows what the assistant does, on a row of three parts: each call, its reply, and the palettes after it.
// A hatching that is still possible stands by itself, one that is struck in brackets.
#![tactic(auto)]

use record::Refusal;
use row::Row;
use rules::FormulaRule;
use std::io;
use tallies::StretchCounter;
use words::{WordSet, members};

type DemoRow = Row<FormulaRule, StretchCounter<FormulaRule>>;

// {0}, {0, 1} and {0, 1}
const LAID: [u32; 3] = [0b01, 0b11, 0b11];

// the result 2 alone
const TWO: u64 = 0b100;

// The stand, and for each part the hatchings that were laid there.
fn show_row(rt: &HostRuntime, row: &DemoRow) -> io::Result<()> {
    print!(rt; "    {}:", row.stand())?;
    for (laid, palette) in LAID.iter().zip(&row.record.current.palettes) {
        print!(rt; " |")?;
        for v in members(*laid) {
            if palette.contains(v) {
                print!(rt; " {v} ")?;
            } else {
                print!(rt; "({v})")?;
            }
        }
    }
    println!(rt; "|")
}

// A call that answers a number.
fn show(
    rt: &HostRuntime,
    call: &str,
    reply: Result<u32, Refusal>,
    row: &DemoRow,
) -> io::Result<()> {
    match reply {
        Ok(k) => println!(rt; "{call}: {k}")?,
        Err(refusal) => println!(rt; "{call}: refused, {}", refusal.number())?,
    }
    show_row(rt, row)
}

fn show_settle(rt: &HostRuntime, row: &mut DemoRow) -> io::Result<()> {
    let mut scratch = [0; 96];
    match row.settle(&mut scratch) {
        Ok((hatchings, results)) => {
            println!(rt; "settle: fallen hatchings {hatchings}, fallen results {results}")?
        }
        Err(refusal) => println!(rt; "settle: refused, {}", refusal.number())?,
    }
    show_row(rt, row)
}

fn show_look(rt: &HostRuntime, part: u32, number: u32, row: &DemoRow) -> io::Result<()> {
    match row.look(part, number) {
        Ok(Some(v)) => println!(rt; "look at part {part} from {number}: {v}"),
        Ok(None) => println!(rt; "look at part {part} from {number}: nothing"),
        Err(refusal) => println!(rt; "look: refused, {}", refusal.number()),
    }
}

fn run(rt: &HostRuntime) -> anyhow::Result<()> {
    let tally = StretchCounter {
        rule: FormulaRule::Equal,
    };
    let mut row = Row::new(FormulaRule::Always, tally);
    let reply = row.lay(3, 2, TWO, &LAID);
    show(rt, "lay 3 parts, 2 hatchings, result 2", reply, &row)?;
    show_settle(rt, &mut row)?;
    let reply = row.mark();
    show(rt, "mark", reply, &row)?;
    let reply = row.withdraw(1, 1);
    show(rt, "withdraw 1 from part 1", reply, &row)?;
    show_settle(rt, &mut row)?;
    let reply = row.back();
    show(rt, "back", reply, &row)?;
    let reply = row.back();
    show(rt, "back", reply, &row)?;
    show_look(rt, 1, 1, &row)?;
    show_look(rt, 2, 0, &row)?;
    Ok(())
}

fn main(rt: HostRuntime) -> anyhow::Result<()> {
    run(&rt)
}
