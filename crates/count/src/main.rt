// Counts finished rows: one line of standard input a row, hatchings as decimal numbers apart by blanks.
#![tactic(auto)]

use anyhow::anyhow;
use counting::{Counts, count_line, whole_number};
use std::io::{BufRead, BufReader};
use std::{env, io};

// Writes what was counted, `name=count` for each; a run of 8 is eight or more.
// No Display of the counts: it would not know r, and a promise of its bytes is past what the check computes.
fn show(rt: &HostRuntime, line: u64, r: u32, c: Counts) -> io::Result<()> {
    print!(rt;
        "line {line}: always={} equal={} different={}",
        c.always, c.equal, c.different
    )?;
    print!(rt;
        " less={} at-most={} within-{r}={}",
        c.less, c.at_most, c.within
    )?;
    let more = if c.longest_run < 8 { "" } else { "+" };
    println!(rt;
        " both-at-least-{r}={} longest-run={}{more}",
        c.both_at_least, c.longest_run
    )
}

// The r of the last two formulas: the one argument, or 1.
fn argument(rt: &HostRuntime) -> anyhow::Result<u32> {
    let mut args = env::args(rt)?;
    let _program = args.next();
    let Some(text) = args.next() else {
        return Ok(1);
    };
    match (whole_number(&text), args.next()) {
        (Some(r), None) => Ok(r),
        _ => Err(anyhow!("the one argument is r, a number from 0 to 4294967295")),
    }
}

fn run(rt: &HostRuntime) -> anyhow::Result<()> {
    let r = argument(rt)?;
    let lines = BufReader::new(rt.alloc(), rt.stdin())?.split(rt.alloc(), b'\n');
    for (number, line) in (1u64..).zip(lines) {
        let line = line?;
        match count_line(rt.alloc(), &line, r) {
            Ok(counts) => show(rt, number, r, counts)?,
            Err(fault) => println!(rt; "line {number}: {fault}")?,
        }
    }
    Ok(())
}

fn main(rt: HostRuntime) -> anyhow::Result<()> {
    run(&rt)
}
