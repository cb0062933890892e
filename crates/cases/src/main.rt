//! Makes the calls that standard input lists, each with the reply that is expected of it, and counts how many replies agree.
#![tactic(auto)]

mod answers;
mod calls;
mod case;
mod line;
mod lists;
mod parts;
mod records;
mod sort;
mod stop;
mod tally;
mod texts;
mod words;

use crate::case::Case;
use crate::tally::Tally;
use anyhow::ensure;
use std::io::{BufRead, BufReader};

// A line past this one is shown with its number.
const LAST_NUMBER: u64 = u32::MAX as u64;

fn main(rt: HostRuntime) -> anyhow::Result<()> {
    run(&rt)
}

fn run(rt: &HostRuntime) -> anyhow::Result<()> {
    let mut case = Case::new(rt.alloc());
    let mut tally = Tally::default();
    let lines = BufReader::new(rt.alloc(), rt.stdin())?.lines(rt.alloc());
    for (number, line) in (1u64..).zip(lines) {
        case.follow(rt, &mut tally, number.min(LAST_NUMBER), line?.as_str())?;
    }
    case.end(rt, &mut tally)?;
    conclude(rt, &tally)
}

fn conclude(rt: &impl Print, tally: &Tally) -> anyhow::Result<()> {
    tally.print(rt)?;
    ensure!(tally.all_agree(), "some replies differ");
    rt.println("all agree")?;
    Ok(())
}
