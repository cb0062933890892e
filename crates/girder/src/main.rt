//! Works one girder from the empty sheet through all questions, and prints what was done and what came out.
#![tactic(auto)]

mod answers;
mod girder;
mod units;
mod words;

use crate::answers::{print_head, print_shear, print_studs};
use crate::girder::{Piece, calls, cover, deck, is_change};
use crate::words::{Asked, Told};
use runs::{Call, Reply};
use std::alloc::Global;
use std::io;

fn main(rt: HostRuntime) -> anyhow::Result<()> {
    run(&rt, rt.alloc())
}

fn run(rt: &impl Print, heap: Global) -> anyhow::Result<()> {
    let deck = deck()?;
    let calls = calls(heap, deck, cover()?)?;
    let (sheet, replies) = runs::replay(heap, calls.as_slice())?;
    print_head(rt)?;
    rt.println("\nChanges")?;
    print_replies(rt, calls.as_slice(), replies.as_slice(), is_change, ": ")?;
    rt.println("\nQuestions")?;
    print_replies(
        rt,
        calls.as_slice(),
        replies.as_slice(),
        |call| !is_change(call),
        "\n        ",
    )?;
    rt.println("\nQuestions of the sheet that this leaves")?;
    print_shear(rt, &sheet, None)?;
    print_shear(rt, &sheet, Some(960))?;
    print_studs(rt, &sheet, &deck)
}

// Those of the calls that are to be shown, each by its place in the list, with its reply.
fn print_replies<F: Fn(&Call<Piece>) -> bool>(
    rt: &impl Print,
    calls: &[Call<Piece>],
    replies: &[Reply],
    shown: F,
    between: &str,
) -> io::Result<()>
    requires { F.IsAlwaysCallable shown }
{
    for (number, (call, reply)) in (1u64..).zip(calls.iter().zip(replies)) {
        if shown(call) {
            println!(rt; "{number:>4}  {}{between}{}", Asked(call), Told(*reply))?;
        }
    }
    Ok(())
}
