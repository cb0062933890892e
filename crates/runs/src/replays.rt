// Makes calls on a sheet, one or a whole list.
ghost use Rattle.std.specs.Prelude.{◌≡◌, map, IfOk};
ghost use Rattle.sheet.specs.Ledger.{ledger};
ghost use Rattle.runs.specs.Requests.{request};
ghost use Rattle.runs.specs.Run.{replied, Brings, Run, RunsInto};

use crate::call::Call;
use crate::reply::{Answer, Reply};
use faults::SheetFault;
use questions::{axis, bending, extremes};
use section::Part;
use sheet::Sheet;
use std::alloc::{AllocError, Global};

// Opens a new sheet and makes every call in order: the sheet, and the reply to each call. A pair: its caller takes it apart at once.
#[tactic(auto, using(crate::proofs::Replies::run_steps))]
pub fn replay<P: Part>(heap: Global, calls: &[Call<P>]) -> Result<(Sheet, Vec<Reply>), AllocError>
    ensures { IfOk result (λ p. Run (map (request P.pushes P.pulls) calls.now) p.1.items (ledger p.0)) }
{
    let mut sheet = Sheet::new();
    let mut replies = Vec::new(heap);
    // a `for` (tried: of `calls.iter().map(..).collect(heap)` the proof knows nothing of the replies)
    for call in calls {
        replies.push(answer(&mut sheet, call))?;
    }
    Ok((sheet, replies))
}

// The same with no memory of its own: the replies go into a slice, which has to be as long as the
// calls; else nothing is done.
#[tactic(auto, using(crate::proofs::Replies::run_steps))]
pub fn replay_into<P: Part>(calls: &[Call<P>], replies: &mut [Reply]) -> Option<Sheet>
    ensures { RunsInto (map (request P.pushes P.pulls) calls.now) replies.old result replies.new }
{
    if replies.len() != calls.len() {
        return None;
    }
    let mut sheet = Sheet::new();
    // by index (tried: of a slice whose `iter_mut` was zipped with the calls only the length is known)
    for (i, call) in calls.iter().enumerate() {
        replies[i] = answer(&mut sheet, call);
    }
    Some(sheet)
}

// Makes one call.
#[tactic(auto, using(crate::proofs::Changing::brings_change))]
pub fn answer<P: Part>(sheet: &mut Sheet, call: &Call<P>) -> Reply
    ensures { Brings (ledger sheet.old) (request P.pushes P.pulls call.now) result (ledger sheet.new) }
{
    match call {
        Call::Place { slot, plate } => done(sheet.place(*slot, *plate)),
        Call::Lift { slot } => done(sheet.lift(*slot)),
        Call::Lower { levels } => done(sheet.lower(*levels)),
        Call::Enter { slot, load, effect } => done(sheet.enter(*slot, *load, *effect)),
        Call::Strike { slot } => done(sheet.strike(*slot)),
        Call::Extremes { state, kind } => Ok(Answer::Extremes(extremes(sheet, state, *kind))),
        Call::Axis { part, sense } => Ok(Answer::Axis(axis(sheet, part, *sense)?)),
        Call::Bending { part, state } => Ok(Answer::Bending(bending(sheet, part, state)?)),
    }
}

fn done(change: Result<(), SheetFault>) -> Reply
    ensures { result ≡ replied change }
{
    change?;
    Ok(Answer::Done)
}
