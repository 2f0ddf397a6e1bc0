//! Carrying out what a message asks.

ghost use Rattle.std.specs.Prelude.{◌≡◌, ◌≤◌, IfOk, List, Option, Some, ℕ};
ghost use Rattle.cat_types.specs.declared.replies.Reply.{Reply};
ghost use Rattle.desk.specs.Adds.{Adds};
ghost use Rattle.desk.specs.History.{Legal, NoneAbove};
ghost use Rattle.ms_calls.specs.Asked.{CameAs, HasOwnMethod, IfClient, IfPlain};
ghost use Rattle.ms_calls.specs.Replies.{CanReply};
ghost use Rattle.ms_calls.specs.declared.method.Method.{Method};
ghost use Rattle.ms_session.specs.Turns.{AnswersCall, Did, IsReplyTo, Shelf, shelf_of};

use crate::dump_replies::{reply_to_dump, reply_to_trim};
use cat_types::{Answer, Call, NoMemory, Reply, Step, Text};
use desk::Desk;
use hms_outside::{Clock, Folder};
use ms_calls::{Asked, bad_argument, out_of_memory, store_fault, unknown_method};
use repl_dump::dump;
use std::alloc::Global;

/// Carries out what a message asks, and answers the reply that is due to it. After `NoMemory` it was
/// carried out too, and only the reply is missing. Only a dump needs the folder.
pub fn carry_out<D: Desk, F: Folder, C: Clock>(
    alloc: Global,
    asked: Asked,
    desk: &mut D,
    folder: &mut F,
    clock: &mut C,
) -> Result<Reply, NoMemory>
    requires goes_on { asked ≡ Asked.Shutdown → ⊥ }
    ensures caller { D.caller desk.new ≡ D.caller desk.old }
    ensures start { D.start desk.new ≡ D.start desk.old }
    ensures legal { Legal (D.start desk.old) (D.history desk.old) → Legal (D.start desk.new) (D.history desk.new) }
    ensures counted { NoneAbove (D.faults desk.old) (D.history desk.old) → NoneAbove (D.faults desk.new) (D.history desk.new) }
    ensures clock_later { C.faults clock.old ≤ C.faults clock.new }
    ensures carried { Adds D.alone (D.caller desk.old) (D.history desk.old) (D.history desk.new) (Did asked (C.moments clock.old) (C.moments clock.new) (shelf_of (F.files folder.old) (F.faults folder.old)) (shelf_of (F.files folder.new) (F.faults folder.new)) result) }
    ensures folder_later { F.faults folder.old ≤ F.faults folder.new }
    ensures can { (method : Option Method) → IfPlain asked (CanReply method) → IfClient asked (CameAs method) → HasOwnMethod method asked → IfOk result (CanReply method) }
{
    match asked {
        Asked::Client(call) => call_desk(alloc, call, desk, clock),
        Asked::Dump {
            db,
            from,
            to,
            limit,
        } => dump_database(alloc, db, from, to, limit, desk, folder),
        Asked::Trim(upto) => trim_events(alloc, upto, desk),
        Asked::Plain(reply) => Ok(reply),
        Asked::Unknown => unknown_method(alloc),
        Asked::BadArgument(id) => bad_argument(alloc, id),
        Asked::Shutdown => unreachable!(),
    }
}

// Takes one step of the desk for a call, whatever the folder holds.
fn call_desk<D: Desk, C: Clock>(
    alloc: Global,
    call: Call,
    desk: &mut D,
    clock: &mut C,
) -> Result<Reply, NoMemory>
    ensures caller { D.caller desk.new ≡ D.caller desk.old }
    ensures start { D.start desk.new ≡ D.start desk.old }
    ensures legal { Legal (D.start desk.new) (D.history desk.new) }
    ensures counted { NoneAbove (D.faults desk.new) (D.history desk.new) }
    ensures clock_later { C.faults clock.old ≤ C.faults clock.new }
    ensures carried { (shelf : Shelf) → Adds D.alone (D.caller desk.old) (D.history desk.old) (D.history desk.new) (Did (Asked.Client call) (C.moments clock.old) (C.moments clock.new) shelf shelf result) }
    ensures can { (method : Option Method) → CameAs method call → IfOk result (CanReply method) }
{
    let moment = clock.now();
    reply_of(alloc, desk.step(Step::Client { call, moment }))
}

// Dumps a database, whatever the clock would answer.
fn dump_database<D: Desk, F: Folder>(
    alloc: Global,
    db: Text,
    from: Option<i64>,
    to: Option<i64>,
    limit: Option<i64>,
    desk: &mut D,
    folder: &mut F,
) -> Result<Reply, NoMemory>
    ensures caller { D.caller desk.new ≡ D.caller desk.old }
    ensures start { D.start desk.new ≡ D.start desk.old }
    ensures legal { Legal (D.start desk.old) (D.history desk.old) → Legal (D.start desk.new) (D.history desk.new) }
    ensures counted { NoneAbove (D.faults desk.old) (D.history desk.old) → NoneAbove (D.faults desk.new) (D.history desk.new) }
    ensures folder_later { F.faults folder.old ≤ F.faults folder.new }
    ensures carried { (clock : Option (List ℕ)) → Adds D.alone (D.caller desk.old) (D.history desk.old) (D.history desk.new) (Did (Asked.Dump db from to limit) clock clock (shelf_of (F.files folder.old) (F.faults folder.old)) (shelf_of (F.files folder.new) (F.faults folder.new)) result) }
    ensures can { IfOk result (CanReply (Some Method.ReplDump)) }
{
    let answer = dump(alloc, desk, folder, &db, from, to, limit);
    drop(db);
    reply_to_dump(alloc, answer)
}

// Takes one step of the desk for a trim, whatever the folder holds, and whatever the clock would
// answer.
fn trim_events<D: Desk>(alloc: Global, upto: i64, desk: &mut D) -> Result<Reply, NoMemory>
    ensures caller { D.caller desk.new ≡ D.caller desk.old }
    ensures start { D.start desk.new ≡ D.start desk.old }
    ensures legal { Legal (D.start desk.new) (D.history desk.new) }
    ensures counted { NoneAbove (D.faults desk.new) (D.history desk.new) }
    ensures carried { (clock : Option (List ℕ)) → (shelf : Shelf) → Adds D.alone (D.caller desk.old) (D.history desk.old) (D.history desk.new) (Did (Asked.Trim upto) clock clock shelf shelf result) }
    ensures can { IfOk result (CanReply (Some Method.TrimEvents)) }
{
    reply_to_trim(alloc, desk.step(Step::Trim { upto }))
}

// The reply that a desk's answer to a call makes.
fn reply_of(alloc: Global, answer: Answer) -> Result<Reply, NoMemory>
    requires { AnswersCall answer }
    ensures { IfOk result (IsReplyTo answer) }
{
    match answer {
        Answer::Reply(reply) => Ok(reply),
        Answer::StoreFault => store_fault(alloc),
        Answer::NoMemory => out_of_memory(alloc),
        Answer::Began { .. }
        | Answer::Table(_)
        | Answer::NoTable
        | Answer::Parts { .. }
        | Answer::Sealed(_)
        | Answer::Events { .. }
        | Answer::Ended
        | Answer::DumpRefused(_)
        | Answer::Kept(_)
        | Answer::NotOpen => unreachable!(),
    }
}
