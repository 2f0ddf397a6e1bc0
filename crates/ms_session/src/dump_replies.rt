//! Replies to dumps and trims.

ghost use Rattle.std.specs.Prelude.{◌≡◌, ◌++◌, codes, IfOk};
ghost use Rattle.cat_types.specs.declared.replies.Reply.TheVariants.{Refused};
ghost use Rattle.ms_session.specs.DumpReplies.{AnswersTrim, IsTrimReply, dump_refused, dump_reply, told_refusal};

use cat_types::{Answer, DumpRefusal, NoMemory, Reply, Text};
use ms_calls::{out_of_memory, store_fault};
use ms_structs::cut_long;
use repl_dump::{DumpAnswer, refusal_text};
use std::alloc::Global;

/// The reply that tells how a dump ended.
pub fn reply_to_dump(alloc: Global, answer: DumpAnswer) -> Result<Reply, NoMemory>
    ensures { IfOk result (λ reply. reply ≡ dump_reply answer) }
{
    match answer {
        DumpAnswer::Done { dir, last } => Ok(Reply::Dumped(dir, last)),
        DumpAnswer::Refused(refusal) => reply_to_refusal(alloc, refusal),
        DumpAnswer::FolderFault => refused_dump(alloc, "folder fault"),
        DumpAnswer::StoreFault => store_fault(alloc),
        DumpAnswer::NoMemory => out_of_memory(alloc),
    }
}

// The reply that tells for what a dump was refused.
fn reply_to_refusal(alloc: Global, refusal: DumpRefusal) -> Result<Reply, NoMemory>
    ensures { IfOk result (λ reply. reply ≡ told_refusal refusal) }
{
    match refusal {
        DumpRefusal::NoSuchDb => refused(alloc, 2, "no such object"),
        DumpRefusal::IsReplica
        | DumpRefusal::BadRange
        | DumpRefusal::DatabaseGone(_)
        | DumpRefusal::MissingEvents(_)
        | DumpRefusal::UsedUp => {
            let cause = refusal_text(alloc, refusal)?;
            refused_dump(alloc, cause.as_str())
        }
    }
}

// The refusal of a dump for this cause.
fn refused_dump(alloc: Global, cause: &str) -> Result<Reply, NoMemory>
    ensures { IfOk result (λ reply. reply ≡ dump_refused cause.now) }
{
    let text = format!(in alloc; "dump refused: {cause}")?;
    refused(alloc, 14, text.as_str())
}

// The refusal with this number and text.
fn refused(alloc: Global, number: u8, text: &str) -> Result<Reply, NoMemory>
    ensures { IfOk result (λ reply. reply ≡ Refused number text.now) }
{
    match Text::of(alloc, text) {
        Ok(text) => Ok(Reply::Refused(number, text)),
        Err(_) => Err(NoMemory),
    }
}

/// The reply that a desk's answer to a trim makes.
pub fn reply_to_trim(alloc: Global, answer: Answer) -> Result<Reply, NoMemory>
    requires { AnswersTrim answer }
    ensures { IfOk result (IsTrimReply answer) }
{
    match answer {
        Answer::Kept(first) => Ok(Reply::Big(cut_long(first))),
        Answer::StoreFault => store_fault(alloc),
        Answer::NoMemory => out_of_memory(alloc),
        Answer::Reply(_)
        | Answer::Began { .. }
        | Answer::Table(_)
        | Answer::NoTable
        | Answer::Parts { .. }
        | Answer::Sealed(_)
        | Answer::Events { .. }
        | Answer::Ended
        | Answer::DumpRefused(_)
        | Answer::NotOpen => unreachable!(),
    }
}
