//! Gathering replies.

ghost use Rattle.std.specs.Prelude.{◌≡◌, ◌⊎◌, [], IfOk, MatchResult, OnOk};
ghost use Rattle.ms_calls.specs.Methods.{method_named};
ghost use Rattle.ms_calls.specs.Refusals.{out_of_memory};
ghost use Rattle.ms_calls.specs.Replies.{CanReply};
ghost use Rattle.ms_session.specs.Replies.{reply_bytes};

use cat_types::{NoMemory, Reply};
use ms_calls::{Method, out_of_memory, put_reply_of};
use std::alloc::Global;
use thrift_binary::{Head, WireWriter};

/// Gathers the reply that is due to a message, or, where there is no memory for it, the reply that
/// says so.
#[tactic(auto, unfolding(crate::specs::Replies::reply_bytes))]
pub fn gather_reply(
    alloc: Global,
    head: &Head,
    method: Option<Method>,
    due: Result<Reply, NoMemory>,
    writer: &mut WireWriter,
) -> Result<(), NoMemory>
    requires empty { writer.old ≡ [] }
    requires named { method ≡ method_named head.now.name }
    requires can { IfOk due (CanReply method) }
    ensures { OnOk result (MatchResult due (λ reply. (writer.new ≡ reply_bytes head.now reply) ⊎ (writer.new ≡ reply_bytes head.now out_of_memory)) (λ _. writer.new ≡ reply_bytes head.now out_of_memory)) }
{
    if let Ok(reply) = due {
        let put = put_reply_of(alloc, writer, head, method, &reply);
        drop(reply);
        match put {
            Ok(()) => return Ok(()),
            Err(NoMemory) => writer.clear(),
        }
    }
    gather_refusal(alloc, head, method, writer)
}

// Gathers the reply that says that there was no memory.
#[tactic(auto, unfolding(crate::specs::Replies::reply_bytes))]
fn gather_refusal(
    alloc: Global,
    head: &Head,
    method: Option<Method>,
    writer: &mut WireWriter,
) -> Result<(), NoMemory>
    requires named { method ≡ method_named head.now.name }
    requires empty { writer.old ≡ [] }
    ensures { OnOk result (writer.new ≡ reply_bytes head.now out_of_memory) }
{
    let refusal = out_of_memory(alloc)?;
    put_reply_of(alloc, writer, head, method, &refusal)
}
