//! Refusals that no catalogue decides.

ghost use Rattle.std.specs.Prelude.{◌≡◌, IfOk};
ghost use Rattle.ms_calls.specs.Refusals.{bad_argument, invalid_request, out_of_memory, store_fault, unknown_method};
ghost use Rattle.cat_types.specs.declared.replies.Reply.TheVariants.{Refused};

use cat_types::{NoMemory, Reply, Text};
use std::alloc::Global;

// The refusal with this number and text.
fn refused(alloc: Global, number: u8, text: &str) -> Result<Reply, NoMemory>
    ensures { IfOk result (λ reply. reply ≡ Refused number text.now) }
{
    match Text::of(alloc, text) {
        Ok(text) => Ok(Reply::Refused(number, text)),
        Err(_) => Err(NoMemory),
    }
}

/// The answer to a message with a name that nobody knows.
pub fn unknown_method(alloc: Global) -> Result<Reply, NoMemory>
    ensures { IfOk result (λ reply. reply ≡ unknown_method) }
{
    refused(alloc, 9, "unknown method")
}

/// The answer to a call whose argument under this id is missing, or has a text that isn't UTF-8.
pub fn bad_argument(alloc: Global, id: i16) -> Result<Reply, NoMemory>
    ensures { IfOk result (λ reply. reply ≡ bad_argument id) }
{
    let text = format!(in alloc; "bad argument {id}")?;
    refused(alloc, 10, text.as_str())
}

/// The answer to a call for which there was no memory.
pub fn out_of_memory(alloc: Global) -> Result<Reply, NoMemory>
    ensures { IfOk result (λ reply. reply ≡ out_of_memory) }
{
    refused(alloc, 11, "out of memory")
}

/// The answer to a change that could not be stored.
pub fn store_fault(alloc: Global) -> Result<Reply, NoMemory>
    ensures { IfOk result (λ reply. reply ≡ store_fault) }
{
    refused(alloc, 8, "store fault")
}

/// The answer to a request that asks for what can't be, as the values of a name that can't be read.
pub fn invalid_request(alloc: Global) -> Result<Reply, NoMemory>
    ensures { IfOk result (λ reply. reply ≡ invalid_request) }
{
    refused(alloc, 13, "invalid request")
}
