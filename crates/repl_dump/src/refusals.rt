//! How a refused dump is told.

ghost use Rattle.std.specs.Prelude.{◌≡◌, IfOk};
ghost use Rattle.repl_dump.specs.Refusals.{refusal_text};

use cat_types::{DumpRefusal, NoMemory, Text, TextFault};
use std::alloc::Global;

/// The text that tells why a dump is refused.
pub fn refusal_text(alloc: Global, refusal: DumpRefusal) -> Result<Text, NoMemory>
    ensures { IfOk result (λ text. text ≡ refusal_text refusal) }
{
    match refusal {
        DumpRefusal::NoSuchDb => text_of(alloc, "no such database"),
        DumpRefusal::IsReplica => text_of(alloc, "is a replica"),
        DumpRefusal::BadRange => text_of(alloc, "bad range"),
        DumpRefusal::DatabaseGone(born) => {
            let text = format!(in alloc; "database gone, born {born}")?;
            text_of(alloc, text.as_str())
        }
        DumpRefusal::MissingEvents(first) => {
            let text = format!(in alloc; "missing events: first kept {first}")?;
            text_of(alloc, text.as_str())
        }
        DumpRefusal::UsedUp => text_of(alloc, "dump numbers used up"),
    }
}

// A text of its own. One that is too long for a text counts as want of memory.
fn text_of(alloc: Global, text: &str) -> Result<Text, NoMemory>
    ensures { IfOk result (λ made. made ≡ text.now) }
{
    match Text::of(alloc, text) {
        Ok(text) => Ok(text),
        Err(TextFault::TooLong) => Err(NoMemory),
        Err(TextFault::NoMemory) => Err(NoMemory),
    }
}
