//! What the first step of a dump tells.

ghost use Rattle.std.specs.Prelude.{◌≡◌, IfErr, IfOk};
ghost use Rattle.desk.specs.Walks.{began_answer};
ghost use Rattle.repl_dump.specs.Beginnings.{AnswersBegin, Unbegins, began_of};

use crate::dumping::DumpAnswer;
use cat_types::{Answer, Item};

/// What the beginning of a dump told.
#[derive(Drop)]
pub struct Beginning {
    pub dump: u64,
    pub source: [u8; 16],
    pub born: u64,
    pub begin: u64,
    pub end: u64,
    pub first: Option<Item>,
}

/// What the answer to the first step tells: the dump was begun, or how it ends already.
pub fn begun(answer: Answer) -> Result<Beginning, DumpAnswer>
    requires { AnswersBegin answer }
    ensures begun { IfOk result (λ beginning. answer ≡ began_answer (began_of beginning)) }
    ensures unbegun { IfErr result (λ told. Unbegins told answer) }
{
    match answer {
        Answer::Began {
            dump,
            source,
            born,
            begin,
            end,
            item,
        } => Ok(Beginning {
            dump,
            source,
            born,
            begin,
            end,
            first: item,
        }),
        Answer::DumpRefused(refusal) => Err(DumpAnswer::Refused(refusal)),
        Answer::StoreFault => Err(DumpAnswer::StoreFault),
        Answer::NoMemory => Err(DumpAnswer::NoMemory),
        Answer::Reply(_)
        | Answer::Table(_)
        | Answer::NoTable
        | Answer::Parts { .. }
        | Answer::Sealed(_)
        | Answer::Events { .. }
        | Answer::Ended
        | Answer::Kept(_)
        | Answer::NotOpen => unreachable!(),
    }
}
