//! Telling what was done on the output, on the sink of errors why the program doesn't end well, and the
//! statuses.

ghost use Rattle.std.specs.Prelude.{◌≡◌, ◌≢◌, ◌⊎◌, IfOk, List, OnErr, string_bytes, ℕ};
ghost use Rattle.hms_outside.specs.Causes.{HasCause, Rose};
ghost use Rattle.ms_session.specs.declared.end.End.{End};
ghost use Rattle.ms_cli.specs.Telling.{Says, TellsEnd, TellsLine, TellsNothing, Writes, refusal_line, refusal_status, refused_dump_line, status_of, usage_line};

use crate::Usage;
use cat_types::{DumpRefusal, NoMemory};
use hms_outside::{Outage, Sink, send_all};
use ms_journal::OpenFault;
use ms_session::End;
use repl_dump::refusal_text;
use std::alloc::{AllocError, Global};

/// The status of a session's end.
pub fn status(end: End) -> u8
    ensures { result ≡ status_of end }
{
    match end {
        End::Done | End::Shutdown => 0,
        End::ReadFault => 3,
        End::WriteFault => 4,
        End::Truncated(_) | End::BadWire(_, _) | End::TooLarge(_) => 7,
        End::NoMemory => 10,
    }
}

/// The status where a store isn't made or opened.
pub fn refused_status(fault: OpenFault) -> u8
    ensures { result ≡ refusal_status fault }
{
    match fault {
        OpenFault::DiskFault => 5,
        OpenFault::NotEmpty | OpenFault::Foreign | OpenFault::Broken(_) => 6,
        OpenFault::NoMemory => 10,
    }
}

/// Tells how a session ended. A good end has no line.
pub fn tell<E: Sink>(alloc: Global, errors: &mut E, end: End) -> Result<(), Outage>
    ensures told { TellsEnd end result (E.held errors.old) (E.held errors.new) }
    ensures cause { HasCause (E.faults errors.old) (E.faults errors.new) result }
{
    match end {
        End::Done | End::Shutdown => Ok(()),
        End::Truncated(place) => {
            tell_text(errors, format!(in alloc; "wire: truncated at {place}\n"))
        }
        End::BadWire(code, place) => {
            tell_text(errors, format!(in alloc; "wire: bad {code} at {place}\n"))
        }
        End::TooLarge(place) => {
            tell_text(errors, format!(in alloc; "wire: too large at {place}\n"))
        }
        End::ReadFault => tell_line(errors, "read fault\n"),
        End::WriteFault => tell_line(errors, "write fault\n"),
        End::NoMemory => tell_line(errors, "out of memory\n"),
    }
}

/// Tells why a store isn't made or opened.
pub fn tell_refusal<E: Sink>(alloc: Global, errors: &mut E, fault: OpenFault) -> Result<(), Outage>
    ensures told { TellsLine (refusal_line fault) result (E.held errors.old) (E.held errors.new) }
    ensures cause { HasCause (E.faults errors.old) (E.faults errors.new) result }
{
    match fault {
        OpenFault::NotEmpty => tell_line(errors, "store: not empty\n"),
        OpenFault::Foreign => tell_line(errors, "store: foreign\n"),
        OpenFault::Broken(at) => { tell_text(errors, format!(in alloc; "store: broken at {at}\n")) }
        OpenFault::DiskFault => tell_line(errors, "store fault\n"),
        OpenFault::NoMemory => tell_line(errors, "out of memory\n"),
    }
}

/// Tells why the words name no command.
pub fn tell_usage<E: Sink>(errors: &mut E, usage: Usage) -> Result<(), Outage>
    ensures told { TellsLine (usage_line usage) result (E.held errors.old) (E.held errors.new) }
    ensures cause { HasCause (E.faults errors.old) (E.faults errors.new) result }
{
    match usage {
        Usage::Words => tell_line(errors, "usage\n"),
        Usage::LongWord => tell_line(errors, "usage: word\n"),
        Usage::Id => tell_line(errors, "usage: HEXID\n"),
    }
}

/// Tells why a dump was refused.
pub fn tell_refused_dump<E: Sink>(
    alloc: Global,
    errors: &mut E,
    refusal: DumpRefusal,
) -> Result<(), Outage>
    ensures told { TellsLine (refused_dump_line refusal) result (E.held errors.old) (E.held errors.new) }
    ensures cause { HasCause (E.faults errors.old) (E.faults errors.new) result }
{
    match refusal_text(alloc, refusal) {
        Ok(text) => {
            let cause = text.as_str();
            tell_text(errors, format!(in alloc; "dump refused: {cause}\n"))
        }
        Err(NoMemory) => Err(Outage::NoMemory),
    }
}

/// Writes a line on the output, tells how that ended, and returns the status.
pub fn say_done<K: Sink, E: Sink>(
    alloc: Global,
    output: &mut K,
    errors: &mut E,
    text: Result<String, AllocError>,
) -> u8
    ensures says { (line : List ℕ) → IfOk text (λ t. string_bytes t ≡ line) → Says line (K.held output.old) (K.held output.new) (record { held = E.held errors.old; faults = E.faults errors.old }) (record { held = E.held errors.new; faults = E.faults errors.new }) result }
    ensures status { (result ≡ 0) ⊎ ((result ≡ 4) ⊎ (result ≡ 10)) }
    ensures write { result ≡ 4 → Rose (K.faults output.old) (K.faults output.new) }
    ensures output_stays { result ≢ 4 → K.faults output.new ≡ K.faults output.old }
{
    let end = say(output, text);
    let _ = tell(alloc, errors, end);
    status(end)
}

/// Writes a line on the output, if there was memory for it, and returns how that ended.
pub fn say<K: Sink>(output: &mut K, text: Result<String, AllocError>) -> End
    ensures wrote { (line : List ℕ) → IfOk text (λ t. string_bytes t ≡ line) → Writes line result (K.held output.old) (K.held output.new) }
    ensures kind { (result ≡ End.Done) ⊎ ((result ≡ End.WriteFault) ⊎ (result ≡ End.NoMemory)) }
    ensures write { result ≡ End.WriteFault → Rose (K.faults output.old) (K.faults output.new) }
    ensures output_stays { result ≢ End.WriteFault → K.faults output.new ≡ K.faults output.old }
{
    match text {
        Ok(line) => match send_all(output, line.as_str().as_bytes()) {
            Ok(()) => End::Done,
            Err(Outage::Failed) => End::WriteFault,
            Err(Outage::NoMemory) => End::NoMemory,
        },
        Err(AllocError) => End::NoMemory,
    }
}

/// Writes a line, as far as the sink takes it.
pub fn tell_line<E: Sink>(errors: &mut E, line: &str) -> Result<(), Outage>
    ensures told { TellsLine line.now result (E.held errors.old) (E.held errors.new) }
    ensures cause { HasCause (E.faults errors.old) (E.faults errors.new) result }
{
    send_all(errors, line.as_bytes())
}

// Writes a line, if there was memory for it.
fn tell_text<E: Sink>(errors: &mut E, line: Result<String, AllocError>) -> Result<(), Outage>
    ensures ok { IfOk line (λ text. TellsLine (string_bytes text) result (E.held errors.old) (E.held errors.new)) }
    ensures err { OnErr line (TellsNothing result (E.held errors.old) (E.held errors.new)) }
    ensures cause { HasCause (E.faults errors.old) (E.faults errors.new) result }
{
    match line {
        Ok(text) => tell_line(errors, text.as_str()),
        Err(_) => Err(Outage::NoMemory),
    }
}
