//! What calls of a journal return, in words.

use hms_outside::MemDisk;
use ms_journal::{Journal, OpenFault, Payloads};
use std::alloc::Global;
use std::fmt::Write;
use table_cases::{Unable, digits_of};

/// A journal that was opened, with its payloads, or why it wasn't.
pub type Opening = Result<(Journal<MemDisk>, Payloads), (OpenFault, MemDisk)>;

/// The id, the base and the payloads that opening gave, or its fault.
pub fn told_opening(alloc: Global, opening: &Opening) -> Result<String, Unable> {
    match opening {
        Ok((journal, payloads)) => {
            let id = digits_of(alloc, &journal.id())?;
            let base = journal.base();
            let listed = told_payloads(alloc, payloads)?;
            Ok(format!(in alloc; "{id} {base} {listed}")?)
        }
        Err((fault, _)) => told_fault(alloc, *fault),
    }
}

/// Why a journal wasn't made or opened.
pub fn told_fault(alloc: Global, fault: OpenFault) -> Result<String, Unable> {
    Ok(format!(in alloc; "{fault:?}")?)
}

/// How many payloads there are, and with their offsets the first two of them and the last.
pub fn told_payloads(alloc: Global, payloads: &Payloads) -> Result<String, Unable> {
    let mut words = String::new(alloc);
    let count = payloads.len();
    write!(words, "[{count}")?;
    for (i, payload) in payloads.as_slice().iter().enumerate() {
        if i < 2 || i + 1 >= count {
            let digits = digits_of(alloc, payload.bytes.as_slice())?;
            write!(words, " {}:{digits}", payload.at)?;
        }
    }
    words.push_str("]")?;
    Ok(words)
}
