//! Structs that are only read.

use crate::again::Reader;
use crate::faults::told_fault;
use cat_types::Text;
use std::alloc::Global;
use table_cases::Unable;
use table_structs::{TableRequest, read_environment_context, read_get_table_request};

/// The database and the table that the request in front asks for, each `none` where it is absent.
pub fn told_request(alloc: Global, reader: &mut Reader<'_>) -> Result<String, Unable> {
    match read_get_table_request(alloc, reader) {
        Ok(request) => told_names(alloc, &request),
        Err(fault) => told_fault(alloc, fault),
    }
}

// The names of a request.
fn told_names(alloc: Global, request: &TableRequest) -> Result<String, Unable> {
    let db = text_or_none(request.db.as_ref());
    let table = text_or_none(request.table.as_ref());
    Ok(format!(in alloc; "{db} {table}")?)
}

/// A text, where there is one.
pub fn text_or_none<'a>(text: Option<&'a Text>) -> &'a str {
    match text {
        Some(text) => text.as_str(),
        None => "none",
    }
}

/// `read` where a context stands in front, of which nothing is kept.
pub fn told_context(alloc: Global, reader: &mut Reader<'_>) -> Result<String, Unable> {
    match read_environment_context(alloc, reader) {
        Ok(()) => Ok(String::from_str(alloc, "read")?),
        Err(fault) => told_fault(alloc, fault),
    }
}
