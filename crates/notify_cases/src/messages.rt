//! The messages of events.

use cat_types::{Event, NoMemory};
use change_codec::get_event;
use notify_log::message;
use std::alloc::Global;
use table_cases::{Answers, Unable, bytes_of};

/// The message of the event that an input spells in hexadecimal digits.
pub struct Messages;

impl Answers for Messages {
    fn answer(&self, alloc: Global, input: &str) -> Result<String, Unable> {
        let bytes = bytes_of(alloc, input)?;
        match get_event(alloc, &bytes) {
            Ok(event) => told(alloc, &event),
            Err(_) => Err(Unable::Form),
        }
    }
}

fn told(alloc: Global, event: &Event) -> Result<String, Unable> {
    match message(alloc, event) {
        Ok(text) => Ok(String::from_str(alloc, text.as_str())?),
        Err(NoMemory) => Err(Unable::NoMemory),
    }
}
