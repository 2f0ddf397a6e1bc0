//! The words that the program was started with.

use std::alloc::{AllocError, Global};
use std::env;
use std::io::ErrorKind;
use std::rt::Env;

/// How many words stand before the command: the program's own name, the store and the dumps.
const BEFORE: usize = 3;

/// The words that the program was started with, or none where they can't be read as text.
pub fn words(rt: &(impl Env + Alloc<A = Global>)) -> Result<Vec<String>, AllocError> {
    let mut words = Vec::new(rt.alloc());
    match env::args(rt) {
        Ok(args) => {
            for word in args {
                words.push(word)?;
            }
            Ok(words)
        }
        Err(error) => {
            if error.kind() == ErrorKind::OutOfMemory {
                return Err(AllocError);
            }
            Ok(words)
        }
    }
}

/// The path of one of the store's files. Where the words name no store it is empty, and so names no
/// file: each call of such a disk fails.
pub fn path_of(alloc: Global, words: &[String], name: &str) -> Result<String, AllocError> {
    if words.len() < BEFORE {
        return Ok(String::new(alloc));
    }
    let store = words[1].as_str();
    format!(in alloc; "{store}/{name}")
}

/// The path of the folder of dumps. Where the words name none it is empty, and so a folder in which no
/// file can be.
pub fn dumps_of(alloc: Global, words: &[String]) -> Result<String, AllocError> {
    if words.len() < BEFORE {
        return Ok(String::new(alloc));
    }
    String::from_str(alloc, words[2].as_str())
}

/// The words of the command.
pub fn command_of(words: &[String]) -> &[String] {
    if words.len() < BEFORE {
        &[]
    } else {
        &words[BEFORE..]
    }
}
