//! One run of the top call, over memory.

use crate::disks::disk_of;
use cat_values::Bytes;
use hms_outside::{Clock, Folder, MemClock, MemDisk, MemFolder, MemSink, MemSource, Sink, Source};
use ms_cli::{LocalEnd, run_local};
use std::alloc::{AllocError, Global};
use table_cases::{Unable, bytes_of};

/// What a run meets beside its output and its disk A.
#[derive(Drop)]
pub struct Stage {
    words: Vec<String>,
    source: MemSource,
    errors: MemSink,
    folder: MemFolder,
    clock: MemClock,
}

impl Stage {
    /// A stage with these words and this source. The clock's moments are 10, 20, 30 and 40.
    pub fn new(alloc: Global, words: Vec<String>, source: MemSource) -> Result<Stage, AllocError> {
        let moments = [10, 20, 30, 40].to_vec(alloc)?;
        Ok(Stage::at(alloc, words, source, moments))
    }

    /// The same with these moments of the clock.
    fn at(alloc: Global, words: Vec<String>, source: MemSource, moments: Vec<u64>) -> Stage {
        Stage {
            words,
            source,
            errors: MemSink::new(alloc, Vec::new(alloc)),
            folder: MemFolder::new(alloc, Vec::new(alloc)),
            clock: MemClock::new(moments),
        }
    }

    /// A stage without words, over a folder whose calls with these numbers, from 0, fail.
    pub fn failing(alloc: Global, fails: Vec<u64>) -> Result<Stage, AllocError> {
        let source = MemSource::new(Bytes::new(alloc), Vec::new(alloc));
        let mut stage = Stage::new(alloc, Vec::new(alloc), source)?;
        stage.folder = MemFolder::new(alloc, fails);
        Ok(stage)
    }

    /// Other words and another source, for a run at the same folder and clock.
    pub fn begin(&mut self, alloc: Global, words: Vec<String>, source: MemSource) {
        self.words = words;
        self.source = source;
        self.errors = MemSink::new(alloc, Vec::new(alloc));
    }

    /// The bytes of a file in the folder.
    pub fn file(&mut self, name: &str) -> Result<Option<Bytes>, Unable> {
        self.folder.get(name).or(Err(Unable::Outside))
    }

    /// Runs the top call over this disk A, and gives its status with the disks.
    pub fn run<K: Sink>(
        &mut self,
        alloc: Global,
        output: &mut K,
        disk: MemDisk,
    ) -> LocalEnd<MemDisk> {
        run_local(
            alloc,
            &self.words,
            &mut self.source,
            output,
            &mut self.errors,
            disk,
            MemDisk::new(alloc, Vec::new(alloc)),
            &mut self.folder,
            &mut self.clock,
        )
    }

    /// What was written to the sink of errors.
    pub fn errors(&self) -> &[u8] {
        self.errors.bytes()
    }

    /// The clock's next moment.
    pub fn moment(&mut self) -> u64 {
        self.clock.now()
    }

    /// What is left of the source, up to 64 bytes; none where it fails.
    pub fn left(&mut self, alloc: Global) -> Result<Vec<u8>, AllocError> {
        let mut rest = [0; 64];
        let count = self.source.read(&mut rest).unwrap_or(0);
        rest[..count].to_vec(alloc)
    }
}

/// A stage with the words of a text, and a source of the bytes that hexadecimal digits spell.
pub fn stage_of(alloc: Global, words: &str, digits: &str) -> Result<Stage, Unable> {
    let words = words_of(alloc, words)?;
    Ok(Stage::new(alloc, words, source_of(alloc, digits)?)?)
}

/// The same where all moments of the clock are this one.
pub fn stage_at(alloc: Global, words: &str, digits: &str, moment: u64) -> Result<Stage, Unable> {
    let words = words_of(alloc, words)?;
    let source = source_of(alloc, digits)?;
    Ok(Stage::at(alloc, words, source, [moment].to_vec(alloc)?))
}

/// The status of a run over a disk A of these bytes.
pub fn status_over<K: Sink>(
    alloc: Global,
    stage: &mut Stage,
    output: &mut K,
    bytes: &[u8],
) -> Result<u8, Unable> {
    let disk = disk_of(alloc, bytes, &[])?;
    Ok(stage.run(alloc, output, disk).status)
}

/// A source of the bytes that hexadecimal digits spell.
pub fn source_of(alloc: Global, digits: &str) -> Result<MemSource, Unable> {
    Ok(MemSource::new(input_of(alloc, digits)?, Vec::new(alloc)))
}

/// The words of a text.
pub fn words_of(alloc: Global, text: &str) -> Result<Vec<String>, Unable> {
    let mut words = Vec::new(alloc);
    for word in text.split(' ') {
        if !word.is_empty() {
            words.push(String::from_str(alloc, word)?)?;
        }
    }
    Ok(words)
}

/// The bytes that hexadecimal digits spell; `-` is none.
pub fn input_of(alloc: Global, digits: &str) -> Result<Bytes, Unable> {
    if digits == "-" {
        return Ok(Bytes::new(alloc));
    }
    let bytes = bytes_of(alloc, digits)?;
    Ok(Bytes::from_slice(alloc, &bytes)?)
}
