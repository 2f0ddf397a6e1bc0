//! Adapters over the streams of std. They tell nothing of content.

ghost use Rattle.std.specs.Prelude.{None};

use crate::{Outage, Sink, Source};
use std::alloc::Global;
use std::io::{BufReader, BufWriter, Read, Write};

/// How many bytes an adapter reads ahead, or holds back up to a flush.
const BUFFER: usize = 65_536;

/// A reader as a source. It reads ahead, so that small reads cost no call of the system each.
#[derive(Drop)]
pub struct StreamSource<R: Read + Drop> {
    inner: Option<BufReader<R>>,
    faults: u64,
}

impl<R: Read + Drop> StreamSource<R> {
    /// Where there is no memory for its buffer, each call answers want of memory.
    pub fn new(alloc: Global, inner: R) -> StreamSource<R> {
        StreamSource {
            inner: BufReader::with_capacity(alloc, BUFFER, inner).ok(),
            faults: 0,
        }
    }
}

impl<R: Read + Drop> Source for StreamSource<R> {
    ghost left = { λ s. None };

    ghost faults = { λ s. s.faults };

    fn read(&mut self, buf: &mut [u8]) -> Result<usize, Outage> {
        let Some(inner) = &mut self.inner else {
            return Err(Outage::NoMemory);
        };
        if let Ok(count) = inner.read(buf) {
            return Ok(count);
        }
        self.faults = self.faults.saturating_add(1);
        Err(Outage::Failed)
    }
}

/// A writer as a sink. It holds bytes back up to a flush, which reaches the writer.
#[derive(Drop)]
pub struct StreamSink<W: Write + Drop> {
    inner: Option<BufWriter<W>>,
    faults: u64,
}

impl<W: Write + Drop> StreamSink<W> {
    /// Where there is no memory for its buffer, each call answers want of memory.
    pub fn new(alloc: Global, inner: W) -> StreamSink<W> {
        StreamSink {
            inner: BufWriter::with_capacity(alloc, BUFFER, inner).ok(),
            faults: 0,
        }
    }
}

impl<W: Write + Drop> Sink for StreamSink<W> {
    ghost held = { λ s. None };

    ghost faults = { λ s. s.faults };

    fn write(&mut self, bytes: &[u8]) -> Result<usize, Outage> {
        let Some(inner) = &mut self.inner else {
            return Err(Outage::NoMemory);
        };
        if let Ok(count) = inner.write(bytes)
            && count > 0
        {
            return Ok(count);
        }
        self.faults = self.faults.saturating_add(1);
        Err(Outage::Failed)
    }

    fn flush(&mut self) -> Result<(), Outage> {
        let Some(inner) = &mut self.inner else {
            return Err(Outage::NoMemory);
        };
        if let Ok(()) = inner.flush() {
            return Ok(());
        }
        self.faults = self.faults.saturating_add(1);
        Err(Outage::Failed)
    }
}
