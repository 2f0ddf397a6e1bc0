//! The two ends of a connection over a socket.

ghost use Rattle.std.specs.Prelude.{◌≡◌, None};

use hms_outside::{Outage, Sink, Source, StreamSink, StreamSource};
use std::alloc::Global;
use std::net::TcpStream;

/// Where a connection's input comes from. It tells nothing of content.
#[derive(Drop)]
pub struct TcpSource {
    inner: StreamSource<TcpStream>,
    faults: u64,
}

impl TcpSource {
    /// A source that has counted no fault.
    pub fn new(alloc: Global, stream: TcpStream) -> TcpSource
        ensures { result.faults ≡ 0 }
    {
        TcpSource {
            inner: StreamSource::new(alloc, stream),
            faults: 0,
        }
    }
}

impl Source for TcpSource {
    ghost left = { λ s. None };

    ghost faults = { λ s. s.faults };

    fn read(&mut self, buf: &mut [u8]) -> Result<usize, Outage> {
        let result = self.inner.read(buf);
        if let Err(Outage::Failed) = result {
            self.faults = self.faults.saturating_add(1);
        }
        result
    }
}

/// Where a connection's output goes. It tells nothing of content.
#[derive(Drop)]
pub struct TcpSink {
    inner: StreamSink<TcpStream>,
    faults: u64,
}

impl TcpSink {
    /// A sink that has counted no fault.
    pub fn new(alloc: Global, stream: TcpStream) -> TcpSink
        ensures { result.faults ≡ 0 }
    {
        TcpSink {
            inner: StreamSink::new(alloc, stream),
            faults: 0,
        }
    }
}

impl Sink for TcpSink {
    ghost held = { λ k. None };

    ghost faults = { λ k. k.faults };

    fn write(&mut self, bytes: &[u8]) -> Result<usize, Outage> {
        let result = self.inner.write(bytes);
        if let Err(Outage::Failed) = result {
            self.faults = self.faults.saturating_add(1);
        }
        result
    }

    fn flush(&mut self) -> Result<(), Outage> {
        let result = self.inner.flush();
        if let Err(Outage::Failed) = result {
            self.faults = self.faults.saturating_add(1);
        }
        result
    }
}
