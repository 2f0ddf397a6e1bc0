//! A listener over a socket.

ghost use Rattle.std.specs.Prelude.{None};

use crate::{Listener, TcpSink, TcpSource};
use hms_outside::Outage;
use std::alloc::Global;
use std::net::{TcpListener, TcpStream};
use std::time::Duration;

/// A door at a bound listener, which several may share, or one that fails at each call. It tells
/// nothing of content. A connection whose peer lets a read or a write wait longer than the door's
/// patience fails at that call; without patience it waits for ever.
#[derive(Drop)]
pub struct TcpDoor<'a> {
    alloc: Global,
    listener: Option<&'a TcpListener>,
    patience: Option<Duration>,
    out: u64,
    faults: u64,
}

impl<'a> TcpDoor<'a> {
    /// A door at this listener; without one it fails at each call.
    pub fn new(
        alloc: Global,
        listener: Option<&'a TcpListener>,
        patience: Option<Duration>,
    ) -> TcpDoor<'a> {
        TcpDoor {
            alloc,
            listener,
            patience,
            out: 0,
            faults: 0,
        }
    }

    // The two ends of the next connection, whose small writes go out at once.
    fn ends(&self) -> Option<(TcpStream, TcpStream)> {
        let listener = self.listener?;
        let (rx, _) = listener.accept().ok()?;
        rx.set_nodelay(true).ok()?;
        rx.set_read_timeout(self.patience).ok()?;
        rx.set_write_timeout(self.patience).ok()?;
        let tx = rx.try_clone().ok()?;
        Some((rx, tx))
    }
}

impl<'a> Listener for TcpDoor<'a> {
    type Rx = TcpSource;

    type Tx = TcpSink;

    ghost inputs = { λ d. None };

    ghost returned = { λ d. None };

    ghost out = { λ d. d.out };

    ghost faults = { λ d. d.faults };

    fn accept(&mut self) -> Result<(TcpSource, TcpSink), Outage> {
        if self.out < u64::MAX
            && let Some((rx, tx)) = self.ends()
        {
            self.out += 1;
            return Ok((TcpSource::new(self.alloc, rx), TcpSink::new(self.alloc, tx)));
        }
        self.faults = self.faults.saturating_add(1);
        Err(Outage::Failed)
    }

    fn hand_back(&mut self, _rx: TcpSource, _tx: TcpSink) {
        self.out -= 1;
    }
}
