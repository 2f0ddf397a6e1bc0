//! The top calls of a program.

/// Which top call a program's words are for, and what the program has to make for it.
#[derive(Clone, Copy, Debug, PartialEq, Eq)]
pub enum Plan {
    /// A server at this port, with so many workers.
    Serve { port: u16, workers: u32 },
    /// One process.
    Local,
}
