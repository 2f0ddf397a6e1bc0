//! Kinds of files.

/// What a file of a dump holds.
#[derive(Clone, Copy, Debug, PartialEq, Eq)]
pub enum FileKind {
    /// Items, as one answer of the dump told them.
    ItemFile,
    /// Events, as one answer of the dump told them.
    EventFile,
}
