//! Versions of the format of records.

/// A version of the format of records. Whoever reads says which, since what is kept stays in the
/// version that it was written in; what is written is of the newest.
#[derive(Clone, Copy)]
pub enum Version {
    One,
}
