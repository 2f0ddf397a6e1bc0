//! What a value on the wire says to one who expects a value of some type.

ghost use Rattle.std.specs.Prelude.{◌≡◌, ℕ, ◌≤◌, IsErrOf};
ghost use Rattle.hms_outside.specs.Causes.{Rose};
ghost use Rattle.ms_structs.specs.Slots.{given_or, is_bad, optional_of, over, said_or_bad, value_of, value_or};

use std::alloc::Global;

/// What a value on the wire says to one who expects a `T`, and what a slot for the fields of one id
/// holds.
#[derive(Drop)]
pub enum Got<T> {
    /// Nothing came, or what came has another type and was skipped.
    Nothing,
    /// A text that isn't UTF-8 came, by itself or inside.
    BadText,
    Is(T),
}

impl<T: Drop> Got<T> {
    /// Puts what is said now over what was said before, where it says something.
    pub fn put(&mut self, now: Got<T>)
        ensures { self.new ≡ over now self.old }
    {
        match now {
            Got::Nothing => {}
            Got::BadText => *self = Got::BadText,
            Got::Is(value) => *self = Got::Is(value),
        }
    }

    /// A value that may be absent, or `None` where a text is bad.
    pub fn optional(self) -> Option<Option<T>>
        ensures { result ≡ optional_of self }
    {
        match self {
            Got::Nothing => Some(None),
            Got::BadText => None,
            Got::Is(value) => Some(Some(value)),
        }
    }

    /// The value, or this one in place of an absent one; `None` where a text is bad.
    pub fn or(self, absent: T) -> Option<T>
        ensures { result ≡ given_or absent self }
    {
        match self {
            Got::Nothing => Some(absent),
            Got::BadText => None,
            Got::Is(value) => Some(value),
        }
    }

    /// Whether a text is bad.
    pub fn is_bad(&self) -> bool
        ensures { result ≡ is_bad self.now }
    {
        match self {
            Got::BadText => true,
            Got::Nothing | Got::Is(_) => false,
        }
    }

    /// The value, if there is one.
    pub fn value(self) -> Option<T>
        ensures { result ≡ value_of self }
    {
        match self {
            Got::Nothing | Got::BadText => None,
            Got::Is(value) => Some(value),
        }
    }

    /// The value, or else this one.
    pub fn value_or(self, other: T) -> T
        ensures { result ≡ value_or other self }
    {
        match self {
            Got::Nothing | Got::BadText => other,
            Got::Is(value) => value,
        }
    }
}

/// What a value says, `None` standing for a bad text.
pub fn said_or_bad<T: Drop>(value: Option<T>) -> Got<T>
    ensures { result ≡ said_or_bad value }
{
    match value {
        Some(value) => Got::Is(value),
        None => Got::BadText,
    }
}
