//! The exceptions that calls declare.

ghost use Rattle.std.specs.Prelude.{◌≡◌, ◌<◌, length};
ghost use Rattle.ms_calls.specs.Exceptions.{declared_id, exception_id, exception_number, exception_of, general_code, place_from};

use crate::Method;

/// A kind of exception that calls declare.
#[derive(Clone, Copy, Debug, PartialEq, Eq)]
pub enum Exception {
    AlreadyExists,
    NoSuchObject,
    InvalidObject,
    InvalidOperation,
    InvalidInput,
    Meta,
}

impl Exception {
    // A number for each kind, by which kinds are told apart.
    fn number(self) -> u8
        ensures { result ≡ exception_number self }
    {
        match self {
            Exception::AlreadyExists => 0,
            Exception::NoSuchObject => 1,
            Exception::InvalidObject => 2,
            Exception::InvalidOperation => 3,
            Exception::InvalidInput => 4,
            Exception::Meta => 5,
        }
    }
}

// The codes of a TApplicationException: the method is unknown, the server failed, the message isn't
// spelled as its call wants it.
const UNKNOWN_METHOD: i32 = 1;

const INTERNAL_ERROR: i32 = 6;

const PROTOCOL_ERROR: i32 = 7;

/// The code of a refusal that is told as a TApplicationException, which every call may be answered.
pub fn general_code(number: u8) -> Option<i32>
    ensures { result ≡ general_code number }
{
    match number {
        9 => Some(UNKNOWN_METHOD),
        10 => Some(PROTOCOL_ERROR),
        11 => Some(INTERNAL_ERROR),
        _ => None,
    }
}

/// The exception that tells the refusal with this number.
pub fn exception_of(number: u8) -> Option<Exception>
    ensures { result ≡ exception_of number }
{
    match number {
        1 => Some(Exception::AlreadyExists),
        2 => Some(Exception::NoSuchObject),
        3 => Some(Exception::InvalidObject),
        4 => Some(Exception::InvalidOperation),
        5 => Some(Exception::InvalidInput),
        6 | 7 | 8 | 12 | 13 | 14 | 15 => Some(Exception::Meta),
        _ => None,
    }
}

impl Method {
    /// The field under which the call declares this exception.
    pub fn exception_id(self, exception: Exception) -> Option<i16>
        ensures { result ≡ exception_id self exception }
    {
        place_of(exception, self.exceptions())
    }
}

// The place of an exception among those that are declared, from 1 on.
fn place_of(exception: Exception, declared: &[Exception]) -> Option<i16>
    requires { length declared.now < 8 }
    ensures { result ≡ place_from 1 exception declared.now }
{
    for at in 0..declared.len() {
        if declared[at].number() == exception.number() {
            return Some(at as i16 + 1);
        }
    }
    None
}

/// The field under which the call declares the exception of the refusal with this number.
pub fn declared_id(method: Option<Method>, number: u8) -> Option<i16>
    ensures { result ≡ declared_id method number }
{
    method?.exception_id(exception_of(number)?)
}
