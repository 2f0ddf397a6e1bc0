//! The numbers that bytes spell.

ghost use Rattle.std.specs.Prelude.{◌≡◌, length};
ghost use Rattle.thrift_binary.specs.Wire.{IsByte, IsFlag, IsInt, IsLong, IsShort};

/// Whether one byte is 1.
#[inline]
#[tactic(auto, using(crate::proofs::Words::single))]
pub fn flag_of(bytes: &[u8]) -> bool
    requires { length bytes.now ≡ 1 }
    ensures { IsFlag result bytes.now }
{
    bytes[0] == 1
}

/// The number that one byte spells.
#[inline]
pub fn byte_of(bytes: &[u8]) -> i8
    requires { length bytes.now ≡ 1 }
    ensures { IsByte result bytes.now }
{
    i8::from_be_bytes([bytes[0]])
}

/// The number that two bytes spell.
#[inline]
pub fn short_of(bytes: &[u8]) -> i16
    requires { length bytes.now ≡ 2 }
    ensures { IsShort result bytes.now }
{
    i16::from_be_bytes([bytes[0], bytes[1]])
}

/// The number that four bytes spell.
#[inline]
pub fn int_of(bytes: &[u8]) -> i32
    requires { length bytes.now ≡ 4 }
    ensures { IsInt result bytes.now }
{
    i32::from_be_bytes([bytes[0], bytes[1], bytes[2], bytes[3]])
}

/// The number that eight bytes spell.
#[inline]
pub fn long_of(bytes: &[u8]) -> i64
    requires { length bytes.now ≡ 8 }
    ensures { IsLong result bytes.now }
{
    i64::from_be_bytes([
        bytes[0], bytes[1], bytes[2], bytes[3], bytes[4], bytes[5], bytes[6], bytes[7],
    ])
}
