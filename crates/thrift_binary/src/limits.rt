//! The limits of what is read.

ghost use Rattle.std.specs.Prelude.{◌≡◌};
ghost use Rattle.thrift_binary.specs.declared.limits.TheConstants.{COUNT_LIMIT, DEPTH_LIMIT, MESSAGE_LIMIT, SESSION_END};

/// How many elements a list, a set or a map has at most.
pub const COUNT_LIMIT: u32 = 1_000_000;

/// How many structs and collections are open inside one another at most, the argument struct of a
/// message being the first.
pub const DEPTH_LIMIT: u8 = 64;

/// How many bytes a message has at most.
pub const MESSAGE_LIMIT: u64 = 67_108_864;

/// How many bytes a session reads at most.
pub const SESSION_END: u64 = 9_223_372_036_854_775_807;

/// A law: the limits are these numbers.
pub fn messages_are_bounded()
    ensures count { COUNT_LIMIT ≡ 1000000 }
    ensures depth { DEPTH_LIMIT ≡ 64 }
    ensures message { MESSAGE_LIMIT ≡ 67108864 }
    ensures session { SESSION_END ≡ 9223372036854775807 }
{}
