//! Values of any type, decoded into their pieces.

ghost use Rattle.std.specs.Prelude.{◌≡◌, ◌≢◌, ◌≤◌, ◌↔◌, ◌∷◌, [], length, IsTrue};
ghost use Rattle.thrift_plain.specs.Plain.{fields_tokens, wire_tokens};
ghost use Rattle.thrift_plain.specs.PlainReading.{ElementsAdded, EntriesAdded, IsPlain, ListAdded, MapAdded, StopsList, StopsMap, StructAdded, Takes, ValueAdded};
ghost use Rattle.thrift_binary.specs.Wire.{IsBody, IsCode, IsElementType, IsNested, StopsElements, StopsEntries, StopsFields, StopsPlain, StopsWire};

use crate::plain_reader::{Halt, PlainReader};
use crate::{Token, Tokens};
use cat_values::Bytes;
use thrift_binary::numbers::{byte_of, flag_of, int_of, long_of, short_of};
use thrift_binary::type_code;

impl<'a> PlainReader<'a> {
    // A value that holds no other.
    fn plain_value(&mut self, ty: u8) -> Result<Token, Halt>
        requires code { IsCode ty }
        requires plain { IsNested ty → ⊥ }
        ensures { Takes self.old.rest.now self.new.rest.now result (IsPlain ty) (StopsPlain ty) }
    {
        match ty {
            type_code::BOOL => Ok(Token::Flag(flag_of(self.take(1)?))),
            type_code::BYTE => Ok(Token::Byte(byte_of(self.take(1)?))),
            type_code::DOUBLE => Ok(Token::Eight(eight_of(self.take(8)?))),
            type_code::I16 => Ok(Token::Short(short_of(self.take(2)?))),
            type_code::I32 => Ok(Token::Int(int_of(self.take(4)?))),
            type_code::I64 => Ok(Token::Long(long_of(self.take(8)?))),
            _ => {
                let body = self.string()?;
                Ok(Token::Text(Bytes::from_slice(self.alloc, body)?))
            }
        }
    }

    // A value of this type, with at most so many structs and collections open inside one another.
    #[cycle(value)]
    pub(crate) fn value(&mut self, tokens: &mut Tokens, ty: u8, depth: u8) -> Result<(), Halt>
        requires { IsCode ty }
        ensures { Takes self.old.rest.now self.new.rest.now result (λ _. ValueAdded tokens.old tokens.new depth ty) (StopsWire depth ty) }
    {
        if is_nested(ty) {
            return self.nested(tokens, ty, depth);
        }
        let token = self.plain_value(ty)?;
        tokens.push(token)?;
        Ok(())
    }

    // A struct or a collection. One that is too deep is refused before its first byte.
    #[cycle(value)]
    fn nested(&mut self, tokens: &mut Tokens, ty: u8, depth: u8) -> Result<(), Halt>
        requires { IsNested ty }
        ensures { Takes self.old.rest.now self.new.rest.now result (λ _. ValueAdded tokens.old tokens.new depth ty) (StopsWire depth ty) }
    {
        if depth == 0 {
            return Err(Halt::Large(self.rest.len()));
        }
        match ty {
            type_code::STRUCT => self.fields(tokens, depth - 1),
            type_code::MAP => self.map(tokens, depth - 1),
            _ => self.list(tokens, depth - 1),
        }
    }

    // Fields up to the end of their struct.
    #[cycle(value)]
    fn fields(&mut self, tokens: &mut Tokens, depth: u8) -> Result<(), Halt>
        ensures { Takes self.old.rest.now self.new.rest.now result (λ _. StructAdded tokens.old tokens.new depth) (StopsFields depth) }
    {
        loop {
            match self.field()? {
                None => {
                    tokens.push(Token::Stop)?;
                    return Ok(());
                }
                Some((ty, id)) => {
                    tokens.push(Token::Field(ty, id))?;
                    self.value(tokens, ty, depth)?;
                }
            }
        }
    }

    // A list or a set.
    #[cycle(value)]
    fn list(&mut self, tokens: &mut Tokens, depth: u8) -> Result<(), Halt>
        ensures { Takes self.old.rest.now self.new.rest.now result (λ _. ListAdded tokens.old tokens.new depth) (StopsList depth) }
    {
        let (ty, count) = self.list_head()?;
        tokens.push(Token::List(ty, count))?;
        self.elements(tokens, ty, count, depth)
    }

    // The elements of a list or of a set.
    #[cycle(value)]
    fn elements(&mut self, tokens: &mut Tokens, ty: u8, count: u32, depth: u8) -> Result<(), Halt>
        requires { IsElementType count ty }
        ensures { Takes self.old.rest.now self.new.rest.now result (λ _. ElementsAdded tokens.old tokens.new depth ty count) (StopsElements depth ty count) }
    {
        for _ in 0..count {
            self.value(tokens, ty, depth)?;
        }
        Ok(())
    }

    // A map.
    #[cycle(value)]
    fn map(&mut self, tokens: &mut Tokens, depth: u8) -> Result<(), Halt>
        ensures { Takes self.old.rest.now self.new.rest.now result (λ _. MapAdded tokens.old tokens.new depth) (StopsMap depth) }
    {
        let (key, value, count) = self.map_head()?;
        tokens.push(Token::Map(key, value, count))?;
        self.entries(tokens, key, value, count, depth)
    }

    // The pairs of a map.
    #[cycle(value)]
    fn entries(
        &mut self,
        tokens: &mut Tokens,
        key: u8,
        value: u8,
        count: u32,
        depth: u8,
    ) -> Result<(), Halt>
        requires keys { IsElementType count key }
        requires values { IsElementType count value }
        ensures { Takes self.old.rest.now self.new.rest.now result (λ _. EntriesAdded tokens.old tokens.new depth key value count) (StopsEntries depth key value count) }
    {
        for _ in 0..count {
            self.value(tokens, key, depth)?;
            self.value(tokens, value, depth)?;
        }
        Ok(())
    }
}

// Whether a type is that of structs or collections.
fn is_nested(ty: u8) -> bool
    ensures { IsTrue result ↔ IsNested ty }
{
    matches!(
        ty,
        type_code::STRUCT | type_code::MAP | type_code::SET | type_code::LIST
    )
}

// Eight bytes.
fn eight_of(bytes: &[u8]) -> [u8; 8]
    requires { length bytes.now ≡ 8 }
    ensures { result ≡ bytes.now }
{
    [
        bytes[0], bytes[1], bytes[2], bytes[3], bytes[4], bytes[5], bytes[6], bytes[7],
    ]
}
