//! Lists and maps onto the wire.

ghost use Rattle.std.specs.Prelude.{◌≡◌, ◌<◌, ◌^◌, ◌++◌, length};
ghost use Rattle.std.specs.List.{flat_map};
ghost use Rattle.thrift_binary.specs.Codes.{list_code, map_code};
ghost use Rattle.thrift_binary.specs.Sending.{Gathers};
ghost use Rattle.thrift_binary.specs.Strict.{wire_bytes};
ghost use Rattle.ms_structs.specs.Written.{items_tree, pairs_tree, texts_tree};

use crate::ToWire;
use cat_types::{ListOf, MapOf, NoMemory, Text};
use thrift_binary::{WireWriter, type_code};

impl<T: ToWire> ToWire for ListOf<T> {
    type Value = ListOf<T::Value>;

    ghost CODE = { list_code };

    const CODE: u8 = type_code::LIST;

    ghost tree = { items_tree T.CODE T.tree };

    fn write(writer: &mut WireWriter, value: &ListOf<T::Value>) -> Result<(), NoMemory> {
        put_list::<T>(writer, value.as_slice())
    }
}

impl<K: ToWire<Value = K> + Ord, V: ToWire> ToWire for MapOf<K, V> {
    type Value = MapOf<K, V::Value>;

    ghost CODE = { map_code };

    const CODE: u8 = type_code::MAP;

    ghost tree = { pairs_tree K.CODE K.tree V.CODE V.tree };

    fn write(writer: &mut WireWriter, value: &MapOf<K, V::Value>) -> Result<(), NoMemory> {
        writer.map(K::CODE, V::CODE, value.len() as u32)?;
        put_pairs::<K, V>(writer, value)
    }
}

/// A list of texts.
pub fn put_texts(writer: &mut WireWriter, texts: &[Text]) -> Result<(), NoMemory>
    requires { length texts.now < 2 ^ 31 }
    ensures { Gathers writer.old writer.new result (wire_bytes list_code (texts_tree texts.now)) }
{
    put_list::<Text>(writer, texts)
}

/// A list of values.
pub fn put_list<T: ToWire>(writer: &mut WireWriter, items: &[T::Value]) -> Result<(), NoMemory>
    requires { length items.now < 2 ^ 31 }
    ensures { Gathers writer.old writer.new result (wire_bytes list_code (items_tree T.CODE T.tree items.now)) }
{
    writer.list(T::CODE, items.len() as u32)?;
    put_elements::<T>(writer, items)
}

// Values, one behind the other.
fn put_elements<T: ToWire>(writer: &mut WireWriter, items: &[T::Value]) -> Result<(), NoMemory>
    ensures { Gathers writer.old writer.new result (flat_map (λ item. wire_bytes T.CODE (T.tree item)) items.now) }
{
    for item in items {
        T::write(writer, item)?;
    }
    Ok(())
}

// Pairs of a key and a value, one behind the other.
fn put_pairs<K: ToWire<Value = K> + Ord, V: ToWire>(
    writer: &mut WireWriter,
    pairs: &MapOf<K, V::Value>,
) -> Result<(), NoMemory>
    ensures { Gathers writer.old writer.new result (flat_map (λ pair. wire_bytes K.CODE (K.tree pair.0) ++ wire_bytes V.CODE (V.tree pair.1)) pairs.now) }
{
    for (key, value) in pairs.iter() {
        K::write(writer, key)?;
        V::write(writer, value)?;
    }
    Ok(())
}
