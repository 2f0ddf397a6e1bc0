//! Maps off the wire.

ghost use Rattle.std.specs.Prelude.{◌≡◌, ◌≢◌, ◌==◌, ◌||◌, ◌&&◌, ℕ, ◌≤◌, if◌then◌else◌, None, Some, IsErrOf, OnOk};
ghost use Rattle.hms_outside.specs.Causes.{Rose, StaysBut};
ghost use Rattle.ms_structs.specs.Getting.{ReadsTree};
ghost use Rattle.thrift_binary.specs.Codes.{map_code};
ghost use Rattle.thrift_binary.specs.Tree.{Entries, Wire, entries_count};
ghost use Rattle.thrift_binary.specs.Wire.{AreEntries, IsCode, IsElementType, StopsEntries};
ghost use Rattle.ms_structs.specs.declared.got.Got.TheVariants.{Nothing};
ghost use Rattle.ms_structs.specs.Slots.{typed};
ghost use Rattle.ms_structs.specs.Values.{IsPairOf, StopsPairOf, all_pairs, fold_entries, no_pairs, pairs_of, with_pair};

use crate::{FromWire, Got, PairsSoFar, read_typed};
use cat_types::{MapOf, NoMemory};
use hms_outside::Source;
use std::alloc::Global;
use thrift_binary::{WireFault, WireReader, type_code};

impl<K: FromWire<Value = K> + Ord + Drop, V: FromWire> FromWire for MapOf<K, V> {
    type Value = MapOf<K, V::Value>;

    ghost CODE = { map_code };

    const CODE: u8 = type_code::MAP;

    ghost means = { pairs_of K.cmp K.CODE K.means V.CODE V.means };

    fn read<S: Source>(
        alloc: Global,
        reader: &mut WireReader<'_, S>,
    ) -> Result<Got<MapOf<K, V::Value>>, WireFault> {
        reader.open()?;
        let (key_type, value_type, count) = reader.map()?;
        let pairs = read_pairs::<K, V, S>(alloc, reader, key_type, value_type, count)?;
        reader.close();
        Ok(judged(fits(count, key_type, K::CODE, value_type, V::CODE), pairs))
    }
}

// Whether so many pairs of a key and a value of two types may stand where those of two others are
// wanted.
fn fits(count: u32, key: u8, wanted_key: u8, value: u8, wanted_value: u8) -> bool
    ensures { result ≡ (count == 0) || ((key == wanted_key) && (value == wanted_value)) }
{
    count == 0 || (key == wanted_key && value == wanted_value)
}

// What a map says, where its keys and values have the types that are wanted.
fn judged<K: Ord + Drop, V: Drop>(fits: bool, pairs: Option<PairsSoFar<K, V>>) -> Got<MapOf<K, V>>
    ensures { result ≡ if fits then all_pairs pairs else Nothing }
{
    if !fits {
        return Got::Nothing;
    }
    match pairs {
        Some(so) => {
            if so.spoiled.len() == 0 {
                Got::Is(so.pairs)
            } else {
                Got::BadText
            }
        }
        None => Got::BadText,
    }
}

// Reads so many pairs of a key and a value of the types with these codes.
fn read_pairs<K: FromWire<Value = K> + Ord + Drop, V: FromWire, S: Source>(
    alloc: Global,
    reader: &mut WireReader<'_, S>,
    key_type: u8,
    value_type: u8,
    count: u32,
) -> Result<Option<PairsSoFar<K, V::Value>>, WireFault>
    requires unspent { reader.old.progress.fault ≡ None }
    requires keys { IsElementType count key_type }
    requires values { IsElementType count value_type }
    ensures same_source { reader.new.source.ghost_name ≡ reader.old.source.ghost_name }
    ensures later { S.faults reader.old.source.now ≤ S.faults reader.new.source.now }
    ensures cause { reader.old.progress.fault ≡ None → IsErrOf result WireFault.ReadFault → Rose (S.faults reader.old.source.now) (S.faults reader.new.source.now) }
    ensures stays { StaysBut WireFault.ReadFault result (S.faults reader.old.source.now) (S.faults reader.new.source.now) }
    ensures reads { ReadsTree (S.left reader.old.source.now) (S.left reader.new.source.now) reader.old.progress reader.new.progress result (λ ps bytes. AreEntries ps reader.old.progress.room key_type value_type bytes × (entries_count ps ≡ count)) (λ ps pairs. pairs ≡ fold_entries (λ so k w. with_pair K.cmp so (typed K.CODE K.means key_type k) (typed V.CODE V.means value_type w)) no_pairs ps) (StopsEntries reader.old.progress.room key_type value_type count) }
{
    let mut pairs = Some(PairsSoFar::new(alloc));
    for _ in 0..count {
        let (key, value) = read_pair::<K, V, S>(alloc, reader, key_type, value_type)?;
        match put_pair(&mut pairs, key, value) {
            Ok(()) => {}
            Err(NoMemory) => return Err(reader.refused()),
        }
    }
    Ok(pairs)
}

// Reads a key and its value, of the types with these codes.
fn read_pair<K: FromWire, V: FromWire, S: Source>(
    alloc: Global,
    reader: &mut WireReader<'_, S>,
    key_type: u8,
    value_type: u8,
) -> Result<(Got<K::Value>, Got<V::Value>), WireFault>
    requires keys { IsCode key_type }
    requires values { IsCode value_type }
    ensures same_source { reader.new.source.ghost_name ≡ reader.old.source.ghost_name }
    ensures later { S.faults reader.old.source.now ≤ S.faults reader.new.source.now }
    ensures cause { reader.old.progress.fault ≡ None → IsErrOf result WireFault.ReadFault → Rose (S.faults reader.old.source.now) (S.faults reader.new.source.now) }
    ensures stays { StaysBut WireFault.ReadFault result (S.faults reader.old.source.now) (S.faults reader.new.source.now) }
    ensures reads { ReadsTree (S.left reader.old.source.now) (S.left reader.new.source.now) reader.old.progress reader.new.progress result (λ (pair : Wire × Wire). IsPairOf reader.old.progress.room key_type value_type pair.0 pair.1) (λ pair got. (got.0 ≡ typed K.CODE K.means key_type pair.0) × (got.1 ≡ typed V.CODE V.means value_type pair.1)) (StopsPairOf reader.old.progress.room key_type value_type) }
{
    let key = read_typed::<K, S>(alloc, reader, key_type)?;
    let value = read_typed::<V, S>(alloc, reader, value_type)?;
    Ok((key, value))
}

// Adds what one pair says.
fn put_pair<K: Ord + Drop, V: Drop>(
    pairs: &mut Option<PairsSoFar<K, V>>,
    key: Got<K>,
    value: Got<V>,
) -> Result<(), NoMemory>
    ensures { OnOk result (pairs.new ≡ with_pair K.cmp pairs.old key value) }
{
    match (key, value) {
        (Got::Nothing, _) | (_, Got::Nothing) => Ok(()),
        (Got::BadText, _) => {
            *pairs = None;
            Ok(())
        }
        (Got::Is(key), value) => match pairs {
            Some(so) => so.put(key, value),
            None => Ok(()),
        },
    }
}
