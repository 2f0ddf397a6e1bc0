//! Lists off the wire.

ghost use Rattle.std.specs.Prelude.{◌≡◌, ◌≢◌, ◌==◌, ◌||◌, ℕ, ◌≤◌, if◌then◌else◌, None, Some, [], IsErrOf, OnOk};
ghost use Rattle.hms_outside.specs.Causes.{Rose, StaysBut};
ghost use Rattle.ms_structs.specs.Getting.{ReadsTree};
ghost use Rattle.thrift_binary.specs.Codes.{list_code};
ghost use Rattle.thrift_binary.specs.Tree.{Elements, Wire, elements_count};
ghost use Rattle.thrift_binary.specs.Wire.{AreElements, IsElementType, StopsElements};
ghost use Rattle.ms_structs.specs.declared.got.Got.TheVariants.{Nothing};
ghost use Rattle.ms_structs.specs.Slots.{said_or_bad, typed};
ghost use Rattle.ms_structs.specs.Values.{fold_elements, items_of, with_item};

use crate::{FromWire, Got, read_typed, said_or_bad};
use cat_types::{ListOf, NoMemory};
use hms_outside::Source;
use std::alloc::Global;
use thrift_binary::{WireFault, WireReader, type_code};

impl<T: FromWire> FromWire for ListOf<T> {
    type Value = ListOf<T::Value>;

    ghost CODE = { list_code };

    const CODE: u8 = type_code::LIST;

    ghost means = { items_of T.CODE T.means };

    fn read<S: Source>(
        alloc: Global,
        reader: &mut WireReader<'_, S>,
    ) -> Result<Got<ListOf<T::Value>>, WireFault> {
        reader.open()?;
        let (ty, count) = reader.list()?;
        let items = read_items::<T, S>(alloc, reader, ty, count)?;
        reader.close();
        Ok(judged(fits(count, ty, T::CODE), items))
    }
}

// Whether so many elements of a type may stand where those of another are wanted.
fn fits(count: u32, ty: u8, wanted: u8) -> bool
    ensures { result ≡ (count == 0) || (ty == wanted) }
{
    count == 0 || ty == wanted
}

// What a list says, where its elements have the type that is wanted.
fn judged<T: Drop>(fits: bool, items: Option<ListOf<T>>) -> Got<ListOf<T>>
    ensures { result ≡ if fits then said_or_bad items else Nothing }
{
    if !fits {
        return Got::Nothing;
    }
    said_or_bad(items)
}

// Reads so many elements of the type with this code.
fn read_items<T: FromWire, S: Source>(
    alloc: Global,
    reader: &mut WireReader<'_, S>,
    ty: u8,
    count: u32,
) -> Result<Option<ListOf<T::Value>>, WireFault>
    requires unspent { reader.old.progress.fault ≡ None }
    requires code { IsElementType count ty }
    ensures same_source { reader.new.source.ghost_name ≡ reader.old.source.ghost_name }
    ensures later { S.faults reader.old.source.now ≤ S.faults reader.new.source.now }
    ensures cause { reader.old.progress.fault ≡ None → IsErrOf result WireFault.ReadFault → Rose (S.faults reader.old.source.now) (S.faults reader.new.source.now) }
    ensures stays { StaysBut WireFault.ReadFault result (S.faults reader.old.source.now) (S.faults reader.new.source.now) }
    ensures reads { ReadsTree (S.left reader.old.source.now) (S.left reader.new.source.now) reader.old.progress reader.new.progress result (λ es bytes. AreElements es reader.old.progress.room ty bytes × (elements_count es ≡ count)) (λ es items. items ≡ fold_elements (λ so w. with_item so (typed T.CODE T.means ty w)) (Some []) es) (StopsElements reader.old.progress.room ty count) }
{
    let mut items = Some(ListOf::new(alloc));
    for _ in 0..count {
        let item = read_typed::<T, S>(alloc, reader, ty)?;
        match put_item(&mut items, item) {
            Ok(()) => {}
            Err(NoMemory) => return Err(reader.refused()),
        }
    }
    Ok(items)
}

// Adds what one element says.
fn put_item<T: Drop>(items: &mut Option<ListOf<T>>, item: Got<T>) -> Result<(), NoMemory>
    ensures { OnOk result (items.new ≡ with_item items.old item) }
{
    match item {
        Got::Nothing => Ok(()),
        Got::BadText => {
            *items = None;
            Ok(())
        }
        Got::Is(item) => match items {
            Some(items) => items.push(item),
            None => Ok(()),
        },
    }
}
