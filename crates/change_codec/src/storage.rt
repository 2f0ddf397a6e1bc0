//! How rows are stored, in bytes.

ghost use Rattle.change_codec.specs.Records.{column, order, serde, skew, storage};

use crate::fault::Stop;
use crate::reading::Get;
use crate::version::Version;
use crate::writing::Put;
use cat_types::{
    Bytes, Column, Columns, NoMemory, Order, Orders, Params, PlaceMap, Serde, Skew, Storage, Text,
    TextLists, Texts,
};
use std::alloc::Global;

#[tactic(auto, unfolding(crate::specs::Forms::made_read))]
impl Get for Column {
    ghost read = { λ _. column.read };

    fn get(alloc: Global, version: Version, bytes: &[u8]) -> Result<(Column, &[u8]), Stop> {
        match <(Text, Text, Option<Text>)>::get(alloc, version, bytes) {
            Ok(((name, ty, comment), rest)) => Ok((Column { name, ty, comment }, rest)),
            Err(stop) => Err(stop),
        }
    }
}

impl Put for Column {
    ghost HasCode = { column.HasCode };

    ghost code = { column.code };

    fn put(&self, out: &mut Bytes) -> Result<(), NoMemory> {
        (&self.name, &self.ty, &self.comment).put(out)
    }
}

#[tactic(auto, unfolding(crate::specs::Forms::made_read))]
impl Get for Order {
    ghost read = { λ _. order.read };

    fn get(alloc: Global, version: Version, bytes: &[u8]) -> Result<(Order, &[u8]), Stop> {
        match <(Text, i32)>::get(alloc, version, bytes) {
            Ok(((col, dir), rest)) => Ok((Order { col, dir }, rest)),
            Err(stop) => Err(stop),
        }
    }
}

impl Put for Order {
    ghost HasCode = { order.HasCode };

    ghost code = { order.code };

    fn put(&self, out: &mut Bytes) -> Result<(), NoMemory> {
        (&self.col, &self.dir).put(out)
    }
}

#[tactic(auto, unfolding(crate::specs::Forms::made_read))]
impl Get for Serde {
    ghost read = { λ _. serde.read };

    fn get(alloc: Global, version: Version, bytes: &[u8]) -> Result<(Serde, &[u8]), Stop> {
        match <(Option<Text>, Option<Text>, Params)>::get(alloc, version, bytes) {
            Ok(((name, lib, params), rest)) => Ok((Serde { name, lib, params }, rest)),
            Err(stop) => Err(stop),
        }
    }
}

impl Put for Serde {
    ghost HasCode = { serde.HasCode };

    ghost code = { serde.code };

    fn put(&self, out: &mut Bytes) -> Result<(), NoMemory> {
        (&self.name, &self.lib, &self.params).put(out)
    }
}

#[tactic(auto, unfolding(crate::specs::Forms::made_read))]
impl Get for Skew {
    ghost read = { λ _. skew.read };

    fn get(alloc: Global, version: Version, bytes: &[u8]) -> Result<(Skew, &[u8]), Stop> {
        match <(Texts, TextLists, PlaceMap)>::get(alloc, version, bytes) {
            Ok(((cols, values, places), rest)) => Ok((
                Skew {
                    cols,
                    values,
                    places,
                },
                rest,
            )),
            Err(stop) => Err(stop),
        }
    }
}

impl Put for Skew {
    ghost HasCode = { skew.HasCode };

    ghost code = { skew.code };

    fn put(&self, out: &mut Bytes) -> Result<(), NoMemory> {
        (&self.cols, &self.values, &self.places).put(out)
    }
}

#[tactic(auto, unfolding(crate::specs::Forms::made_read))]
impl Get for Storage {
    ghost read = { λ _. storage.read };

    fn get(alloc: Global, version: Version, bytes: &[u8]) -> Result<(Storage, &[u8]), Stop> {
        match <(
            (Columns, Option<Text>, Option<Text>, Option<Text>),
            (bool, i32, Option<Serde>, Texts),
            (Orders, Params, Option<Skew>, Option<bool>),
        )>::get(alloc, version, bytes)
        {
            Ok(
                (
                    (
                        (cols, location, input, output),
                        (compressed, buckets, serde, bucket_cols),
                        (sort_cols, params, skew, sub_dirs),
                    ),
                    rest,
                ),
            ) => Ok((
                Storage {
                    cols,
                    location,
                    input,
                    output,
                    compressed,
                    buckets,
                    serde,
                    bucket_cols,
                    sort_cols,
                    params,
                    skew,
                    sub_dirs,
                },
                rest,
            )),
            Err(stop) => Err(stop),
        }
    }
}

impl Put for Storage {
    ghost HasCode = { storage.HasCode };

    ghost code = { storage.code };

    fn put(&self, out: &mut Bytes) -> Result<(), NoMemory> {
        (
            (&self.cols, &self.location, &self.input, &self.output),
            (
                &self.compressed,
                &self.buckets,
                &self.serde,
                &self.bucket_cols,
            ),
            (&self.sort_cols, &self.params, &self.skew, &self.sub_dirs),
        )
            .put(out)
    }
}
