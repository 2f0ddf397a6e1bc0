//! Values of bounded size that every crate shares: texts, lists and maps, and the records of
//! databases, tables and partitions made of them. Each can be copied where memory allows it. The
//! rules that several crates read stand here too: what an object may be called, and what a
//! column's type says of its values.
#![tactic(auto)]

mod columns;
mod copying;
mod laws;
mod list_of;
mod lower_names;
mod map_of;
mod memory;
mod names;
mod records;
mod statistics;
mod storage;
mod text;

pub use columns::{KEYS_LIMIT, TypeKind, find_column, type_kind};
pub use copying::{CopyParts, TryCopy};
pub use laws::sizes_are_bounded;
pub use list_of::{Bytes, LIST_END, ListOf, Texts};
pub use lower_names::LowerName;
pub use map_of::{MAP_END, MapOf, Params};
pub use memory::NoMemory;
pub use names::{NAME_LIMIT, has_name_length, object_name};
pub use records::{DbRec, PartRec, TableRec};
pub use statistics::{StatRec, StatValue, Stats};
pub use storage::{Column, Columns, Order, Orders, PlaceMap, Serde, Skew, Storage, TextLists};
pub use text::{TEXT_LIMIT, Text, TextFault};
