//! The structs of tables, off the wire and onto it. The slots of a struct, as `ColumnFields`, name
//! it as a type of the wire too: `ListOf<ColumnFields>` is a list of FieldSchema, which is read as
//! columns.
#![tactic(auto)]

mod columns;
mod contexts;
mod laws;
mod orders;
mod part_requests;
mod partitions;
mod requests;
mod serdes;
mod skews;
mod storages;
mod tables;
mod texts;

pub use columns::{ColumnFields, read_field_schema, write_field_schema};
pub use contexts::{ContextFields, read_environment_context};
pub use laws::{order_is_free, written_is_read};
pub use orders::{OrderFields, read_order, write_order};
pub use part_requests::{
    AddPartitionsFields, read_add_partitions_request, write_add_partitions_result,
};
pub use partitions::{PartitionFields, read_partition, write_partition};
pub use requests::{
    TableRequest, TableRequestFields, read_get_table_request, write_get_table_result,
};
pub use serdes::{SerdeFields, read_ser_de_info, write_ser_de_info};
pub use skews::{SkewFields, read_skewed_info, write_skewed_info};
pub use storages::{StorageFields, read_storage_descriptor, write_storage_descriptor};
pub use tables::{TableFields, read_table, write_table};
