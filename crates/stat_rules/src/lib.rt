//! The calls on statistics of columns: what each is refused for, changes and results in.
#![tactic(auto)]

mod kept;
mod part_calls;
mod places;
mod sites;
mod table_calls;
mod taking;
mod told;

pub use part_calls::{
    delete_partition_column_statistics, get_partition_column_statistics,
    update_partition_column_statistics,
};
pub use table_calls::{
    delete_table_column_statistics, get_table_column_statistics, get_table_statistics_req,
    update_table_column_statistics,
};
