//! The calls on partitions: what each is refused for, changes and results in.
#![tactic(auto)]

mod new_parts;
mod part_adds;
mod part_changes;
mod part_reads;
mod part_site;

pub use part_adds::{
    PARTITION_LIMIT, Told, add_partition, add_partitions, add_requested, append_partition,
};
pub use part_changes::{alter_partition, alter_partitions, drop_partition, rename_partition};
pub use part_reads::{
    get_partition, get_partition_names, get_partition_names_ps, get_partitions,
    get_partitions_by_names, get_partitions_ps,
};
