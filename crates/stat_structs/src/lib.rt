//! The structs of column statistics, off the wire and onto it. The slots of a struct, as `ObjectFields`,
//! name it as a type of the wire too: `ListOf<ObjectFields>` is a list of ColumnStatisticsObj.
#![tactic(auto)]

mod descs;
mod doubles;
mod flags;
mod laws;
mod longs;
mod members;
mod objects;
mod requests;
mod statistics;
mod strings;

pub use descs::{DescFields, read_column_statistics_desc, write_column_statistics_desc};
pub use doubles::Double;
pub use flags::{FlagFields, read_boolean_column_stats_data, write_boolean_column_stats_data};
pub use laws::{last_member_counts, order_is_free, written_is_read};
pub use longs::{LongFields, read_long_column_stats_data, write_long_column_stats_data};
pub use members::{MemberFields, read_column_statistics_data, write_column_statistics_data};
pub use objects::{ObjectFields, read_column_statistics_obj, write_column_statistics_obj};
pub use requests::{
    StatsRequest, StatsRequestFields, read_table_stats_request, write_table_stats_result,
};
pub use statistics::{StatisticsFields, read_column_statistics, write_column_statistics};
pub use strings::{StringFields, read_string_column_stats_data, write_string_column_stats_data};
