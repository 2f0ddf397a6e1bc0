//! The calls on databases and tables: what each is refused for, changes and results in.
#![tactic(auto)]

mod databases;
mod showing;
mod table_changes;
mod table_reads;

pub use databases::{
    DATABASE_LIMIT, alter_database, create_database, drop_database, get_all_databases,
    get_database, get_databases,
};
pub use table_changes::{TABLE_LIMIT, alter_table, create_table, drop_table};
pub use table_reads::{
    get_all_tables, get_fields, get_schema, get_table, get_table_req, get_tables, get_tables_named,
};
