//! The numbers that say which variant of an enum follows.

// The byte of a flag.
pub const FALSE: u8 = 0;

pub const TRUE: u8 = 1;

// The byte before the value of an option.
pub const ABSENT: u8 = 0;

pub const PRESENT: u8 = 1;

// The tags of operations.
pub const PUT_DB_OP: u8 = 1;

pub const DROP_DB_OP: u8 = 2;

pub const PUT_TABLE_OP: u8 = 3;

pub const DROP_TABLE_OP: u8 = 4;

pub const MOVE_TABLE_OP: u8 = 5;

pub const PUT_PART_OP: u8 = 6;

pub const DROP_PART_OP: u8 = 7;

pub const MOVE_PART_OP: u8 = 8;

// The tags of kinds of events.
pub const CREATE_DATABASE_KIND: u8 = 1;

pub const ALTER_DATABASE_KIND: u8 = 2;

pub const DROP_DATABASE_KIND: u8 = 3;

pub const CREATE_TABLE_KIND: u8 = 4;

pub const ALTER_TABLE_KIND: u8 = 5;

pub const DROP_TABLE_KIND: u8 = 6;

pub const ADD_PARTITION_KIND: u8 = 7;

pub const ALTER_PARTITION_KIND: u8 = 8;

pub const DROP_PARTITION_KIND: u8 = 9;

// The tags of items of a dump.
pub const DB_ITEM: u8 = 1;

pub const TABLE_ITEM: u8 = 2;

pub const PART_ITEM: u8 = 3;

// The tags of a replica's phases.
pub const ITEMS_PHASE: u8 = 1;

pub const EVENTS_PHASE: u8 = 2;

pub const LIVE_PHASE: u8 = 3;

// The tags of statistics.
pub const FLAG_STATS: u8 = 1;

pub const LONG_STATS: u8 = 2;

pub const TEXT_STATS: u8 = 3;

// The tags of a journal's entries.
pub const EVENT_ENTRY: u8 = 1;

pub const DUMP_ENTRY: u8 = 2;

pub const TRIM_ENTRY: u8 = 3;

pub const LOAD_ENTRY: u8 = 4;
