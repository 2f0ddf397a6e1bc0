//! The structs of the metastore's Thrift interface, off the wire and onto it.
#![tactic(auto)]

mod database;
mod dumps;
mod from_wire;
mod functions;
mod got;
mod laws;
mod lists;
mod literals;
mod maps;
mod notification_laws;
mod notification_request;
mod notifications;
mod pairs;
mod struct_fault;
mod structs;
mod to_wire;
mod told_events;
mod writing;

pub use database::{DatabaseFields, read_database, write_database};
pub use dumps::write_repl_dump_result;
pub use from_wire::{FromWire, read_typed, skip_field};
pub use functions::write_get_all_functions_response;
pub use got::{Got, said_or_bad};
pub use laws::{
    bad_maps_are_told, database_is_said, last_pair_counts, order_is_free, written_is_read,
};
pub use notification_laws::{any_fields_make_a_notification_request, notification_request_is_said};
pub use notification_request::{
    NotificationRequest, NotificationRequestFields, read_notification_event_request,
};
pub use notifications::{
    write_current_notification_event_id, write_notification_event,
    write_notification_event_response,
};
pub use pairs::PairsSoFar;
pub use struct_fault::StructFault;
pub use structs::{FieldSink, StructSink, read_slots, read_struct, read_whole};
pub use to_wire::{ToWire, put_field, put_optional};
pub use told_events::cut_long;
pub use writing::{put_list, put_texts};
