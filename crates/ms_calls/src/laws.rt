//! Laws of what messages ask, each the contract of a function that does nothing.

ghost use Rattle.ms_calls.specs.Asked.{OrderOfFieldsIsFree};

/// What a message asks doesn't depend on the order in which fields with different ids come.
pub fn order_of_fields_is_free()
    ensures { OrderOfFieldsIsFree }
{}
