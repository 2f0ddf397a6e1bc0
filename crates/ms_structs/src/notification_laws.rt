//! What requests for notifications say.

ghost use Rattle.ms_structs.specs.NotificationLaws.{AnyFieldsMakeARequest, RequestIsSaid};

/// A NotificationEventRequest is made of what the last field with each known id says, of those that
/// say something: fields with unknown ids, or of another type, count for nothing.
pub fn notification_request_is_said()
    ensures { RequestIsSaid }
{}

/// Any fields make a NotificationEventRequest: it has no text that could be bad.
pub fn any_fields_make_a_notification_request()
    ensures { AnyFieldsMakeARequest }
{}
