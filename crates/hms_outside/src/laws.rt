//! Laws on what a crash may leave of a disk.

ghost use Rattle.hms_outside.specs.Laws.{ImagesGrow, SyncsLeaveOneImage};

/// A write takes nothing off what a crash may leave, and a sync leaves of it what a read gives. So a
/// crash inside a call leaves what one right before or right after the call may leave.
pub fn crashes_lie_between_calls()
    ensures grow { ImagesGrow }
    ensures one { SyncsLeaveOneImage }
{}
