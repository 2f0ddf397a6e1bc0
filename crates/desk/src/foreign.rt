//! A turn of another caller.

ghost use Rattle.std.specs.Prelude.{◌≤◌};

use cat_types::Step;

/// A turn of another caller, whose number is at least 1.
#[derive(Drop)]
pub struct Foreign {
    pub caller: u32,
    pub step: Step,
    ghost other: { 1 ≤ caller },
}
