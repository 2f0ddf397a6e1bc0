//! The laws of lawful operations.

ghost use Rattle.cat_objects.specs.Lawful.{FittingFinds, FittingIsLawful, FittingKeeps, LawfulThatFindsFits};

/// An operation that fits is lawful in a database whose tables have object names, and finds what it
/// drops, moves or stands under; and a lawful one that finds it fits. Operations that fit drop no
/// database.
pub fn lawful_and_found_is_fitting()
    ensures lawful { FittingIsLawful }
    ensures found { FittingFinds }
    ensures fits { LawfulThatFindsFits }
    ensures keeps { FittingKeeps }
{}
