//! Laws of filters, each the contract of a function that does nothing.

ghost use Rattle.filter_rules.specs.Laws.{FiltersAreRead};

/// What a call takes a text for as a filter is the tree that the text spells, and else the refusal
/// that its one fault is told by.
pub fn filters_are_read()
    ensures { FiltersAreRead }
{}
