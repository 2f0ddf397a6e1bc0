//! Laws of filters, each the contract of a function that does nothing.

ghost use Rattle.filter_expr.specs.Laws.{NoFilterGoesOn, ReadTextsNotRefused, TextsAreReadOrRefused, TextsReadOneWay, TextsRefusedOneWay};

/// A text has at most one tree.
pub fn texts_read_one_way()
    ensures { TextsReadOneWay }
{}

/// A text is refused for at most one reason, want of memory apart.
pub fn texts_refused_one_way()
    ensures { TextsRefusedOneWay }
{}

/// No text that has a tree is refused, want of memory apart. So `parse` answers the tree exactly
/// where there is one, and else the one refusal that is due.
pub fn read_texts_not_refused()
    ensures { ReadTextsNotRefused }
{}

/// Where tokens stop to be a filter, no filter begins with the tokens up to that place and the one
/// at it, whatever stands behind them.
pub fn no_filter_goes_on()
    ensures { NoFilterGoesOn }
{}

/// Every text has a tree, or is refused for another reason than want of memory, whatever the keys.
pub fn texts_are_read_or_refused()
    ensures { TextsAreReadOrRefused }
{}
