//! What holds of all names.

ghost use Rattle.part_names.specs.Laws.{NamesDiffer, NamesReadBack};

/// A name that is made can be read, and gives its values back, with `DEFAULT_VALUE` for an empty
/// one.
pub fn names_read_back()
    ensures { NamesReadBack }
{}

/// Two lists of values of the same keys have different names, unless they are the same where
/// `DEFAULT_VALUE` stands for each empty value.
pub fn names_differ()
    ensures { NamesDiffer }
{}
