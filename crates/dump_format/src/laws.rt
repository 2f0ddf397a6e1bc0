//! What holds of all dumps that stand in folders.

ghost use Rattle.dump_format.specs.Laws.{DumpsAreOne};

/// A folder tells one dump by each name: two dumps that stand in the same files are equal.
pub fn a_folder_tells_one_dump()
    ensures { DumpsAreOne }
{}
