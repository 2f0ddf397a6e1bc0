//! Laws of the files, each the contract of a function that does nothing.

ghost use Rattle.std.specs.Prelude.{Option};
ghost use Rattle.cat_types.specs.declared.changes.Event.{Event};
ghost use Rattle.cat_types.specs.declared.items.Item.{Item};
ghost use Rattle.change_codec.specs.Whole.{HasOneSpelling, IsReadAgain, IsRefusedInPlace, IsSpelled};
ghost use Rattle.dump_files.specs.Events.{event_file};
ghost use Rattle.dump_files.specs.Items.{item_file};
ghost use Rattle.dump_files.specs.declared.bounds.Bounds.{Bounds};

/// A file that was written is read again, whatever follows it.
pub fn each_file_is_read_again()
    ensures items { (bounds : Bounds) (last : Option Item) → IsReadAgain (item_file bounds last) }
    ensures events { (bounds : Bounds) (last : Option Event) → IsReadAgain (event_file bounds last) }
{}

/// What is read as a file is one, and is spelled by the bytes that it took.
pub fn each_file_is_spelled_as_read()
    ensures items { (bounds : Bounds) (last : Option Item) → IsSpelled (item_file bounds last) }
    ensures events { (bounds : Bounds) (last : Option Event) → IsSpelled (event_file bounds last) }
{}

/// No file begins another: two files whose spellings stand at the front of the same bytes are equal.
pub fn each_file_has_one_spelling()
    ensures items { (bounds : Bounds) (last : Option Item) → HasOneSpelling (item_file bounds last) }
    ensures events { (bounds : Bounds) (last : Option Event) → HasOneSpelling (event_file bounds last) }
{}

/// Where a file is refused. The bytes before the place, by themselves, only end too soon. Where
/// bytes are left behind it, no file begins with them all, and it is refused at this place whatever
/// follows them.
pub fn each_file_is_refused_in_place()
    ensures items { (bounds : Bounds) (last : Option Item) → IsRefusedInPlace (item_file bounds last) }
    ensures events { (bounds : Bounds) (last : Option Event) → IsRefusedInPlace (event_file bounds last) }
{}
