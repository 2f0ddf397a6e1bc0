//! What the rules come to over files and rows of files, as contracts of functions that do nothing.

ghost use Rattle.std.specs.Prelude.{◌≡◌, ◌⊎◌, List, None, Option, Some, true};
ghost use Rattle.cat_types.specs.declared.changes.Event.{Event};
ghost use Rattle.cat_types.specs.declared.items.Item.{Item};
ghost use Rattle.dump_files.specs.Events.{event_stands, is_within};
ghost use Rattle.dump_files.specs.Files.{AreFiles, IsFile};
ghost use Rattle.dump_files.specs.Items.{item_stands};
ghost use Rattle.dump_files.specs.Rows.{AllFollow, IsDatabaseFile, IsEventCount, IsMarked, IsNumbered, IsPartFile, IsTableFile, NamesRise, PartsStand, all_of, table_names};
ghost use Rattle.dump_files.specs.declared.bounds.Bounds.{Bounds};

/// Which items one file has.
pub fn item_files_are_of_one_kind()
    ensures first { (bounds : Bounds) (file : List Item) → IsFile (item_stands bounds) None file → IsDatabaseFile bounds file }
    ensures later { (bounds : Bounds) (last : Item) (file : List Item) → IsFile (item_stands bounds) (Some last) file → IsTableFile file ⊎ IsPartFile file }
{}

/// How the items of all files of a dump stand.
pub fn item_files_are_in_order()
    ensures names { (bounds : Bounds) (files : List (List Item)) → AreFiles (item_stands bounds) None files → NamesRise None (table_names (all_of files)) }
    ensures parts { (bounds : Bounds) (files : List (List Item)) → AreFiles (item_stands bounds) None files → PartsStand None (all_of files) }
    ensures marks { (bounds : Bounds) (files : List (List Item)) → AreFiles (item_stands bounds) None files → AllFollow (IsMarked bounds) None (all_of files) }
{}

/// How many events one file has, and how those of all files of a dump stand.
pub fn event_files_are_in_order()
    ensures count { (bounds : Bounds) (last : Option Event) (file : List Event) → IsFile (event_stands bounds) last file → IsEventCount file }
    ensures numbers { (bounds : Bounds) (files : List (List Event)) → AreFiles (event_stands bounds) None files → AllFollow (IsNumbered bounds) None (all_of files) }
    ensures within { (bounds : Bounds) (files : List (List Event)) → AreFiles (event_stands bounds) None files → AllFollow (λ _ e. is_within bounds e.change ≡ true) None (all_of files) }
{}
