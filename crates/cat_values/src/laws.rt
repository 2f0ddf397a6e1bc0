//! Laws of values, each the contract of a function that does nothing.

ghost use Rattle.std.specs.Prelude.{◌≡◌};
ghost use Rattle.cat_values.specs.declared.columns.TheConstants.{KEYS_LIMIT};
ghost use Rattle.cat_values.specs.declared.list_of.TheConstants.{LIST_END};
ghost use Rattle.cat_values.specs.declared.map_of.TheConstants.{MAP_END};
ghost use Rattle.cat_values.specs.declared.names.TheConstants.{NAME_LIMIT};
ghost use Rattle.cat_values.specs.declared.text.TheConstants.{TEXT_LIMIT};

/// How large a text, a list and a map may be, how long a name, and how many keys a table may have.
pub fn sizes_are_bounded()
    ensures text { TEXT_LIMIT ≡ 16777216 }
    ensures list { LIST_END ≡ 2147483648 }
    ensures map { MAP_END ≡ 2147483648 }
    ensures name { NAME_LIMIT ≡ 128 }
    ensures keys { KEYS_LIMIT ≡ 16 }
{}
