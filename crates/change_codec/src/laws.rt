//! Laws of the spellings of each version, each the contract of a function that does nothing.

ghost use Rattle.change_codec.specs.Records.{an_entry, an_item, event};
ghost use Rattle.change_codec.specs.Forms.{list_of};
ghost use Rattle.change_codec.specs.Whole.{HasOneSpelling, IsCutAtItsEnd, IsReadAgain, IsRefusedInPlace, IsSpelled};
ghost use Rattle.change_codec.specs.declared.version.Version.{Version};

/// What was written is read again, whatever follows it.
pub fn each_is_read_again()
    ensures event { (version : Version) → IsReadAgain (event version) }
    ensures events { (version : Version) → IsReadAgain (list_of (event version)) }
    ensures item { (version : Version) → IsReadAgain (an_item version) }
    ensures items { (version : Version) → IsReadAgain (list_of (an_item version)) }
    ensures entry { (version : Version) → IsReadAgain (an_entry version) }
{}

/// What is read off the front of bytes is spelled by the bytes that it took.
pub fn each_is_spelled_as_read()
    ensures event { (version : Version) → IsSpelled (event version) }
    ensures events { (version : Version) → IsSpelled (list_of (event version)) }
    ensures item { (version : Version) → IsSpelled (an_item version) }
    ensures items { (version : Version) → IsSpelled (list_of (an_item version)) }
    ensures entry { (version : Version) → IsSpelled (an_entry version) }
{}

/// No spelling of a value begins that of another: two values whose spellings stand at the front of
/// the same bytes are equal.
pub fn each_has_one_spelling()
    ensures event { (version : Version) → HasOneSpelling (event version) }
    ensures events { (version : Version) → HasOneSpelling (list_of (event version)) }
    ensures item { (version : Version) → HasOneSpelling (an_item version) }
    ensures items { (version : Version) → HasOneSpelling (list_of (an_item version)) }
    ensures entry { (version : Version) → HasOneSpelling (an_entry version) }
{}

/// Where reading stops. The bytes before the place, by themselves, only end too soon. Where bytes are
/// left behind it, no spelling begins with them all, and reading stops at this place whatever
/// follows them.
pub fn each_is_refused_in_place()
    ensures event { (version : Version) → IsRefusedInPlace (event version) }
    ensures events { (version : Version) → IsRefusedInPlace (list_of (event version)) }
    ensures item { (version : Version) → IsRefusedInPlace (an_item version) }
    ensures items { (version : Version) → IsRefusedInPlace (list_of (an_item version)) }
    ensures entry { (version : Version) → IsRefusedInPlace (an_entry version) }
{}

/// A spelling that is cut before its end is refused where it ends.
pub fn each_is_cut_at_its_end()
    ensures event { (version : Version) → IsCutAtItsEnd (event version) }
    ensures events { (version : Version) → IsCutAtItsEnd (list_of (event version)) }
    ensures item { (version : Version) → IsCutAtItsEnd (an_item version) }
    ensures items { (version : Version) → IsCutAtItsEnd (list_of (an_item version)) }
    ensures entry { (version : Version) → IsCutAtItsEnd (an_entry version) }
{}
