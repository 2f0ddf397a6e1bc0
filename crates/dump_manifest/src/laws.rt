//! What holds of all manifests and of the names of folders.

ghost use Rattle.dump_manifest.specs.Laws.{DirsDiffer, ManifestsAreRead, ManifestsDiffer};

/// A text is the manifest of one value at most, so what is read of a manifest is what was written.
pub fn manifests_differ()
    ensures { ManifestsDiffer }
{}

/// A manifest is stopped nowhere.
pub fn manifests_are_read()
    ensures { ManifestsAreRead }
{}

/// Two dumps have folders of different names.
pub fn dirs_differ()
    ensures { DirsDiffer }
{}
