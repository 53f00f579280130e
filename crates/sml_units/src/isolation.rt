//! A sealed body is its maker's own affair.

ghost use Rattle.sml_units.specs.Files.{SealsIsolateFiles};
ghost use Rattle.sml_units.specs.Isolation.{SealsIsolate};

/// If two projects differ only in the bodies of top-level structures sealed by `:>` to the same signature expressions,
/// and each such declaration is accepted in both or refused in both, then the replies to all other declarations are
/// equal byte for byte, for any two runs of them, and those to the accepted sealed ones too. A run is over declarations of
/// the first piece of the language: a project with any other declaration has none.
pub fn seals_isolate()
    ensures { SealsIsolate }
{}

/// The same of files and replies: if the bytes of two projects differ only in the bodies of sealed structures, and each
/// declaration that differs is accepted in both or refused in both, then any replies that they may be given are the same
/// bytes for all other declarations, for the sealed ones that are accepted, and for each unit's last fault. All declarations
/// of both are of the first piece.
pub fn seals_isolate_files()
    ensures { SealsIsolateFiles }
{}
