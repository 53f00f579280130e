//! That likeness and warnings are what they should be, in samples, and what is known of projects that are alike.

ghost use Rattle.sml_run_rules.specs.Samples.{LikenessSamples, WarningSamples};
ghost use Rattle.sml_run_rules.specs.Seals.{SourcesMakeUnits, SealsIsolate};
ghost use Rattle.sml_run_rules.specs.Warnings.{WarningsAreOne};
ghost use Rattle.sml_run_rules.specs.One.{RepliesAreOne};
ghost use Rattle.sml_run_rules.specs.Exported.{SealsExport};

/// Groups of structures and functors are alike where their bodies differ behind equal seals, and not where they differ elsewhere.
pub fn groups_are_alike_in_samples()
    ensures { LikenessSamples }
{}

/// The units of projects that are alike but for what stands behind seals are alike, so that what is known of the answers to alike units
/// is known of the answers to them.
pub fn sources_make_units()
    ensures { SourcesMakeUnits }
{}

/// Matches and bindings have the warnings that they should in samples: none, one that isn't exhaustive, one with a redundant rule.
pub fn warnings_are_told_in_samples()
    ensures { WarningSamples }
{}

/// A declaration has one list of warnings.
pub fn warnings_are_one()
    ensures { WarningsAreOne }
{}

/// Of two projects that differ only in what stands behind seals, where each declaration that differs is accepted in both or refused in
/// both, all other declarations are replied to with the same bytes in both versions, with warnings and without. Those that differ and
/// are accepted are replied to with the same bytes in both versions without warnings.
pub fn seals_isolate_replies()
    ensures { SealsIsolate }
{}

/// A project is replied to in one way: whichever names are taken, the bytes of its replies are the same in every form.
pub fn replies_are_one()
    ensures { RepliesAreOne }
{}

/// What a seal exports is fixed by the basis and the signature expression: two accepted groups that are alike but for what stands behind
/// seals bind the same but for new names, which carry the same, and their replies have the same lines in both versions.
pub fn seals_export()
    ensures { SealsExport }
{}
