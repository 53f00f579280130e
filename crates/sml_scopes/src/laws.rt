//! What scopes tell of the environment that they mean.

ghost use Rattle.sml_scopes.specs.Tells.{ScopesTell};

/// What scopes say of identifiers holds in the environment that they mean: of structures and types as of long identifiers of
/// values that construct.
pub fn scopes_tell()
    ensures { ScopesTell }
{}
