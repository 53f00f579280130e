//! What is kept of an environment where it is shared: a walk that needs it doesn't go through what is shared again.

ghost use Rattle.std.specs.Prelude.{◌≡◌, ◌+◌, IfOk};
ghost use Rattle.sml_objects.specs.Views.{entries_of, type_of};
ghost use Rattle.sml_core_rules.specs.Values as V;
ghost use Rattle.sml_bases.specs.Entries.{capped, some_entry, total};
ghost use Rattle.sml_bases.specs.Summaries.{env_has_unknown, keeps_unknown, kept_lines, lines_of};
ghost use Rattle.sml_bases.specs.Views.{env_of};

use crate::ground::is_ground;
use crate::objects::{Env, Summary, Value};
use sml_lex::fault::Memory;
use sml_tree::bare::Ident;
use std::alloc::Global;
use std::collections::BTreeMap;
use std::rc::Rc;

impl Env {
    /// The environment to be shared, with its summary.
    pub fn shared(self, alloc: Global) -> Result<Rc<Env>, Memory>
        ensures env { IfOk result (λ e. env_of e.value ≡ env_of self) }
        ensures lines { IfOk result (λ e. kept_lines e.value ≡ lines_of self) }
        ensures unknown { IfOk result (λ e. keeps_unknown e.value ≡ env_has_unknown self) }
    {
        let mut env = self;
        env.summary = Summary {
            lines: env.lines(),
            has_unknown: env.has_unknown(),
        };
        Ok(Rc::new(alloc, env)?)
    }

    /// How many lines of identifiers with paths it has in a reply, by what is kept of its structures, or the greatest number
    /// of the type.
    pub fn lines(&self) -> u32
        ensures { result ≡ lines_of self.now }
    {
        let own = self.types.len().saturating_add(self.values.len());
        match u32::try_from(own.saturating_add(structure_lines(&self.structures))) {
            Ok(lines) => lines,
            Err(_) => u32::MAX,
        }
    }

    /// Whether an unknown stands in the type of one of its values, or by what is kept of its structures in them.
    pub fn has_unknown(&self) -> bool
        ensures { result ≡ env_has_unknown self.now }
    {
        keep_unknown(&self.structures) || have_unknown(&self.values)
    }
}

fn structure_lines(structures: &BTreeMap<Ident, Rc<Env>>) -> usize
    ensures { result ≡ capped (total (λ n. n + 1) (entries_of (λ s. kept_lines s.value) structures.now.entries)) }
{
    let mut lines: usize = 0;
    for (_, structure) in structures {
        let inner = structure.summary.lines as usize;
        lines = lines.saturating_add(inner + 1);
    }
    lines
}

fn keep_unknown(structures: &BTreeMap<Ident, Rc<Env>>) -> bool
    ensures { result ≡ some_entry (λ b. b) (entries_of (λ s. keeps_unknown s.value) structures.now.entries) }
{
    for (_, structure) in structures {
        if structure.summary.has_unknown {
            return true;
        }
    }
    false
}

fn have_unknown(values: &BTreeMap<Ident, Value>) -> bool
    ensures { result ≡ some_entry V.has_unknown (entries_of (λ v. type_of v.scheme.value.body.value) values.now.entries) }
{
    for (_, value) in values {
        if !is_ground(&value.scheme.body) {
            return true;
        }
    }
    false
}
