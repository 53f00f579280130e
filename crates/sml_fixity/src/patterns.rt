//! The shape of a pattern between its operators.

ghost use Rattle.std.specs.Prelude.{◌≡◌, ◌↔◌, IsTrue};
ghost use Rattle.sml_fixity.specs.Infix.{Tree, yield, Obeys};
ghost use Rattle.sml_fixity.specs.Patterns.{names_of, IsPattern};
ghost use Rattle.sml_fixity.specs.CodeRuns.{next_run};
ghost use Rattle.sml_fixity.specs.Sequences.{is_identifier};

use crate::roles::Role;
use crate::sequences::Item;

/// What stands between the last operator and here.
#[derive(Clone, Copy, PartialEq, Eq, Drop)]
enum Run {
    Start,
    Name,
    Whole,
}

fn is_identifier(item: &Item) -> bool
    ensures { result ≡ is_identifier item.now }
{
    match item {
        Item::Short(_) => true,
        Item::Op => true,
        Item::Long => true,
        Item::Phrase => false,
    }
}

fn is_name(items: &[Item], index: usize) -> bool
    ensures { result ≡ names_of items.now index }
{
    index < items.len() && is_identifier(&items[index])
}

fn step(items: &[Item], role: Role, run: Run) -> Option<Run>
    ensures { result ≡ next_run (names_of items.now) role run }
{
    match role {
        Role::Infix(_) => Some(Run::Start),
        Role::Atom(index) => match run {
            Run::Start => {
                if is_name(items, index) {
                    Some(Run::Name)
                } else {
                    Some(Run::Whole)
                }
            }
            Run::Name => Some(Run::Whole),
            Run::Whole => None,
        },
    }
}

/// Whether a sequence whose operators resolve is a pattern: between them stand one operand, or an identifier and one
/// operand.
pub(crate) fn is_pattern(roles: &[Role], items: &[Item]) -> bool
    ensures { (t : Tree) → yield t ≡ roles.now → Obeys t → (IsTrue result ↔ IsPattern (names_of items.now) t) }
{
    let mut run = Run::Start;
    for role in roles {
        match step(items, *role, run) {
            Some(next) => run = next,
            None => return false,
        }
    }
    true
}
