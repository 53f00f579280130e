//! The heads of clauses.

ghost use Rattle.std.specs.Prelude.{◌≡◌, IfOk, IfErr};
ghost use Rattle.sml_fixity.specs.Heads.{is_operator, is_function_name, is_phrase, no_operator, infix_head, prefix_head, bracketed_head, IsHead};
ghost use Rattle.sml_fixity.specs.Scopes.{here};

use crate::scopes::Fixities;
use crate::sequences::{FixFault, Item};

/// How the head of a clause is written, and so where its function's name and arguments stand.
#[derive(Clone, Copy, PartialEq, Eq, Drop, Debug)]
pub enum Head {
    /// The name, and then one argument or more.
    Prefix,
    /// The name between two operands, which together are its only argument.
    Infix,
    /// An infix head in brackets, and then further arguments or none.
    Bracketed,
}

fn is_operator(fixities: &Fixities, item: &Item) -> bool
    ensures { result ≡ is_operator (here fixities.now) item.now }
{
    match item {
        Item::Short(name) => fixities.lookup(name).is_some(),
        Item::Op => false,
        Item::Long => false,
        Item::Phrase => false,
    }
}

fn is_function_name(item: &Item) -> bool
    ensures { result ≡ is_function_name item.now }
{
    match item {
        Item::Short(_) => true,
        Item::Op => true,
        Item::Long => false,
        Item::Phrase => false,
    }
}

fn is_phrase(item: &Item) -> bool
    ensures { result ≡ is_phrase item.now }
{
    match item {
        Item::Short(_) => false,
        Item::Op => false,
        Item::Long => false,
        Item::Phrase => true,
    }
}

fn no_operator(fixities: &Fixities, items: &[Item]) -> bool
    ensures { result ≡ no_operator (here fixities.now) items.now }
{
    for item in items {
        if is_operator(fixities, item) {
            return false;
        }
    }
    true
}

fn is_infix_head(fixities: &Fixities, items: &[Item]) -> bool
    ensures { result ≡ infix_head (here fixities.now) items.now }
{
    if items.len() != 3 {
        return false;
    }
    let left = is_operator(fixities, &items[0]);
    let middle = is_operator(fixities, &items[1]);
    let right = is_operator(fixities, &items[2]);
    !left && middle && !right
}

fn is_prefix_head(fixities: &Fixities, items: &[Item]) -> bool
    ensures { result ≡ prefix_head (here fixities.now) items.now }
{
    if items.len() < 2 {
        return false;
    }
    let named = is_function_name(&items[0]);
    let plain = no_operator(fixities, items);
    named && plain
}

fn is_bracketed_head(fixities: &Fixities, items: &[Item], bracketed: &[Item]) -> bool
    ensures { result ≡ bracketed_head (here fixities.now) bracketed.now items.now }
{
    if items.is_empty() {
        return false;
    }
    let phrase = is_phrase(&items[0]);
    let infix = is_infix_head(fixities, bracketed);
    let plain = no_operator(fixities, items);
    phrase && infix && plain
}

/// How a sequence of atomic patterns is the head of a clause where these fixities are in force, or F4 (the
/// Definition, the grammar of fmatch). `bracketed` has the items of the first item, where that is a sequence in
/// round brackets, and else none.
pub fn clause_head(
    fixities: &Fixities,
    items: &[Item],
    bracketed: &[Item],
) -> Result<Head, FixFault>
    ensures head { IfOk result (λ head. IsHead (here fixities.now) items.now bracketed.now head) }
    ensures fault { IfErr result (λ fault. (fault ≡ FixFault.Malformed) × ((head : Head) → ¬ IsHead (here fixities.now) items.now bracketed.now head)) }
{
    if is_infix_head(fixities, items) {
        Ok(Head::Infix)
    } else if is_prefix_head(fixities, items) {
        Ok(Head::Prefix)
    } else if is_bracketed_head(fixities, items, bracketed) {
        Ok(Head::Bracketed)
    } else {
        Err(FixFault::Malformed)
    }
}
