//! What is shown of a project.

use crate::command_line::Wish;
use crate::page::{Page, push_number};
use crate::replies::{Before, note_all, show_all};
use sml_lex::fault::Memory;
use sml_parse::parse::{Parsed, parse, release};
use sml_projects::project::ProjectUnit;
use sml_reasons::reasons::reasons;
use sml_reply::reply::Reply;
use sml_session::files::Listed;
use sml_shown::refusals::Refusals;
use sml_shown::unit_map::UnitMap;
use sml_tree::structures::TopDec;
use sml_units::project::{Checked, check};
use std::alloc::Global;

/// What is shown, and how many declarations were accepted and refused.
#[derive(Drop)]
pub struct Shown {
    pub text: Vec<u8>,
    pub accepted: u64,
    pub refused: u64,
}

/// Checks a project, and shows its faults and what else is wished for.
pub fn show(alloc: Global, listed: &Listed, wish: Wish) -> Result<Shown, Memory> {
    let checked = check(alloc, &listed.project)?;
    let units = checked.replies().units.as_slice();
    let mut shown = Shown {
        text: Vec::new(alloc),
        accepted: 0,
        refused: 0,
    };
    for unit in units {
        count(&unit.replies, &mut shown);
    }
    show_units(alloc, listed, &checked, wish, &mut shown)?;
    if !wish.json {
        push_counts(&mut shown)?;
    }
    Ok(shown)
}

/// Counts the replies.
fn count(replies: &[Reply], shown: &mut Shown) {
    for reply in replies {
        if reply.is_accepted() {
            shown.accepted = shown.accepted.saturating_add(1);
        } else {
            shown.refused = shown.refused.saturating_add(1);
        }
    }
}

/// Shows the units in order.
fn show_units(
    alloc: Global,
    listed: &Listed,
    checked: &Checked,
    wish: Wish,
    shown: &mut Shown,
) -> Result<(), Memory> {
    let are_traced = shown.refused > 0;
    let mut known = Vec::new(alloc);
    for (index, unit) in listed.project.units.iter().enumerate() {
        let answered = Answered {
            checked,
            index,
            are_traced,
        };
        let own = show_unit(alloc, listed, unit, answered, &known, wish, &mut shown.text)?;
        known.push(own)?;
    }
    Ok(())
}

/// A project that was checked, a unit of it by its place in the order, and whether some declaration of the project was
/// refused.
#[derive(Clone, Copy)]
struct Answered<'a> {
    checked: &'a Checked,
    index: usize,
    are_traced: bool,
}

impl<'a> Answered<'a> {
    /// The replies to the unit's declarations.
    fn replies(&self) -> &'a [Reply] {
        match self.checked.replies().units.get(self.index) {
            Some(unit) => unit.replies.as_slice(),
            None => &[],
        }
    }
}

/// The line that says how many declarations were accepted and refused.
fn push_counts(shown: &mut Shown) -> Result<(), Memory> {
    push_number(&mut shown.text, shown.accepted)?;
    shown.text.extend_from_slice(b" accepted, ")?;
    push_number(&mut shown.text, shown.refused)?;
    shown.text.extend_from_slice(b" refused\n")?;
    Ok(())
}

/// Whether something is shown of a reply.
pub fn is_shown(reply: &Reply, wish: Wish) -> bool {
    !reply.is_accepted() || wish.types || (wish.warnings && !reply.warnings().is_empty())
}

/// Whether something is shown of one of the replies.
fn is_any_shown(replies: &[Reply], wish: Wish) -> bool {
    for reply in replies {
        if is_shown(reply, wish) {
            return true;
        }
    }
    false
}

/// Shows the replies to a unit's declarations. Where some declaration of the project was refused, what this unit's bind is
/// noted.
fn show_unit<'a>(
    alloc: Global,
    listed: &'a Listed,
    unit: &'a ProjectUnit,
    answered: Answered,
    known: &'a [Refusals],
    wish: Wish,
    text: &mut Vec<u8>,
) -> Result<Refusals, Memory> {
    let replies = answered.replies();
    let are_traced = answered.are_traced;
    if !are_traced && !is_any_shown(replies, wish) {
        return Ok(Refusals::new(alloc));
    }
    let map = UnitMap::new(alloc, &unit.text)?;
    let page = Page {
        name: &unit.name,
        file: listed.file_of(unit),
        map: &map,
        wish,
    };
    let before = Before {
        listed,
        needs: &unit.needs,
        known,
    };
    if !are_traced {
        let none = Refusals::new(alloc);
        show_all(alloc, &page, &before, &none, replies, text)?;
        return Ok(none);
    }
    let Parsed {
        declarations,
        piece,
        fault: _,
    } = parse(alloc, &map.lexed)?;
    let own = show_traced(alloc, &page, &before, answered, &declarations, text);
    release(declarations, piece);
    own
}

/// Shows the replies to a unit's declarations with the reasons of their faults, and says which were refused.
fn show_traced(
    alloc: Global,
    page: &Page,
    before: &Before,
    answered: Answered,
    declarations: &[TopDec],
    text: &mut Vec<u8>,
) -> Result<Refusals, Memory> {
    let replies = answered.replies();
    let unit = answered.checked.again(alloc, answered.index)?;
    let reasons = reasons(alloc, unit, replies, declarations)?;
    note_all(alloc, page, before, replies, &reasons, declarations, text)
}
