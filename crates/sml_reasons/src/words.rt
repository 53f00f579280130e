//! What was at hand where a declaration was refused, in lines.

use indexmap::{IndexMap, IndexSet};
use sml_core::recorder::{Component, Meeting, OwnNames, Seen};
use sml_lex::fault::Memory;
use sml_modules::explain::Explanation;
use sml_objects::objects::{MlType, Scheme, TyName};
use sml_reply::paths::Paths;
use sml_reply::wording::Wording;
use sml_tree::bare::Ident;
use std::alloc::Global;
use std::rc::Rc;

/// What is said before the first type of a demand.
fn first_words(meeting: Meeting) -> &'static [u8] {
    match meeting {
        Meeting::Argument => b"the function takes ",
        Meeting::Applied => b"what is applied has type ",
        Meeting::Binding => b"the pattern has type ",
        Meeting::Wanted => b"this has type ",
        Meeting::Handler => b"the handler has type ",
        Meeting::Rules => b"the rules before have type ",
        Meeting::Layered => b"before as the type is ",
        Meeting::Late => b"this has type ",
    }
}

/// What is said before the second type of a demand, nothing where there is none.
fn second_words(meeting: Meeting) -> &'static [u8] {
    match meeting {
        Meeting::Argument => b"its argument has type ",
        Meeting::Applied => b"it is used with type ",
        Meeting::Binding => b"the expression has type ",
        Meeting::Wanted => b"but the type wanted here is ",
        Meeting::Handler => b"but the type wanted here is ",
        Meeting::Rules => b"this rule has type ",
        Meeting::Layered => b"after as it is ",
        Meeting::Late => b"",
    }
}

/// The lines of an explanation, in which type names print as the paths that they have, or as the declaration calls them.
pub(crate) fn lines_of(
    alloc: Global,
    explanation: &Explanation,
    paths: &mut Paths,
) -> Result<Vec<Vec<u8>>, Memory> {
    let (_, names) = worded(alloc, explanation, IndexMap::new(alloc))?;
    let texts = texts_of(alloc, &names, &explanation.names, paths)?;
    let (lines, _) = worded(alloc, explanation, texts)?;
    Ok(lines)
}

/// The texts of names: those that the declaration gave them, or else their least paths before it, unless it uses these too.
fn texts_of(
    alloc: Global,
    names: &IndexSet<TyName>,
    own: &OwnNames,
    paths: &mut Paths,
) -> Result<IndexMap<TyName, Ident>, Memory> {
    let mut texts = IndexMap::new(alloc);
    for name in names {
        if let Some(text) = own.text(*name) {
            texts.insert(*name, text.clone()?)?;
        } else if let Some(path) = paths.least(*name)? {
            if !own.has(&path) {
                texts.insert(*name, path)?;
            }
        }
    }
    Ok(texts)
}

/// The lines with these texts for names, and the names that have none.
fn worded(
    alloc: Global,
    explanation: &Explanation,
    texts: IndexMap<TyName, Ident>,
) -> Result<(Vec<Vec<u8>>, IndexSet<TyName>), Memory> {
    let mut wording = Wording::new(alloc, texts);
    push_seen(alloc, &mut wording, explanation)?;
    Ok(wording.into_parts())
}

/// The lines of what was at hand.
fn push_seen(
    alloc: Global,
    wording: &mut Wording,
    explanation: &Explanation,
) -> Result<(), Memory> {
    match &explanation.seen {
        Seen::Types(meeting, scheme, explicit) => {
            push_types(alloc, wording, *meeting, scheme, explicit)
        }
        Seen::Components(found, specified) => {
            let path = match &explanation.fault.detail {
                Some(path) => path.as_slice(),
                None => b"",
            };
            push_components(wording, path, found, specified)
        }
        Seen::Unshared(earlier, later) => push_unshared(wording, earlier, later),
    }
}

/// A line for each of two components at a path.
fn push_components(
    wording: &mut Wording,
    path: &[u8],
    found: &Component,
    specified: &Component,
) -> Result<(), Memory> {
    wording.push(b"the structure has ")?;
    push_component(wording, path, found)?;
    wording.end_line()?;
    wording.push(b"the signature asks for ")?;
    push_component(wording, path, specified)?;
    wording.end_line()
}

/// A line for each of two types that can't be shared.
fn push_unshared(wording: &mut Wording, earlier: &[u8], later: &[u8]) -> Result<(), Memory> {
    wording.push(b"the first type is ")?;
    wording.push(earlier)?;
    wording.end_line()?;
    wording.push(b"the type here is ")?;
    wording.push(later)?;
    wording.end_line()
}

/// A line for each type of a demand.
fn push_types(
    alloc: Global,
    wording: &mut Wording,
    meeting: Meeting,
    scheme: &Scheme,
    explicit: &[Ident],
) -> Result<(), Memory> {
    let MlType::Row(_, parts) = &*scheme.body else {
        return Ok(());
    };
    let second = second_words(meeting);
    let count = if second.is_empty() { 1 } else { 2 };
    let names = names_of(alloc, explicit, parts, count)?;
    for (index, part) in parts.iter().enumerate() {
        if index < count {
            let words = if index == 0 {
                first_words(meeting)
            } else {
                second
            };
            wording.push(words)?;
            wording.push_unknowns(&scheme.variables, &names, part)?;
            wording.end_line()?;
        }
    }
    Ok(())
}

/// The explicit type variables that unknowns stand for, which come after the first so many types.
fn names_of(
    alloc: Global,
    explicit: &[Ident],
    parts: &[Rc<MlType>],
    count: usize,
) -> Result<IndexMap<u32, Ident>, Memory> {
    let mut names = IndexMap::new(alloc);
    for (index, name) in explicit.iter().enumerate() {
        if let Some(part) = parts.get(index.saturating_add(count)) {
            if let MlType::Bound(unknown) = &**part {
                names.insert(*unknown, name.clone()?)?;
            }
        }
    }
    Ok(names)
}

fn push_component(wording: &mut Wording, path: &[u8], component: &Component) -> Result<(), Memory> {
    match component {
        Component::Type(ty) => wording.push_type_str(path, ty),
        Component::Abstract(ty, equality) => wording.push_abstract(path, ty, *equality),
        Component::Value(value) => wording.push_value(path, value),
    }
}
