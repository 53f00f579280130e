//! The symbols of a document: its declarations with what they bind.

use crate::findings::{Answered, Chart};
use crate::outline::{accepted, bound_text, first_from};
use sml_client::positions::{Lines, Range, push_range};
use sml_client::written::Text;
use sml_lex::fault::Memory;
use sml_lex::token::{Kind, Span, Token};
use sml_reply::reply::Reply;
use sml_shown::remark::{after, cut};
use std::alloc::Global;
use std::collections::BTreeMap;

/// The kinds of symbols.
const MODULE: &[u8] = b"2";

const ENUM: &[u8] = b"10";

const INTERFACE: &[u8] = b"11";

const FUNCTION: &[u8] = b"12";

const VARIABLE: &[u8] = b"13";

const ENUM_MEMBER: &[u8] = b"22";

const STRUCT: &[u8] = b"23";

const EVENT: &[u8] = b"24";

/// How deep symbols are nested at most. Below, they are listed by longer names.
const MOST_OPEN: usize = 16;

/// A line of what a declaration binds: the kind of the symbol, its path, what is said of it, and whether others may stand
/// in it.
#[derive(Clone, Copy)]
struct Entry<'a> {
    kind: &'static [u8],
    path: &'a [u8],
    detail: &'a [u8],
    is_open: bool,
}

/// A symbol that stands open: its path, and whether another one stands in it.
#[derive(Clone, Copy)]
struct Node<'a> {
    path: &'a [u8],
    is_parent: bool,
}

/// Where an identifier stands, and whether a word before it says that it is bound there.
#[derive(Clone, Copy)]
struct Named {
    span: Span,
    is_bound: bool,
}

/// A declaration: its range, where its identifiers stand, and the address of its document.
struct Site<'a> {
    alloc: Global,
    uri: &'a str,
    lines: &'a Lines<'a>,
    extent: Span,
    names: BTreeMap<Vec<u8>, Named>,
}

impl Drop for Site<'_> {
    fn drop(self) {
        let Site {
            alloc: _,
            uri: _,
            lines: _,
            extent: _,
            names: _,
        } = self;
    }
}

/// The symbols that stand open, and the list of all, to which more are added.
#[derive(Drop)]
struct Nest<'a, 'b> {
    open: Vec<Node<'a>>,
    text: &'b mut Text,
}

/// The type after the parameters that stand before it.
fn after_parameters(rest: &[u8]) -> &[u8] {
    let end = match rest.first() {
        Some(b'\'') => b' ',
        Some(b'(') => b')',
        _ => return rest,
    };
    match cut(rest, end) {
        Some((_, others)) => after(others, b" ").unwrap_or(others),
        None => rest,
    }
}

/// A path and what stands after it and after a sign with spaces around it.
fn make_entry<'a>(kind: &'static [u8], rest: &'a [u8]) -> Entry<'a> {
    let (path, others) = match cut(rest, b' ') {
        Some((path, others)) => (path, others),
        None => (rest, &rest[rest.len()..]),
    };
    let detail = match cut(others, b' ') {
        Some((_, detail)) => detail,
        None => others,
    };
    Entry {
        kind,
        path,
        detail,
        is_open: kind == MODULE || kind == INTERFACE,
    }
}

/// Whether an arrow stands in a type outside of brackets.
fn is_arrow(ty: &[u8]) -> bool {
    let mut depth: u64 = 0;
    let mut before = b' ';
    for byte in ty {
        match *byte {
            b'(' | b'{' => depth = depth.saturating_add(1),
            b')' | b'}' => depth = depth.saturating_sub(1),
            b'>' if before == b'-' && depth == 0 => return true,
            _ => {}
        }
        before = *byte;
    }
    false
}

/// The kind of the symbol of a line that begins with this word.
fn kind_of(word: &[u8]) -> Option<&'static [u8]> {
    let kinds: [(&[u8], &'static [u8]); 8] = [
        (b"structure", MODULE),
        (b"signature", INTERFACE),
        (b"functor", MODULE),
        (b"type", STRUCT),
        (b"datatype", ENUM),
        (b"val", VARIABLE),
        (b"con", ENUM_MEMBER),
        (b"exception", EVENT),
    ];
    for (name, kind) in kinds {
        if name == word {
            return Some(kind);
        }
    }
    None
}

/// What a line says. A value is a function if an arrow stands in its type outside of brackets.
fn entry_in<'a>(line: &'a [u8]) -> Option<Entry<'a>> {
    let (word, rest) = cut(line, b' ')?;
    let kind = kind_of(word)?;
    if kind == STRUCT || kind == ENUM {
        return Some(make_entry(kind, after_parameters(rest)));
    }
    let found = make_entry(kind, rest);
    if kind == VARIABLE && is_arrow(found.detail) {
        Some(make_entry(FUNCTION, rest))
    } else {
        Some(found)
    }
}

/// Whether the identifier after a token of this kind is mostly bound there.
fn is_binder(kind: Kind) -> bool {
    match kind {
        Kind::ValWord | Kind::FunWord | Kind::AndWord | Kind::RecWord | Kind::OpWord => true,
        Kind::TypeWord | Kind::EqtypeWord | Kind::DatatypeWord | Kind::ExceptionWord => true,
        Kind::StructureWord | Kind::SignatureWord | Kind::FunctorWord => true,
        Kind::TypeVariable | Kind::Bar => true,
        _ => false,
    }
}

/// Whether a token is an identifier without a path.
fn is_identifier(kind: Kind) -> bool {
    match kind {
        Kind::Alphanumeric | Kind::Symbolic | Kind::Star => true,
        _ => false,
    }
}

/// Where the identifiers between two bytes stand: each at the first place where it seems to be bound, or else at its first
/// place.
fn names_in(
    alloc: Global,
    unit: &[u8],
    tokens: &[Token],
    extent: Span,
) -> Result<BTreeMap<Vec<u8>, Named>, Memory> {
    let mut names = BTreeMap::new(alloc);
    let mut before = Kind::Semicolon;
    let first = first_from(tokens, extent.start);
    for token in tokens.get(first..).unwrap_or(&[]) {
        if token.span.start >= extent.end {
            return Ok(names);
        }
        if is_identifier(token.kind) {
            let named = Named {
                span: token.span,
                is_bound: is_binder(before),
            };
            note(alloc, &mut names, unit, named)?;
        }
        before = token.kind;
    }
    Ok(names)
}

/// Notes a place of an identifier, unless a better one is known.
fn note(
    alloc: Global,
    names: &mut BTreeMap<Vec<u8>, Named>,
    unit: &[u8],
    named: Named,
) -> Result<(), Memory> {
    let text = unit.get(named.span.start..named.span.end).unwrap_or(&[]);
    let is_better = match names.get(text) {
        Some(known) => named.is_bound && !known.is_bound,
        None => true,
    };
    if is_better {
        names.insert(Vec::from_slice(alloc, text)?, named)?;
    }
    Ok(())
}

/// The last part of a path.
fn last_part(path: &[u8]) -> &[u8] {
    let mut start = 0;
    for (index, byte) in path.iter().enumerate() {
        if *byte == b'.' && index.saturating_add(1) < path.len() {
            start = index.saturating_add(1);
        }
    }
    path.get(start..).unwrap_or(path)
}

/// A path below this one, without it.
fn below<'a>(path: &'a [u8], above: &[u8]) -> Option<&'a [u8]> {
    after(after(path, above)?, b".")
}

impl Site<'_> {
    /// The range of the identifier of a path, or of the declaration's beginning where it doesn't stand there.
    fn name_range(&self, path: &[u8]) -> Range {
        match self.names.get(last_part(path)) {
            Some(named) => self.lines.range(named.span.start, named.span.end),
            None => self.lines.range(self.extent.start, self.extent.start),
        }
    }

    /// Adds a symbol by this name, without its end.
    fn push_nested(&self, text: &mut Text, entry: &Entry, name: &[u8]) {
        push_named(text, entry, name);
        if !entry.detail.is_empty() {
            text.push(b",\"detail\":");
            text.push_string(entry.detail);
        }
        text.push(b",");
        let whole = self.lines.range(self.extent.start, self.extent.end);
        push_range(text, b"range", whole);
        text.push(b",");
        push_range(text, b"selectionRange", self.name_range(entry.path));
    }

    /// Adds a symbol of a list that isn't nested.
    fn push_flat(&self, text: &mut Text, entry: &Entry) {
        let name = last_part(entry.path);
        push_named(text, entry, name);
        text.push(b",\"location\":{\"uri\":");
        text.push_string(self.uri.as_bytes());
        text.push(b",");
        push_range(text, b"range", self.name_range(entry.path));
        text.push(b"}");
        let size = entry.path.len().saturating_sub(name.len());
        let holder = entry.path.get(..size.saturating_sub(1)).unwrap_or(&[]);
        if !holder.is_empty() {
            text.push(b",\"containerName\":");
            text.push_string(holder);
        }
        text.push(b"}");
    }
}

/// Adds the beginning of a symbol: its name and its kind.
fn push_named(text: &mut Text, entry: &Entry, name: &[u8]) {
    text.push(b"{\"name\":");
    text.push_string(name);
    text.push_all(&[b",\"kind\":", entry.kind]);
}

/// Adds a comma, unless a list begins here.
fn separate(text: &mut Text) {
    if text.bytes().last() != Some(&b'[') {
        text.push(b",");
    }
}

impl<'a> Nest<'a, '_> {
    /// Begins a symbol in the innermost one that stands open.
    fn begin(&mut self) {
        if let Some(node) = self.open.last_mut() {
            if !node.is_parent {
                node.is_parent = true;
                self.text.push(b",\"children\":[");
            }
        }
        separate(self.text);
    }

    /// Closes the innermost symbol that stands open.
    fn close(&mut self) {
        if let Some(node) = self.open.pop() {
            let end: &[u8] = if node.is_parent { b"]}" } else { b"}" };
            self.text.push(end);
        }
    }

    /// The path below the innermost open symbol; the whole path where none stands open.
    fn inner<'c>(&self, path: &'c [u8]) -> Option<&'c [u8]> {
        match self.open.last() {
            Some(node) => below(path, node.path),
            None => Some(path),
        }
    }

    /// Closes symbols until this path lies below the innermost open one, and gives what is left of the path there.
    fn close_to<'c>(&mut self, path: &'c [u8]) -> &'c [u8] {
        for _turn in 0..=MOST_OPEN {
            if let Some(inner) = self.inner(path) {
                return inner;
            }
            self.close();
        }
        path
    }

    /// Adds what a line says.
    fn take(&mut self, site: &Site, entry: Entry<'a>) {
        let name = self.close_to(entry.path);
        self.begin();
        site.push_nested(self.text, &entry, name);
        if entry.is_open && self.open.len() < MOST_OPEN {
            self.open(entry.path);
        } else {
            self.text.push(b"}");
        }
    }

    /// Lets a symbol stand open.
    fn open(&mut self, path: &'a [u8]) {
        let node = Node {
            path,
            is_parent: false,
        };
        if self.open.push(node).is_err() {
            self.text.lose();
        }
    }

    /// Closes all symbols.
    fn finish(&mut self) {
        for _turn in 0..=MOST_OPEN {
            self.close();
        }
    }
}

/// The entries of these lines.
fn entries<'a>(alloc: Global, text: &'a [u8]) -> Result<Vec<Entry<'a>>, Memory> {
    let mut found = Vec::new(alloc);
    let mut rest = text;
    for _turn in 0..text.len() {
        let Some((line, others)) = cut(rest, b'\n') else {
            return Ok(found);
        };
        if let Some(entry) = entry_in(line) {
            found.push(entry)?;
        }
        rest = others;
    }
    Ok(found)
}

/// Adds the nested symbols of a declaration that binds these.
fn push_all_nested(site: &Site, entries: &[Entry], text: &mut Text) {
    let mut nest = Nest {
        open: Vec::new(site.alloc),
        text,
    };
    for entry in entries {
        nest.take(site, *entry);
    }
    nest.finish();
}

/// Adds the symbols of a declaration that binds these, one after the other.
fn push_all_flat(site: &Site, entries: &[Entry], text: &mut Text) {
    for entry in entries {
        separate(text);
        site.push_flat(text, entry);
    }
}

/// Adds the symbols of a document with this address, as JSON.
pub fn symbols(
    alloc: Global,
    answered: Answered,
    uri: &str,
    is_nested: bool,
    text: &mut Text,
) -> Result<(), Memory> {
    let chart = Chart::new(alloc, answered)?;
    text.push(b"[");
    push_declarations(answered, &chart, uri, is_nested, text)?;
    text.push(b"]");
    Ok(())
}

/// Adds the symbols of all declarations.
fn push_declarations<'a>(
    answered: Answered,
    chart: &'a Chart<'a>,
    uri: &'a str,
    is_nested: bool,
    text: &mut Text,
) -> Result<(), Memory> {
    let count = answered.replies().len();
    for number in 1..=count {
        if let Some(reply) = accepted(answered, number) {
            let site = site_of(chart, uri, chart.extent(number, count))?;
            push_reply(&site, reply, is_nested, text)?;
        }
    }
    Ok(())
}

/// A declaration in a document with this address.
fn site_of<'a>(chart: &'a Chart<'a>, uri: &'a str, extent: Span) -> Result<Site<'a>, Memory> {
    let lexed = &chart.map.lexed;
    Ok(Site {
        alloc: chart.alloc,
        uri,
        lines: &chart.lines,
        extent,
        names: names_in(chart.alloc, lexed.unit, &lexed.tokens, extent)?,
    })
}

/// Adds the symbols of a declaration that was accepted.
fn push_reply(site: &Site, reply: &Reply, is_nested: bool, text: &mut Text) -> Result<(), Memory> {
    let bound = bound_text(site.alloc, reply)?;
    push_symbols(site, &bound, is_nested, text)
}

/// Adds the symbols of a declaration that binds this.
fn push_symbols(site: &Site, bound: &[u8], is_nested: bool, text: &mut Text) -> Result<(), Memory> {
    let entries = entries(site.alloc, bound)?;
    if is_nested {
        push_all_nested(site, &entries, text);
    } else {
        push_all_flat(site, &entries, text);
    }
    Ok(())
}
