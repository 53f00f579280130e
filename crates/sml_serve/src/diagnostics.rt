//! Faults and warnings as diagnostics.

use crate::board::View;
use crate::findings::{Finding, Findings, Origin};
use crate::projects::Trouble;
use crate::works::Work;
use sml_client::documents::Documents;
use sml_client::paths::uri_of;
use sml_client::positions::{Lines, Range, push_range};
use sml_client::written::Text;
use sml_lex::fault::Memory;
use sml_projects::project::ProjectUnit;
use sml_session::stops::code_text;
use sml_shown::explained::section_of;
use sml_shown::refusals::Refusal;
use std::alloc::Global;

/// The severities of diagnostics.
const ERROR: &[u8] = b"1";

const WARNING: &[u8] = b"2";

const HINT: &[u8] = b"4";

/// What diagnostics are made of.
#[derive(Clone, Copy)]
pub struct Desk<'a> {
    pub view: View<'a>,
    pub work: &'a Work,
}

/// A refused declaration, and the unit that it stands in, by its place in the order.
#[derive(Clone, Copy)]
struct Source {
    place: usize,
    refusal: Refusal,
}

/// The address of a file: as the client writes it where it has it open.
pub fn address(alloc: Global, documents: &Documents, path: &str) -> Result<String, Memory> {
    match documents.get(path) {
        Some(document) => Ok(document.uri.clone()?),
        None if path.starts_with('/') => uri_of(alloc, path),
        None => Ok(String::from_str(alloc, path)?),
    }
}

/// The page of a code.
fn page_of(code: &[u8]) -> &'static [u8] {
    match code.first() {
        Some(b'N' | b'M' | b'Q' | b'P') => b"MODULE_CODES.md",
        Some(b'O') => b"PROJECT.md",
        _ => b"CODES.md",
    }
}

/// Adds the code of a diagnostic, and its page where the client said where the pages are.
fn push_code(view: View, text: &mut Text, code: &[u8]) {
    text.push_all(&[b",\"code\":\"", code, b"\""]);
    if let Some(pages) = &view.settings.pages {
        text.push(b",\"codeDescription\":{\"href\":");
        push_page_address(view.alloc, text, pages, code);
        text.push(b"}");
    }
}

/// Adds the address of the section of a code on its page: `#u1-types-clash`, the heading in small letters, with `-` between
/// its words.
fn push_page_address(alloc: Global, text: &mut Text, pages: &str, code: &[u8]) {
    let mut address = Text::new(alloc);
    address.push(pages.as_bytes());
    address.push(b"/");
    address.push(page_of(code));
    if let Some(section) = section_of(code) {
        address.push(b"#");
        push_small(&mut address, code);
        address.push(b"-");
        push_small(&mut address, section.meaning.as_bytes());
    }
    text.push_quoted(&address);
}

/// Adds letters and digits in small letters, and `-` for spaces.
fn push_small(address: &mut Text, bytes: &[u8]) {
    for byte in bytes {
        if *byte == b' ' {
            address.push(b"-");
        } else if byte.is_ascii_alphanumeric() {
            address.push(&[byte.to_ascii_lowercase()]);
        }
    }
}

/// Adds the line of a message that names the page of a code.
fn push_page(message: &mut Text, code: &[u8]) {
    message.push(b"\n(");
    message.push(code);
    message.push(b" in docs/");
    message.push(page_of(code));
    message.push(b")");
}

/// Adds the range and the severity, with which a diagnostic begins.
fn push_beginning(text: &mut Text, range: Range, severity: &[u8]) {
    text.push(b"{");
    push_range(text, b"range", range);
    text.push_all(&[b",\"source\":\"smlserve\",\"severity\":", severity]);
}

/// Adds the message of a diagnostic.
fn push_message(text: &mut Text, message: &Text) {
    text.push(b",\"message\":");
    text.push_quoted(message);
}

impl Desk<'_> {
    /// The unit at a place.
    fn unit(&self, place: usize) -> Option<&ProjectUnit> {
        self.work.listed.project.units.get(place)
    }

    /// What is found in the unit at a place.
    fn findings(&self, place: usize) -> Option<&Findings> {
        self.work.findings.get(place)
    }

    /// The diagnostics of the file of the unit at a place, the first one with it: its own, and those of the others with it.
    pub fn list(&self, place: usize) -> Result<Vec<u8>, Memory> {
        let mut list = Text::new(self.view.alloc);
        for (other, first) in self.work.firsts.iter().enumerate() {
            if *first == place {
                self.push_all(other, &mut list);
            }
        }
        list.finish()
    }

    /// Adds the diagnostics of the unit at a place to a list.
    fn push_all(&self, place: usize, list: &mut Text) {
        let Some(findings) = self.findings(place) else {
            return;
        };
        for finding in findings.items.as_slice() {
            if !list.bytes().is_empty() {
                list.push(b",");
            }
            self.push(place, finding, list);
        }
    }

    /// Adds a fault or a warning of the unit at a place.
    fn push(&self, place: usize, finding: &Finding, text: &mut Text) {
        let source = self.source_of(place, finding);
        let severity = match source {
            Some(_) => HINT,
            None if finding.is_warning => WARNING,
            None => ERROR,
        };
        push_beginning(text, finding.range, severity);
        push_code(self.view, text, &finding.code);
        self.push_said(finding, source, text);
        if let Some(source) = source {
            self.push_related(source, text);
        }
        text.push(b"}");
    }

    /// The refused declaration that a fault follows from, if there is one.
    fn source_of(&self, place: usize, finding: &Finding) -> Option<Source> {
        match &finding.origin {
            Origin::Nowhere => None,
            Origin::Own(refusal) => Some(Source {
                place,
                refusal: *refusal,
            }),
            Origin::Needs(key) => self.needed(place, key),
        }
    }

    /// The refused declaration of the units needed that would bind the identifier of this key last.
    fn needed(&self, place: usize, key: &[u8]) -> Option<Source> {
        for need in self.unit(place)?.needs.as_slice().iter().rev() {
            if let Some(last) = self.findings(*need)?.refusals.last(key) {
                return match last {
                    Some(refusal) => Some(Source {
                        place: *need,
                        refusal,
                    }),
                    None => None,
                };
            }
        }
        None
    }

    /// Adds what is said of a fault or a warning, which follows from a refused declaration or from nothing.
    fn push_said(&self, finding: &Finding, source: Option<Source>, text: &mut Text) {
        let mut message = Text::new(self.view.alloc);
        message.push(&finding.text);
        if let Some(source) = source {
            self.push_source(&mut message, source);
        }
        push_page(&mut message, &finding.code);
        push_message(text, &message);
    }

    /// `follows from declaration N (FILE:LINE:COL)`, as a line.
    fn push_source(&self, text: &mut Text, source: Source) {
        text.push(b"\nfollows from declaration ");
        text.push_number(source.refusal.number as u64);
        text.push_all(&[b" (", self.name(source.place).as_bytes(), b":"]);
        text.push_number(source.refusal.spot.line);
        text.push(b":");
        text.push_number(source.refusal.spot.column);
        text.push(b")");
    }

    /// The file of the unit at a place, as the project file has it, or else its path.
    fn name(&self, place: usize) -> &str {
        let written = match self.unit(place) {
            Some(unit) => self.work.listed.file_of(unit),
            None => "",
        };
        if written.is_empty() {
            self.path(place)
        } else {
            written
        }
    }

    /// The path of the file of the unit at a place.
    pub fn path(&self, place: usize) -> &str {
        match self.work.paths.get(place) {
            Some(path) => path.as_str(),
            None => "",
        }
    }

    /// Adds the place of a refused declaration.
    fn push_related(&self, source: Source, text: &mut Text) {
        text.push(b",\"relatedInformation\":[{\"location\":{\"uri\":");
        match address(
            self.view.alloc,
            self.view.documents,
            self.path(source.place),
        ) {
            Ok(uri) => text.push_string(uri.as_bytes()),
            Err(_) => text.lose(),
        }
        text.push(b",");
        self.push_first_word(source, text);
        text.push(b"},\"message\":\"this declaration is refused\"}]");
    }

    /// Adds the range of the first word of a refused declaration.
    fn push_first_word(&self, source: Source, text: &mut Text) {
        let unit = match self.unit(source.place) {
            Some(unit) => unit.text.as_slice(),
            None => &[],
        };
        let spot = source.refusal.spot;
        match Lines::new(self.view.alloc, unit, self.view.encoding()) {
            Ok(lines) => push_range(text, b"range", lines.word_range(spot.line, spot.column)),
            Err(_) => text.lose(),
        }
    }
}

/// The diagnostic of a project file with this text.
pub fn trouble_text(view: View, file: &[u8], trouble: &Trouble) -> Result<Vec<u8>, Memory> {
    let mut text = Text::new(view.alloc);
    match Lines::new(view.alloc, file, view.encoding()) {
        Ok(lines) => push_beginning(&mut text, lines.line_range(trouble.line), ERROR),
        Err(_) => text.lose(),
    }
    push_trouble(view, trouble, &mut text);
    text.finish()
}

/// Adds the code of a project file's fault, if it has one, and what is said of it.
fn push_trouble(view: View, trouble: &Trouble, text: &mut Text) {
    let mut message = Text::new(view.alloc);
    message.push(&trouble.text);
    if let Some(code) = trouble.code {
        push_code(view, text, code_text(code));
        push_page(&mut message, code_text(code));
    }
    push_message(text, &message);
    text.push(b"}");
}
