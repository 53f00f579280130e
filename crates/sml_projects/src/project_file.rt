//! Project files: a line for each unit.

ghost use Rattle.std.specs.Prelude.{◌≡◌, IfOk, map, string_bytes, true};
ghost use Rattle.std.specs.List.{list_all};
ghost use Rattle.std.specs.Str.Lines.{strip_carriage_return};
ghost use Rattle.sml_projects.specs.ProjectFiles.{IsAnswerTo, LineGives, lines_of, words_of, is_name_byte, is_unit_name, is_file_name, is_remark, has_repeats};

use crate::manifest::{MOST_UNITS, Manifest, ManifestFault, ProjectCode, ProjectFault};
use indexmap::IndexSet;
use sml_lex::fault::Memory;
use std::alloc::{AllocError, Global};

/// The greatest size of a project file, in bytes.
const MOST_BYTES: usize = 1_048_576;

/// The longest name of a unit.
const LONGEST_NAME: usize = 64;

/// What a line gives after the lines before it.
#[derive(Drop)]
enum Line {
    PassedOver,
    Listed(ListedUnit),
    Bad,
}

#[derive(Drop)]
struct ListedUnit {
    name: String,
    file: String,
    needs: Vec<String>,
}

fn fault(code: ProjectCode, line: u32) -> ManifestFault
    ensures { result ≡ ManifestFault.Fault (record { code = code; line = line }) }
{
    ManifestFault::Fault(ProjectFault { code, line })
}

/// The units that a project file lists, or O4 or O3 at the first line that has one of them, O4 where it has both.
pub fn manifest(alloc: Global, text: &[u8]) -> Result<Manifest, ManifestFault>
    ensures { IsAnswerTo text.now result }
{
    if text.len() > MOST_BYTES {
        return Err(fault(ProjectCode::O4, 1));
    }
    let lines = lines(alloc, text)?;
    let mut names = IndexSet::new(alloc);
    let mut files = Vec::new(alloc);
    let mut needs = Vec::new(alloc);
    let mut numbers = Vec::new(alloc);
    for (index, line) in lines.iter().enumerate() {
        let number = index as u32 + 1;
        match read_line(alloc, *line, names.len())? {
            Line::PassedOver => {}
            Line::Listed(unit) => {
                if !names.insert(unit.name)? {
                    return Err(fault(ProjectCode::O3, number));
                }
                files.push(unit.file)?;
                needs.push(unit.needs)?;
                numbers.push(number)?;
            }
            Line::Bad => return Err(fault(ProjectCode::O4, number)),
        }
    }
    Ok(Manifest {
        names,
        files,
        needs,
        lines: numbers,
    })
}

/// The lines of a text of a project file.
fn lines(alloc: Global, text: &[u8]) -> Result<Vec<&[u8]>, AllocError>
    ensures { IfOk result (λ v. map (λ l. l.now) v.items ≡ lines_of text.now) }
{
    text.split(|byte| *byte == b'\n').collect(alloc)
}

/// The words of a line.
fn words(alloc: Global, line: &[u8]) -> Result<Vec<&[u8]>, AllocError>
    ensures { IfOk result (λ v. map (λ w. w.now) v.items ≡ words_of line.now) }
{
    without_return(line)
        .split(|byte| *byte == b' ' || *byte == b'\t')
        .filter(|word| !word.is_empty())
        .collect(alloc)
}

/// The line without a carriage return at its end.
fn without_return(line: &[u8]) -> &[u8]
    ensures { result.now ≡ strip_carriage_return line.now }
{
    if !line.is_empty() && line[line.len() - 1] == b'\r' {
        return &line[..line.len() - 1];
    }
    line
}

/// Reads a line after so many units.
fn read_line(alloc: Global, line: &[u8], listed: usize) -> Result<Line, Memory>
    ensures { IfOk result (LineGives listed line.now) }
{
    let found = words(alloc, line)?;
    let words = found.as_slice();
    if words.is_empty() || is_remark(words[0]) {
        return Ok(Line::PassedOver);
    }
    if words.len() < 3
        || words[0] != b"unit".as_slice()
        || !is_unit_name(words[1])
        || !is_file_name(words[2])
        || listed >= MOST_UNITS
    {
        return Ok(Line::Bad);
    }
    let wanted = &words[3..];
    if !are_unit_names(wanted) {
        return Ok(Line::Bad);
    }
    if has_repeats(alloc, wanted)? {
        return Ok(Line::Bad);
    }
    Ok(Line::Listed(ListedUnit {
        name: String::from_utf8_lossy(alloc, words[1])?,
        file: String::from_utf8_lossy(alloc, words[2])?,
        needs: texts(alloc, wanted)?,
    }))
}

/// Whether each word is the name of a unit.
fn are_unit_names(words: &[&[u8]]) -> bool
    ensures { result ≡ list_all is_unit_name (map (λ w. w.now) words.now) }
{
    words.iter().all(|word| is_unit_name(*word))
}

/// Whether a word stands twice.
fn has_repeats(alloc: Global, words: &[&[u8]]) -> Result<bool, Memory>
    ensures { IfOk result (λ b. b ≡ has_repeats (map (λ w. w.now) words.now)) }
{
    let mut seen = IndexSet::new(alloc);
    for word in words {
        if !seen.insert(*word)? {
            return Ok(true);
        }
    }
    Ok(false)
}

/// Names of units as texts.
fn texts(alloc: Global, words: &[&[u8]]) -> Result<Vec<String>, Memory>
    requires { list_all is_unit_name (map (λ w. w.now) words.now) ≡ true }
    ensures { IfOk result (λ v. map string_bytes v.items ≡ map (λ w. w.now) words.now) }
{
    let mut texts = Vec::new(alloc);
    for word in words {
        texts.push(String::from_utf8_lossy(alloc, *word)?)?;
    }
    Ok(texts)
}

/// Whether a word begins with `#`.
fn is_remark(word: &[u8]) -> bool
    ensures { result ≡ is_remark word.now }
{
    !word.is_empty() && word[0] == b'#'
}

/// Up to 64 letters, digits, underscores and hyphens.
fn is_unit_name(word: &[u8]) -> bool
    ensures { result ≡ is_unit_name word.now }
{
    word.len() <= LONGEST_NAME && word.iter().all(|&byte| is_name_byte(byte))
}

fn is_name_byte(byte: u8) -> bool
    ensures { result ≡ is_name_byte byte }
{
    byte.is_ascii_alphanumeric() || byte == b'_' || byte == b'-'
}

/// Bytes 33 to 126.
fn is_file_name(word: &[u8]) -> bool
    ensures { result ≡ is_file_name word.now }
{
    word.iter().all(|&byte| byte >= 33 && byte <= 126)
}
