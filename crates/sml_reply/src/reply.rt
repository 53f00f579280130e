//! Replies, in both versions of their text.

ghost use Rattle.std.specs.Prelude.{◌≡◌, ◌++◌, ◌∷◌, IfOk, true, false, [], codes, decimal};
ghost use Rattle.sml_lex.specs.Faults.{fault_of};
ghost use Rattle.sml_objects.specs.Initial.{naming};
ghost use Rattle.sml_objects.specs.Views.{sig_of};
ghost use Rattle.sml_rules.specs.Answers as Answers;
ghost use Rattle.sml_reply.specs.Replies.{reply_text, form_text, version_lines, version_text, refusal_text, warnings_text, warnings_of, accepts, number_of};
ghost use Rattle.std.specs.Option.{option_map};
ghost use Rattle.sml_reply.specs.Sinks.{Prints, in_turn};
ghost use Rattle.sml_texts.specs.Text as T;
ghost use Rattle.sml_texts.specs.Text.{warning_text};

use crate::form::{Form, Version};
use crate::lines::{NumberedText, paths_of, text_of};
use crate::paths::Paths;
use crate::piece::whole_env;
use crate::sink::{Out, OutFault, write_all, write_each};
use indexmap::{IndexMap, IndexSet};
use itoa::Buffer;
use sml_bases::objects::Basis as WholeBasis;
use sml_lex::fault::{Code, Fault, Memory, Place, Warning};
use sml_objects::objects::{Basis, TyName};
use sml_texts::texts::Lines;
use sml_tree::bare::Ident;
use std::alloc::Global;

/// The reply to a declaration, with its number in the unit.
#[derive(Drop)]
pub enum Reply {
    Accepted(AcceptedReply),
    Refused(RefusedReply),
}

/// The number of an accepted declaration, the lines of what it binds in version 1, and in version 2 where they differ, and
/// the warnings.
#[derive(Drop)]
pub struct AcceptedReply {
    number: u32,
    lines: Vec<u8>,
    second: Option<Vec<u8>>,
    warnings: Vec<Warning>,
}

#[derive(Drop)]
pub struct RefusedReply {
    number: u32,
    fault: Fault,
}

impl Reply {
    /// The reply to an accepted declaration, of which this is the own basis, with the paths in the basis before it.
    pub fn accepted(
        alloc: Global,
        number: u32,
        basis: &Basis,
        before: &mut Paths,
        warnings: Vec<Warning>,
    ) -> Result<Reply, Memory>
        ensures text { IfOk result (λ r. reply_text r false ≡ T.text naming number (Answers.accepted (sig_of basis.now))) }
        ensures warnings { IfOk result (λ r. warnings_of r ≡ warnings.items) }
        ensures accepted { IfOk result (λ r. accepts r ≡ true) }
        ensures number { IfOk result (λ r. number_of r ≡ number) }
    {
        let mut lines = Lines::new(alloc);
        lines.push_env(alloc, b"", &basis.env)?;
        let Lines { text, names } = lines;
        let second = second_of_piece(alloc, basis, &names, before)?;
        Ok(Reply::Accepted(AcceptedReply {
            number,
            lines: text,
            second,
            warnings,
        }))
    }

    /// The reply to an accepted declaration of the whole language, of which this is the own basis, with the paths in the
    /// basis before it.
    pub fn environment(
        alloc: Global,
        number: u32,
        basis: &WholeBasis,
        before: &mut Paths,
        warnings: Vec<Warning>,
    ) -> Result<Reply, Memory>
        ensures warnings { IfOk result (λ r. warnings_of r ≡ warnings.items) }
        ensures accepted { IfOk result (λ r. accepts r ≡ true) }
        ensures number { IfOk result (λ r. number_of r ≡ number) }
    {
        let NumberedText { text, names } = text_of(alloc, basis, IndexMap::new(alloc))?;
        let paths = paths_of(alloc, &names, before)?;
        let second = second_text(alloc, basis, paths)?;
        Ok(Reply::Accepted(AcceptedReply {
            number,
            lines: text,
            second,
            warnings,
        }))
    }

    /// The reply to a refused declaration.
    pub fn refused(number: u32, fault: Fault) -> Reply
        ensures text { reply_text result false ≡ T.text naming number (Answers.refused (fault_of fault)) }
        ensures warnings { warnings_of result ≡ [] }
        ensures refused { accepts result ≡ false }
        ensures number { number_of result ≡ number }
    {
        Reply::Refused(RefusedReply { number, fault })
    }

    /// An equal reply.
    pub fn copy(&self, alloc: Global) -> Result<Reply, Memory>
        ensures text { IfOk result (λ r. (form : Form) → form_text r form ≡ form_text self.now form) }
        ensures warnings { IfOk result (λ r. warnings_of r ≡ warnings_of self.now) }
        ensures accepted { IfOk result (λ r. accepts r ≡ accepts self.now) }
        ensures number { IfOk result (λ r. number_of r ≡ number_of self.now) }
    {
        match self {
            Reply::Accepted(reply) => Ok(Reply::Accepted(reply.copy(alloc)?)),
            Reply::Refused(reply) => Ok(Reply::Refused(reply.copy(alloc)?)),
        }
    }

    /// Whether the declaration is accepted.
    pub fn is_accepted(&self) -> bool
        ensures { result ≡ accepts self.now }
    {
        match self {
            Reply::Accepted(_) => true,
            Reply::Refused(_) => false,
        }
    }

    /// The fault of a declaration that is refused.
    pub fn fault(&self) -> Option<&Fault> {
        match self {
            Reply::Accepted(_) => None,
            Reply::Refused(reply) => Some(&reply.fault),
        }
    }

    /// The warnings of the declaration.
    pub fn warnings(&self) -> &[Warning]
        ensures { result.now ≡ warnings_of self.now }
    {
        match self {
            Reply::Accepted(reply) => reply.warnings.as_slice(),
            Reply::Refused(_) => &[],
        }
    }
}

impl AcceptedReply {
    fn copy(&self, alloc: Global) -> Result<AcceptedReply, Memory>
        ensures text { IfOk result (λ r. (version : Version) → version_text r version ≡ version_text self.now version) }
        ensures warnings { IfOk result (λ r. r.warnings.items ≡ self.now.warnings.items) }
        ensures number { IfOk result (λ r. r.number ≡ self.now.number) }
    {
        let number = self.number;
        let lines = Vec::from_slice(alloc, self.lines.as_slice())?;
        let second = bytes_copied(alloc, &self.second)?;
        let warnings = Vec::from_slice(alloc, self.warnings.as_slice())?;
        Ok(AcceptedReply {
            number,
            lines,
            second,
            warnings,
        })
    }

    /// The lines of what the declaration binds.
    fn lines(&self, version: Version) -> &[u8]
        ensures { result.now ≡ version_lines self.now version }
    {
        match version {
            Version::One => self.lines.as_slice(),
            Version::Two => match &self.second {
                Some(second) => second.as_slice(),
                None => self.lines.as_slice(),
            },
        }
    }
}

impl RefusedReply {
    fn copy(&self, alloc: Global) -> Result<RefusedReply, Memory>
        ensures text { IfOk result (λ r. refusal_text r ≡ refusal_text self.now) }
        ensures number { IfOk result (λ r. r.number ≡ self.now.number) }
    {
        let detail = bytes_copied(alloc, &self.fault.detail)?;
        let fault = Fault {
            code: self.fault.code,
            place: self.fault.place,
            detail,
        };
        Ok(RefusedReply {
            number: self.number,
            fault,
        })
    }
}

fn bytes_copied(alloc: Global, bytes: &Option<Vec<u8>>) -> Result<Option<Vec<u8>>, Memory>
    ensures { IfOk result (λ r. option_map (λ v. v.items) r ≡ option_map (λ v. v.items) bytes.now) }
{
    match bytes {
        Some(bytes) => Ok(Some(Vec::from_slice(alloc, bytes.as_slice())?)),
        None => Ok(None),
    }
}

/// Version 2 of the lines, where it differs: where some of the names that are numbered in version 1 has a path.
fn second_text(
    alloc: Global,
    basis: &WholeBasis,
    paths: IndexMap<TyName, Ident>,
) -> Result<Option<Vec<u8>>, Memory> {
    if paths.is_empty() {
        return Ok(None);
    }
    let NumberedText { text, .. } = text_of(alloc, basis, paths)?;
    Ok(Some(text))
}

/// The same for a declaration of the piece.
fn second_of_piece(
    alloc: Global,
    basis: &Basis,
    names: &IndexSet<TyName>,
    before: &mut Paths,
) -> Result<Option<Vec<u8>>, Memory> {
    let paths = paths_of(alloc, names, before)?;
    if paths.is_empty() {
        return Ok(None);
    }
    second_text(alloc, &whole_basis(alloc, basis)?, paths)
}

fn whole_basis(alloc: Global, basis: &Basis) -> Result<WholeBasis, Memory> {
    let mut whole = WholeBasis::new(alloc, basis.unit);
    whole.env = whole_env(alloc, &basis.env)?;
    Ok(whole)
}

/// Writes the text of a reply in this form.
pub fn print<O: Out>(reply: &Reply, form: Form, out: &mut O) -> Result<(), OutFault>
    ensures { Prints (O.taken out.old) (O.taken out.new) (O.failures out.old) (O.failures out.new) result (form_text reply.now form) }
{
    match reply {
        Reply::Accepted(reply) => match print_accepted(reply, form.version, out) {
            Ok(_) => {
                if form.warnings {
                    print_warnings(reply.warnings.as_slice(), out)
                } else {
                    Ok(())
                }
            }
            Err(fault) => Err(fault),
        },
        Reply::Refused(reply) => print_refused(reply, out),
    }
}

/// Writes the line that says that a declaration is accepted, and the lines of what it binds.
fn print_accepted<O: Out>(
    reply: &AcceptedReply,
    version: Version,
    out: &mut O,
) -> Result<(), OutFault>
    ensures { Prints (O.taken out.old) (O.taken out.new) (O.failures out.old) (O.failures out.new) result (version_text reply.now version) }
{
    let mut numeral = Buffer::new();
    let parts: [&[u8]; 3] = [
        numeral.format(reply.number).as_bytes(),
        b" ok\n",
        reply.lines(version),
    ];
    write_each(out, &parts)
}

fn print_warnings<O: Out>(warnings: &[Warning], out: &mut O) -> Result<(), OutFault>
    ensures { Prints (O.taken out.old) (O.taken out.new) (O.failures out.old) (O.failures out.new) result (warnings_text warnings.now) }
{
    for warning in warnings {
        match print_warning(*warning, out) {
            Ok(_) => {}
            Err(fault) => return Err(fault),
        }
    }
    Ok(())
}

fn print_warning<O: Out>(warning: Warning, out: &mut O) -> Result<(), OutFault>
    ensures { Prints (O.taken out.old) (O.taken out.new) (O.failures out.old) (O.failures out.new) result (warning_text warning) }
{
    let mut line = Buffer::new();
    let mut column = Buffer::new();
    let parts: [&[u8]; 9] = [
        b"  warning ",
        code_text(warning.code).as_bytes(),
        b" ",
        line.format(warning.place.line).as_bytes(),
        b".",
        column.format(warning.place.column).as_bytes(),
        b" ",
        meaning(warning.code).as_bytes(),
        b"\n",
    ];
    write_each(out, &parts)
}

fn print_refused<O: Out>(reply: &RefusedReply, out: &mut O) -> Result<(), OutFault>
    ensures { Prints (O.taken out.old) (O.taken out.new) (O.failures out.old) (O.failures out.new) result (refusal_text reply.now) }
{
    match print_fault(reply.number, reply.fault.code, reply.fault.place, out) {
        Ok(_) => print_detail(&reply.fault.detail, out),
        Err(fault) => Err(fault),
    }
}

fn print_fault<O: Out>(number: u32, code: Code, place: Place, out: &mut O) -> Result<(), OutFault>
    ensures { Prints (O.taken out.old) (O.taken out.new) (O.failures out.old) (O.failures out.new) result
        (in_turn (decimal number ∷ codes " fault " ∷ T.code_text code ∷ codes " " ∷ decimal place.line ∷ codes "." ∷ decimal place.column ∷ codes " " ∷ T.meaning code ∷ [])) }
{
    let mut numeral = Buffer::new();
    let mut line = Buffer::new();
    let mut column = Buffer::new();
    let parts: [&[u8]; 9] = [
        numeral.format(number).as_bytes(),
        b" fault ",
        code_text(code).as_bytes(),
        b" ",
        line.format(place.line).as_bytes(),
        b".",
        column.format(place.column).as_bytes(),
        b" ",
        meaning(code).as_bytes(),
    ];
    write_each(out, &parts)
}

fn print_detail<O: Out>(detail: &Option<Vec<u8>>, out: &mut O) -> Result<(), OutFault>
    ensures { Prints (O.taken out.old) (O.taken out.new) (O.failures out.old) (O.failures out.new) result (T.detail_text (option_map (λ v. v.items) detail.now) ++ codes "\n") }
{
    match detail {
        Some(bytes) => {
            let parts: [&[u8]; 3] = [b" ", bytes.as_slice(), b"\n"];
            write_each(out, &parts)
        }
        None => write_all(out, b"\n"),
    }
}

/// A code as it is printed.
fn code_text(code: Code) -> &'static str
    ensures { result.now ≡ T.code_text code }
{
    match code {
        Code::L1 => "L1",
        Code::L2 => "L2",
        Code::L3 => "L3",
        Code::L4 => "L4",
        Code::L5 => "L5",
        Code::L6 => "L6",
        Code::S1 => "S1",
        Code::S2 => "S2",
        Code::S3 => "S3",
        Code::F1 => "F1",
        Code::F2 => "F2",
        Code::F3 => "F3",
        Code::F4 => "F4",
        Code::G1 => "G1",
        Code::G2 => "G2",
        Code::G3 => "G3",
        Code::G4 => "G4",
        Code::G5 => "G5",
        Code::U1 => "U1",
        Code::U2 => "U2",
        Code::U3 => "U3",
        Code::U4 => "U4",
        Code::U5 => "U5",
        Code::U6 => "U6",
        Code::U7 => "U7",
        Code::E1 => "E1",
        Code::E2 => "E2",
        Code::E3 => "E3",
        Code::E4 => "E4",
        Code::E5 => "E5",
        Code::E6 => "E6",
        Code::E7 => "E7",
        Code::E8 => "E8",
        Code::E9 => "E9",
        Code::E10 => "E10",
        Code::N1 => "N1",
        Code::N2 => "N2",
        Code::N3 => "N3",
        Code::N4 => "N4",
        Code::N5 => "N5",
        Code::N6 => "N6",
        Code::N7 => "N7",
        Code::M1 => "M1",
        Code::M2 => "M2",
        Code::M3 => "M3",
        Code::M4 => "M4",
        Code::M5 => "M5",
        Code::M6 => "M6",
        Code::M7 => "M7",
        Code::Q1 => "Q1",
        Code::Q2 => "Q2",
        Code::Q3 => "Q3",
        Code::P1 => "P1",
        Code::P2 => "P2",
        Code::P3 => "P3",
    }
}

/// What a code means.
fn meaning(code: Code) -> &'static str
    ensures { result.now ≡ T.meaning code }
{
    match code {
        Code::L1 => "comment not closed",
        Code::L2 => "string not closed",
        Code::L3 => "bad escape or character",
        Code::L4 => "bad byte",
        Code::L5 => "literal too large",
        Code::L6 => "unit too large",
        Code::S1 => "unexpected token",
        Code::S2 => "unit ends too early",
        Code::S3 => "tree too high",
        Code::F1 => "operator without operand",
        Code::F2 => "sides mixed at one level",
        Code::F3 => "fixity level not one digit",
        Code::F4 => "malformed pattern or clause head",
        Code::G1 => "clauses with different names",
        Code::G2 => "clauses with different numbers of arguments",
        Code::G3 => "bound twice",
        Code::G4 => "identifier can't be bound",
        Code::G5 => "real in a pattern",
        Code::U1 => "types clash",
        Code::U2 => "circular type",
        Code::U3 => "type name too new",
        Code::U4 => "not an equality type",
        Code::U5 => "not in the overloading class",
        Code::U6 => "record labels undetermined",
        Code::U7 => "explicit type variable not general",
        Code::E1 => "unbound value",
        Code::E2 => "unbound type",
        Code::E3 => "unbound structure",
        Code::E4 => "wrong number of type arguments",
        Code::E5 => "constructor expected",
        Code::E6 => "local type escapes",
        Code::E7 => "type too large",
        Code::E8 => "type variable out of scope",
        Code::E9 => "right side of rec isn't a function",
        Code::E10 => "variable bound twice in a pattern",
        Code::N1 => "unbound signature",
        Code::N2 => "repeated specification",
        Code::N3 => "name not free",
        Code::N4 => "equality lost",
        Code::N5 => "constructors lost",
        Code::N6 => "arities differ",
        Code::N7 => "constructors differ",
        Code::M1 => "missing component",
        Code::M2 => "wrong arity",
        Code::M3 => "type doesn't admit equality",
        Code::M4 => "type differs",
        Code::M5 => "constructors differ",
        Code::M6 => "value not general enough",
        Code::M7 => "status differs",
        Code::Q1 => "unbound functor",
        Code::Q2 => "exported type undetermined",
        Code::Q3 => "too many type names",
        Code::P1 => "rule is redundant",
        Code::P2 => "match not exhaustive",
        Code::P3 => "binding not exhaustive",
    }
}
