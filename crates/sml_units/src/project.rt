//! Projects and what their declarations are answered.

ghost use Rattle.std.specs.Prelude.{◌≡◌, ◌≤◌, ◌+◌, ◌++◌, ◌&&◌, ◌==◌, Bool, IfOk, IfErr, IfSome, List, OnOk, [], false, true, length, map, replicate, vec_len};
ghost use Rattle.sml_reply.specs.declared.reply.Reply.{Reply};
ghost use Rattle.std.specs.List.{list_all};
ghost use Rattle.std.specs.Option.{is_some, option_map, option_to_list};
ghost use Rattle.sml_lex.specs.Faults.{fault_of};
ghost use Rattle.sml_tree.specs.Views.{dec_of};
ghost use Rattle.sml_objects.specs.Initial.{Name, initial_basis};
ghost use Rattle.sml_objects.specs.Objects as O;
ghost use Rattle.sml_objects.specs.Objects.{extend, extend_env};
ghost use Rattle.sml_objects.specs.Views.{env_of, maker_of, sig_of};
ghost use Rattle.sml_rules.specs.Answers.{accepted};
ghost use Rattle.sml_rules.specs.Open.{OpenEnv};
ghost use Rattle.sml_rules.specs.Readings.{is_specified};
ghost use Rattle.sml_piece.specs.Elaborated.{IsBasisOf, IsOwnBasis};
ghost use Rattle.sml_units.specs.Checked.{MayReply, HaveOwnPlaces, IsReplyTo, Answered, AreNumbered, AreRepliesTo, with_last};
ghost use Rattle.sml_units.specs.CodeUnits.{AreBegunAndEnded, AreEnded, AreReady, IsAnswered, IsBegun, IsStep, Keeps};
ghost use Rattle.sml_reply.specs.Replies.{number_of};
ghost use Rattle.sml_units.specs.Complete.{AreComplete, AreTo, IsMadeOf, texts_of};
ghost use Rattle.sml_units.specs.Counts.{IsCountOf, IsNumberOf};
ghost use Rattle.sml_projects.specs.Orders.{unit_texts, unit_text_of};
ghost use Rattle.sml_units.specs.Runs.{start, flag_at};

use crate::needs::{empty, nameless, paths_of_needs, with_needs};
use crate::whole::{answer_rest, exported, whole_basis};
use sml_bases::objects::Basis as WholeBasis;
use sml_exports::exports::Exports;
use sml_initial::initial::initial;
use sml_lex::fault::{Fault, Memory, Warning};
use sml_lex::lexer::lex;
use sml_objects::objects::{Basis, UnitId};
use sml_parse::parse::{Parsed, parse, release};
use sml_piece::modules::topdec;
use sml_piece::top_fault::TopFault;
use sml_projects::project::{Project, ProjectUnit};
use sml_reply::paths::Paths;
use sml_reply::piece::whole_env;
use sml_reply::reply::Reply;
use sml_tree::bare::BareDec;
use sml_tree::structures::TopDec;
use std::alloc::Global;
use std::rc::Rc;

/// The replies to the declarations of each unit, by unit in order.
#[derive(Drop)]
pub struct Replies {
    pub units: Vec<UnitReplies>,
}

/// The name of a unit, and the replies to its declarations.
#[derive(Drop)]
pub struct UnitReplies {
    pub name: String,
    pub replies: Vec<Reply>,
}

/// The beginning of a unit: the replies to declarations of the piece, what they bind, with the paths after them, and how
/// many names they made.
#[derive(Drop)]
struct Beginning {
    count: usize,
    bound: Basis,
    paths: Paths,
    replies: Vec<Reply>,
    is_whole: bool,
}

/// A project that has been checked: the replies, and by unit in order what it was read from, what it exports, and whether
/// that and its replies were kept from before.
#[derive(Drop)]
pub struct Checked {
    pub(crate) replies: Replies,
    pub(crate) sources: Vec<Source>,
    pub(crate) exports: Vec<Exports>,
    pub(crate) kept: Vec<bool>,
    pub(crate) readings: u64,
}

/// What a unit was read from: its place among the unit lines, its text, and the places of its needs in the order.
#[derive(Drop)]
pub(crate) struct Source {
    pub(crate) id: UnitId,
    pub(crate) text: Vec<u8>,
    pub(crate) needs: Vec<usize>,
}

/// What was made of a unit: the replies, what it exports, and how many declarations were answered.
pub(crate) type Read = (Vec<Reply>, Exports, u64);

impl Checked {
    /// The replies to the project's declarations.
    pub fn replies(&self) -> &Replies
        ensures { result.now ≡ self.now.replies }
    {
        &self.replies
    }

    /// Whether each unit, in order, was kept: neither read nor answered anew.
    pub fn kept(&self) -> &[bool]
        ensures { result.now ≡ self.now.kept.items }
    {
        self.kept.as_slice()
    }

    /// How many declarations were answered: those of the units that weren't kept.
    pub fn readings(&self) -> u64
        ensures { result ≡ self.now.readings }
    {
        self.readings
    }
}

/// Answers every declaration of the project.
pub fn check(alloc: Global, project: &Project) -> Result<Checked, Memory>
    ensures replies { HaveOwnPlaces (unit_texts project.now) → IfOk result (λ c. MayReply project.now c.replies) }
    ensures kept { IfOk result (λ c. c.kept.items ≡ replicate (vec_len project.now.units) false) }
    ensures readings { IfOk result (λ c. IsCountOf (unit_texts project.now) c.readings) }
    ensures complete { IfOk result (IsMadeOf (unit_texts project.now)) }
{
    let initial = Rc::new(alloc, initial(alloc)?)?;
    let mut exports = Vec::new(alloc);
    let mut units = Vec::new(alloc);
    let mut readings: u64 = 0;
    for unit in project.units.as_slice() {
        let name = unit.name.clone()?;
        let (replies, own, count) = check_unit(alloc, &initial, &exports, unit)?;
        units.push(UnitReplies { name, replies })?;
        exports.push(own)?;
        readings = readings.saturating_add(count);
    }
    Ok(Checked {
        replies: Replies { units },
        sources: sources_of(alloc, project)?,
        exports,
        kept: vec![in alloc; false; project.units.len()]?,
        readings,
    })
}

/// What the units of a project are read from.
pub(crate) fn sources_of(alloc: Global, project: &Project) -> Result<Vec<Source>, Memory>
    ensures { IfOk result (λ ss. texts_of ss.items ≡ map (λ u. u.text) (unit_texts project.now)) }
{
    let mut sources = Vec::new(alloc);
    for unit in project.units.as_slice() {
        sources.push(Source {
            id: unit.id,
            text: Vec::from_slice(alloc, unit.text.as_slice())?,
            needs: Vec::from_slice(alloc, unit.needs.as_slice())?,
        })?;
    }
    Ok(sources)
}

/// The replies to the declarations of a unit, what it exports, and how many declarations it has.
pub(crate) fn check_unit(
    alloc: Global,
    initial: &Rc<WholeBasis>,
    exports: &[Exports],
    unit: &ProjectUnit,
) -> Result<Read, Memory>
    ensures replies { (fs : List Bool) (Ss : List (O.Sig Name)) → AreReady (maker_of unit.now.id) fs Ss exports.now → IfOk result (λ r. IsAnswered fs Ss (unit_text_of unit.now) r.0.items r.1) }
    ensures count { IfOk result (λ r. IsNumberOf unit.now.text.items r.2) }
    ensures complete { IfOk result (λ r. AreComplete unit.now.text.items r.0.items) }
{
    let lexed = lex(alloc, &unit.text)?;
    let Parsed {
        declarations,
        piece,
        fault,
    } = parse(alloc, &lexed)?;
    let answer = answer_unit(alloc, initial, exports, unit, &declarations, &piece, fault);
    release(declarations, piece);
    answer
}

/// The replies to these declarations of a unit, the first of which are given as those of the piece too, and to its last
/// fault; and what the unit exports.
fn answer_unit(
    alloc: Global,
    initial: &Rc<WholeBasis>,
    exports: &[Exports],
    unit: &ProjectUnit,
    declarations: &[TopDec],
    piece: &[BareDec],
    fault: Option<Fault>,
) -> Result<Read, Memory>
    requires { length piece.now ≤ length declarations.now }
    ensures replies { (fs : List Bool) (Ss : List (O.Sig Name)) → AreReady (maker_of unit.now.id) fs Ss exports.now
        → IfOk result (λ r. AreBegunAndEnded (maker_of unit.now.id) fs Ss unit.now.needs.items (map dec_of piece.now) (length declarations.now) (option_map fault_of fault) r.0.items r.1) }
    ensures count { IfOk result (λ r. r.2 ≡ length declarations.now) }
    ensures complete { IfOk result (λ r. AreTo (length declarations.now) (option_map fault_of fault) r.0.items) }
{
    let begun = begin(alloc, unit.id, &unit.needs, exports, piece)?;
    end(
        alloc,
        initial,
        exports,
        &unit.needs,
        begun,
        declarations,
        fault,
    )
}

/// The replies to all declarations of a unit and to its last fault, of which these are the beginning; and what the unit
/// exports.
fn end(
    alloc: Global,
    initial: &Rc<WholeBasis>,
    exports: &[Exports],
    needs: &[usize],
    begun: Beginning,
    declarations: &[TopDec],
    fault: Option<Fault>,
) -> Result<Read, Memory>
    requires { length begun.replies.items ≤ length declarations.now }
    ensures replies { IfOk result (λ r. AreEnded begun.replies.items (length declarations.now) (option_map fault_of fault) r.0.items) }
    ensures kept { IfOk result (λ r. Keeps begun (length declarations.now) r.1) }
    ensures count { IfOk result (λ r. r.2 ≡ length declarations.now) }
{
    let Beginning {
        count,
        bound,
        mut paths,
        replies,
        is_whole,
    } = begun;
    let mut basis = whole_basis(alloc, initial, needs, exports, count, &bound)?;
    let rest = after(declarations, replies.len());
    let replies = answer_rest(alloc, &mut basis, &mut paths, replies, rest)?;
    let replies = and_last(replies, fault)?;
    let own = own_exports(alloc, basis, paths, bound, is_all(is_whole, rest))?;
    Ok((replies, own, declarations.len() as u64))
}

/// Whether a beginning of the piece is all of its unit, where these declarations stand after it.
fn is_all(is_whole: bool, rest: &[TopDec]) -> bool
    ensures { result ≡ (is_whole && (length rest.now == 0)) }
{
    is_whole && rest.is_empty()
}

/// What a unit exports that ends with this basis and these paths, and which of it was bound by declarations of the piece;
/// that counts where all of them are.
fn own_exports(
    alloc: Global,
    basis: WholeBasis,
    paths: Paths,
    bound: Basis,
    is_specified: bool,
) -> Result<Exports, Memory>
    ensures there { IfOk result (λ x. is_some x.specified ≡ is_specified) }
    ensures env { IfOk result (λ x. IfSome x.specified (λ e. env_of e.value ≡ env_of bound.env)) }
{
    let specified = if is_specified {
        Some(Rc::new(alloc, bound.env)?)
    } else {
        None
    };
    Ok(Exports {
        whole: exported(alloc, basis)?,
        paths: Rc::new(alloc, paths.into_own())?,
        specified,
    })
}

/// The declarations after the first so many.
fn after(declarations: &[TopDec], count: usize) -> &[TopDec]
    requires { count ≤ length declarations.now }
    ensures { count + length result.now ≡ length declarations.now }
{
    &declarations[count..]
}

/// The replies with that to the unit's last fault, if there is one.
fn and_last(mut replies: Vec<Reply>, fault: Option<Fault>) -> Result<Vec<Reply>, Memory>
    ensures last { IfOk result (λ rs. (os : List Answered) → AreRepliesTo 1 os replies.items → AreRepliesTo 1 (with_last os (option_map fault_of fault)) rs.items) }
    ensures more { IfOk result (λ rs. (tail : List Reply) × (rs.items ≡ replies.items ++ tail) × (length tail ≡ length (option_to_list fault)) × AreRepliesTo (length replies.items + 1) (with_last [] (option_map fault_of fault)) tail) }
{
    match fault {
        Some(fault) => {
            let number = number_after(replies.len())?;
            replies.push(Reply::refused(number, fault))?;
            Ok(replies)
        }
        None => Ok(replies),
    }
}

/// Answers the declarations of a unit as far as they are of the piece, in the basis from which it starts. Where a need
/// isn't all of the piece, there is none.
fn begin(
    alloc: Global,
    id: UnitId,
    needs: &[usize],
    exports: &[Exports],
    declarations: &[BareDec],
) -> Result<Beginning, Memory>
    ensures begun { (fs : List Bool) (Ss : List (O.Sig Name)) → AreReady (maker_of id) fs Ss exports.now
        → IfOk result (IsBegun (maker_of id) (list_all (flag_at fs) needs.now) (start initial_basis Ss needs.now) (map dec_of declarations.now)) }
    ensures few { IfOk result (λ b. length b.replies.items ≤ length declarations.now) }
    ensures numbered { IfOk result (λ b. AreNumbered 1 b.replies.items) }
{
    let basis = Basis::initial(alloc, id)?;
    let paths = paths_of_needs(alloc, needs, exports)?;
    match with_needs(alloc, basis, needs, exports)? {
        Some(basis) => answer_piece(alloc, basis, paths, declarations),
        None => Ok(Beginning {
            count: 0,
            bound: empty(alloc, id),
            paths,
            replies: Vec::new(alloc),
            is_whole: false,
        }),
    }
}

/// The replies to the declarations before the first that isn't of the piece, each of which sees those before it.
fn answer_piece(
    alloc: Global,
    basis: Basis,
    paths: Paths,
    declarations: &[BareDec],
) -> Result<Beginning, Memory>
    ensures begun { (B : O.Basis Name) → IsBasisOf basis B → IfOk result (IsBegun (maker_of basis.unit) true B (map dec_of declarations.now)) }
    ensures few { IfOk result (λ b. length b.replies.items ≤ length declarations.now) }
    ensures numbered { IfOk result (λ b. AreNumbered 1 b.replies.items) }
{
    let mut basis = basis;
    let mut paths = paths;
    let mut bound = empty(alloc, basis.unit);
    let mut replies = Vec::new(alloc);
    for dec in declarations {
        if !is_specified(dec) {
            return Ok(Beginning {
                count: basis.names.len(),
                bound,
                paths,
                replies,
                is_whole: false,
            });
        }
        let number = number_after(replies.len())?;
        let reply = answer(alloc, &mut basis, &mut bound, &mut paths, number, dec)?;
        replies.push(reply)?;
    }
    Ok(Beginning {
        count: basis.names.len(),
        bound,
        paths,
        replies,
        is_whole: true,
    })
}

/// Whether a declaration is of the piece.
fn is_specified(dec: &BareDec) -> bool
    ensures { result ≡ is_specified (dec_of dec.now) }
{
    match dec {
        BareDec::Core(_) | BareDec::Structure(_) => true,
        BareDec::Other(_) => false,
    }
}

/// The reply to a declaration. What an accepted one binds is put into the basis, into what is bound so far, and into the
/// paths.
fn answer(
    alloc: Global,
    basis: &mut Basis,
    bound: &mut Basis,
    paths: &mut Paths,
    number: u32,
    dec: &BareDec,
) -> Result<Reply, Memory>
    requires { is_specified (dec_of dec.now) ≡ true }
    ensures step { (B : O.Basis Name) → IsBasisOf basis.old B → IfOk result (IsStep basis.old basis.new bound.old bound.new B (dec_of dec.now) number) }
    ensures number { IfOk result (λ r. number_of r ≡ number) }
{
    match topdec(alloc, basis, dec) {
        Ok((own, warnings)) => accept(alloc, basis, bound, paths, number, own, warnings),
        Err(TopFault::Fault(fault)) => Ok(Reply::refused(number, fault)),
        Err(TopFault::Memory) => Err(Memory),
    }
}

fn accept(
    alloc: Global,
    basis: &mut Basis,
    bound: &mut Basis,
    paths: &mut Paths,
    number: u32,
    own: Basis,
    warnings: Vec<Warning>,
) -> Result<Reply, Memory>
    ensures reply { IfOk result (λ r. warnings.items ≡ [] → IsReplyTo number (accepted (sig_of own)) r) }
    ensures number { IfOk result (λ r. number_of r ≡ number) }
    ensures basis { (B : O.Basis Name) → IsBasisOf basis.old B → IsOwnBasis basis.old own → OpenEnv (sig_of own).body
        → OnOk result (IsBasisOf basis.new (extend B (sig_of own))) }
    ensures unit { OnOk result (basis.new.unit ≡ basis.old.unit) }
    ensures bound { OnOk result (env_of bound.new.env ≡ extend_env (env_of bound.old.env) (env_of own.env)) }
{
    let reply = Reply::accepted(alloc, number, &own, paths, warnings)?;
    paths.bind(alloc, &whole_env(alloc, &own.env)?)?;
    bound.add(nameless(alloc, own.unit, &own.env)?)?;
    basis.add(own)?;
    Ok(reply)
}

/// The number of a reply with so many before it. Where no `u32` holds it, that counts as want of memory.
pub(crate) fn number_after(count: usize) -> Result<u32, Memory>
    ensures { IfOk result (λ n. n ≡ count + 1) }
{
    let Ok(count) = u32::try_from(count) else {
        return Err(Memory);
    };
    match count.checked_add(1) {
        Some(number) => Ok(number),
        None => Err(Memory),
    }
}
