//! The bare declarations of a unit.

ghost use Rattle.std.specs.Prelude.{◌≡◌, map, IfOk};
ghost use Rattle.std.specs.List.{list_all};
ghost use Rattle.std.specs.Option.{is_some, option_map};
ghost use Rattle.sml_lex.specs.Faults.{fault_of};
ghost use Rattle.sml_tree.specs.Views.{dec_of};
ghost use Rattle.sml_tree.specs.StructureViews.{top_of};
ghost use Rattle.sml_parse.specs.Trees.{fault_from, fault_read, fault_after, last_fault, AreTrees};
ghost use Rattle.sml_read.specs.Extents.{starts_of};
ghost use Rattle.sml_piece_trees.specs.Piece.{piece_of};
ghost use Rattle.sml_reach.specs.Events.{text_at, events_of};
ghost use Rattle.sml_reach.specs.Fits.{fitted_of};
ghost use Rattle.sml_reach.specs.Reach.{up_to, before_misfit, AreFitted};
ghost use Rattle.sml_bare.specs.Derivations.{bare_decs, before_none};

use sml_bare::whole::bare_decs;
use sml_flaws::flawed::{first_flawed, or_else};
use sml_lex::fault::{Code, FIRST, Fault, Memory};
use sml_lex::token::{End, Lexed};
use sml_piece_trees::pieces::pieces;
use sml_reach::fitted::Fitted;
use sml_reach::names::Names;
use sml_reach::place::{place_between, start_of};
use sml_reach::reach::{Misfit, before_misfit, fit};
use sml_read::grammar::Node;
use sml_read::read::{Cause, Full, read};
use sml_tree::bare::BareDec;
use sml_tree::structures::TopDec;
use std::alloc::Global;

/// The whole bare declarations of a unit before the fault, the same as trees of the first piece of the language, and the
/// fault.
#[derive(Drop)]
pub struct Parsed {
    pub declarations: Vec<TopDec>,
    pub piece: Vec<BareDec>,
    pub fault: Option<Fault>,
}

/// A fault at the byte `at`, counted from the byte `start`.
fn fault_at(unit: &[u8], code: Code, start: usize, at: usize) -> Fault
    ensures { Some (fault_of result) ≡ fault_from unit.now code start at }
{
    Fault {
        code,
        place: place_between(unit, start, at),
        detail: None,
    }
}

/// The fault at which reading ended.
fn fault_of_reading(lexed: &Lexed, begun: usize, cause: Option<Cause>) -> Option<Fault>
    ensures { option_map fault_of result
        ≡ fault_read lexed.now.unit.now lexed.now.tokens.items lexed.now.end begun cause }
{
    let start = start_of(&lexed.tokens, begun, 0);
    match cause {
        None => None,
        Some(Cause::Unexpected(index)) => {
            let at = start_of(&lexed.tokens, index, 0);
            Some(fault_at(lexed.unit, Code::S1, start, at))
        }
        Some(Cause::TooEarly) => {
            let last = lexed.tokens.len().saturating_sub(1);
            let at = start_of(&lexed.tokens, last, 0);
            Some(fault_at(lexed.unit, Code::S2, start, at))
        }
        Some(Cause::Lexical) => match lexed.end {
            End::Done => None,
            End::Fault(stop) => {
                let start = start_of(&lexed.tokens, begun, stop.at);
                Some(fault_at(lexed.unit, stop.code, start, stop.at))
            }
        },
    }
}

/// The fault after the last of the declarations.
fn fault_after(lexed: &Lexed, full: &Full, misfit: Option<Misfit>) -> Option<Fault>
    ensures { option_map fault_of result
        ≡ fault_after lexed.now.unit.now lexed.now.tokens.items lexed.now.end full.now.begun full.now.cause misfit }
{
    match misfit {
        None => fault_of_reading(lexed, full.begun, full.cause),
        Some(misfit) => {
            let start = start_of(&lexed.tokens, misfit.begun, 0);
            let at = start_of(&lexed.tokens, misfit.token, 0);
            Some(fault_at(lexed.unit, misfit.code, start, at))
        }
    }
}

/// The last fault: that of a tree that is too high, unless all are low.
fn last_fault(lexed: &Lexed, full: &Full, misfit: Option<Misfit>, are_low: bool) -> Option<Fault>
    ensures { option_map fault_of result
        ≡ last_fault lexed.now.unit.now lexed.now.tokens.items lexed.now.end full.now.begun full.now.cause misfit are_low }
{
    if are_low {
        return fault_after(lexed, full, misfit);
    }
    Some(Fault {
        code: Code::S3,
        place: FIRST,
        detail: None,
    })
}

/// What the sequences of a unit's declarations stand for, and the first fault of fixity.
fn fitted(
    alloc: Global,
    lexed: &Lexed,
    names: &mut Names,
    nodes: &[Node],
) -> Result<(Vec<Fitted>, Option<Misfit>), Memory>
    ensures { IfOk result (λ r. AreFitted (text_at lexed.now.unit.now lexed.now.tokens.items)
        (events_of lexed.now.unit.now lexed.now.tokens.items nodes.now (starts_of 0 nodes.now)) (map fitted_of r.0.items) r.1) }
{
    fit(alloc, lexed.unit, names, nodes, &lexed.tokens)
}

/// The declarations before the one with a fault, up to the first that is too high, and whether none is.
fn tops(
    alloc: Global,
    lexed: &Lexed,
    names: &mut Names,
    nodes: &[Node],
    fitted: &[Fitted],
    misfit: Option<Misfit>,
) -> Result<(Vec<TopDec>, bool), Memory>
    ensures { let all = up_to (before_misfit misfit) (bare_decs lexed.now.unit.now lexed.now.tokens.items 0 nodes.now (map fitted_of fitted.now)) in
        IfOk result (λ r. (map top_of r.0.items ≡ before_none all) × (r.1 ≡ list_all is_some all)) }
{
    bare_decs(
        alloc,
        lexed.unit,
        &lexed.tokens,
        names,
        nodes,
        fitted,
        before_misfit(misfit),
    )
}

/// A unit's whole bare declarations, and the fault. All else that is made on the way to them is let go.
fn whole(alloc: Global, lexed: &Lexed) -> Result<(Vec<TopDec>, Option<Fault>), Memory>
    ensures { IfOk result (λ r. AreTrees lexed.now.unit.now lexed.now.tokens.items lexed.now.end
        (map top_of r.0.items) (map piece_of (map top_of r.0.items)) (option_map fault_of r.1)) }
{
    let full = read(alloc, lexed)?;
    let nodes = full.nodes.as_slice();
    let mut names = Names::new(alloc);
    let (fitted, unfit) = fitted(alloc, lexed, &mut names, nodes)?;
    let flawed = first_flawed(alloc, lexed.unit, &lexed.tokens, nodes, &fitted)?;
    let misfit = or_else(flawed, unfit);
    let (declarations, are_low) = tops(alloc, lexed, &mut names, nodes, &fitted, misfit)?;
    let fault = last_fault(lexed, &full, misfit, are_low);
    Ok((declarations, fault))
}

/// Reads a unit's bare declarations.
pub fn parse(alloc: Global, lexed: &Lexed) -> Result<Parsed, Memory>
    ensures { IfOk result (λ parsed. AreTrees lexed.now.unit.now lexed.now.tokens.items lexed.now.end
        (map top_of parsed.declarations.items) (map dec_of parsed.piece.items) (option_map fault_of parsed.fault)) }
{
    let (declarations, fault) = whole(alloc, lexed)?;
    let piece = pieces(alloc, &declarations)?;
    Ok(Parsed {
        declarations,
        piece,
        fault,
    })
}

/// Lets trees go. Their dropping is proved in this crate, and need not be in a crate above that lets them go here.
pub fn release(_declarations: Vec<TopDec>, _piece: Vec<BareDec>) {}
