//! The reader: a stack of symbols still to come, and the nodes so far.
ghost use Rattle.std.specs.Prelude.{◌≡◌, List, [], ◌∷◌, ◌++◌, reverse, Bool, true, false, Option, Some, None, IfOk, OnOk, MatchBool};
ghost use Rattle.std.specs.Option.{MatchOption};
ghost use Rattle.sml_read.specs.declared.grammar.Node.{Node};
ghost use Rattle.sml_read.specs.declared.grammar.Node.TheVariants.{Inner};
ghost use Rattle.sml_read.specs.declared.grammar.Symbol.TheVariants.{Of};
ghost use Rattle.sml_read.specs.Grammar.{right_side};
ghost use Rattle.sml_read.specs.Spelling.{kinds_of, is_outer};
ghost use Rattle.sml_read.specs.CodeSteps.{Takes, Refuses, Completes, Blocks, ends_outer, ends_whole};
ghost use Rattle.sml_read.specs.Answer.{is_done, IsReading};

use crate::grammar::{Node, Part, Rule, Symbol};
use crate::table::{backwards, choice, expected};
use crate::tokens::kinds;
use sml_lex::fault::Memory;
use sml_lex::token::{End, Kind, Lexed};
use std::alloc::Global;

/// Why a unit isn't read to its end.
#[derive(Clone, Copy, PartialEq, Eq, Debug)]
pub enum Cause {
    /// No unit has the token at this place there.
    Unexpected(usize),
    /// The unit ends too early.
    TooEarly,
    /// What stands after the last token is no token.
    Lexical,
}

/// What was read of a unit: the trees of the whole declarations, the place of the token that begins what comes
/// after them, and the fault.
#[derive(Drop)]
pub struct Full {
    pub nodes: Vec<Node>,
    pub begun: usize,
    pub cause: Option<Cause>,
}

/// Lays the right side of a rule on the stack, and adds its node. Right sides are short.
fn expand(stack: &mut Vec<Symbol>, nodes: &mut Vec<Node>, rule: Rule) -> Result<(), Memory>
    ensures stack { OnOk result (stack.new.items ≡ stack.old.items ++ reverse (right_side rule)) }
    ensures nodes { OnOk result (nodes.new.items ≡ nodes.old.items ++ Inner rule ∷ []) }
{
    nodes.reserve(1)?;
    nodes.push_reserved(Node::Inner(rule));
    let side = backwards(rule);
    stack.reserve(side.len())?;
    for i in 0..side.len() {
        stack.push_reserved(side[i]);
    }
    Ok(())
}

/// Ends what may be ended with this token after it, or none. Says which part is left where it is one alone.
fn complete(
    stack: &mut Vec<Symbol>,
    nodes: &mut Vec<Node>,
    next: Option<Kind>,
) -> Result<Option<Part>, Memory>
    requires { ends_outer false (reverse stack.now.items) ≡ true }
    ensures { IfOk result (λ left. (added : List Node) × (nodes.new.items ≡ nodes.old.items ++ added)
        × Completes (reverse stack.old.items) next added (reverse stack.new.items)
        × MatchOption left (Blocks (reverse stack.old.items) next)
        (λ part. (reverse stack.new.items ≡ Of part ∷ []) × (is_outer part ≡ true))) }
{
    while stack.len() > 1 {
        let Symbol::Of(part) = stack[stack.len() - 1] else {
            return Ok(None);
        };
        let Some(rule) = expected(part, next) else {
            return Ok(None);
        };
        stack.pop();
        expand(stack, nodes, rule)?;
    }
    if stack.is_empty() {
        return Ok(None);
    }
    match stack[0] {
        Symbol::Of(part) => Ok(Some(part)),
        Symbol::Word(_) => Ok(None),
    }
}

/// Takes the next token, and says whether some trees of the symbols on the stack begin with it.
fn take_token(stack: &mut Vec<Symbol>, nodes: &mut Vec<Node>, kind: Kind) -> Result<bool, Memory>
    ensures { IfOk result (λ taken. (added : List Node) × (nodes.new.items ≡ nodes.old.items ++ added)
        × MatchBool taken (Takes (reverse stack.old.items) kind added (reverse stack.new.items))
        (Refuses (reverse stack.old.items) kind)) }
{
    while let Some(top) = stack.pop() {
        match top {
            Symbol::Word(word) => {
                if word != kind {
                    return Ok(false);
                }
                nodes.push(Node::Leaf)?;
                return Ok(true);
            }
            Symbol::Of(part) => {
                let Some(rule) = choice(part, kind) else {
                    return Ok(false);
                };
                expand(stack, nodes, rule)?;
            }
        }
    }
    Ok(false)
}

/// Whether a part alone is left, and what stands before it has ended with this token next.
fn is_whole(left: Option<Part>, next: Kind) -> bool
    ensures { result ≡ ends_whole left next }
{
    match left {
        Some(Part::AfterExp) => next == Kind::Semicolon,
        Some(_) => true,
        None => false,
    }
}

/// Reads tokens of these kinds. Where `done` is false, a fault that is no token stands after the last one.
fn read_kinds(alloc: Global, kinds: &[Kind], done: bool) -> Result<Full, Memory>
    ensures { IfOk result (λ full. IsReading kinds.now done full.nodes.items full.begun full.cause) }
{
    let mut stack = Vec::new(alloc);
    stack.push(Symbol::Of(Part::Start))?;
    let mut nodes = Vec::new(alloc);
    let mut begun = 0;
    let mut count = 0;
    for (place, kind) in kinds.iter().enumerate() {
        let left = complete(&mut stack, &mut nodes, Some(*kind))?;
        if is_whole(left, *kind) {
            begun = place;
            count = nodes.len();
        }
        if !take_token(&mut stack, &mut nodes, *kind)? {
            nodes.truncate(count);
            return Ok(Full {
                nodes,
                begun,
                cause: Some(Cause::Unexpected(place)),
            });
        }
    }
    let Some(part) = complete(&mut stack, &mut nodes, None)? else {
        nodes.truncate(count);
        if done {
            return Ok(Full {
                nodes,
                begun,
                cause: Some(Cause::TooEarly),
            });
        }
        return Ok(Full {
            nodes,
            begun,
            cause: Some(Cause::Lexical),
        });
    };
    if done {
        return Ok(Full {
            nodes,
            begun: kinds.len(),
            cause: None,
        });
    }
    match part {
        Part::Start => Ok(Full {
            nodes,
            begun: kinds.len(),
            cause: Some(Cause::Lexical),
        }),
        _ => {
            nodes.truncate(count);
            Ok(Full {
                nodes,
                begun,
                cause: Some(Cause::Lexical),
            })
        }
    }
}

/// Reads a unit's tokens.
pub fn read(alloc: Global, lexed: &Lexed) -> Result<Full, Memory>
    ensures { IfOk result (λ full. IsReading
        (kinds_of lexed.now.tokens.items) (is_done lexed.now.end)
        full.nodes.items full.begun full.cause) }
{
    let done = match lexed.end {
        End::Done => true,
        End::Fault(_) => false,
    };
    read_kinds(alloc, &kinds(alloc, &lexed.tokens)?, done)
}
