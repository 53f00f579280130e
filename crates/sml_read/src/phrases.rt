//! The phrases of a derivation: which tokens and which nodes each takes up.
ghost use Rattle.std.specs.Prelude.{◌≡◌, ◌∷◌, drop, get_or, length, reverse, IfOk};
ghost use Rattle.sml_read.specs.Extents.{ends_of, first_token, tokens_in};

use crate::grammar::Node;
use crate::table::backwards;
use sml_lex::fault::Memory;
use std::alloc::Global;

/// How many tokens these nodes have.
pub fn token_count(nodes: &[Node]) -> usize
    ensures { result ≡ tokens_in nodes.now }
{
    let mut count = 0;
    for node in nodes {
        match *node {
            Node::Leaf => count += 1,
            Node::Inner(_) => {}
        }
    }
    count
}

/// The number of the first token of a node's phrase, and of a phrase without tokens that of the token after it, where so
/// many tokens stand before what is after the node. A phrase's place is its first token.
pub fn first_token(node: Node, after: usize) -> usize
    ensures { result ≡ first_token node after }
{
    match node {
        Node::Leaf => after.saturating_sub(1),
        Node::Inner(_) => after,
    }
}

/// The end on top, or the other where there is none.
fn pop(later: &mut Vec<usize>, other: usize) -> usize
    ensures value { result ≡ get_or (reverse later.old.items) 0 other }
    ensures rest { reverse later.new.items ≡ drop 1 (reverse later.old.items) }
{
    match later.pop() {
        Some(end) => end,
        None => other,
    }
}

/// Takes so many ends off, and answers the last of them: `first` if it is none, `other` where there are fewer.
fn pop_ends(later: &mut Vec<usize>, count: usize, first: usize, other: usize) -> usize
    ensures value { result ≡ get_or (first ∷ reverse later.old.items) count other }
    ensures rest { reverse later.new.items ≡ drop count (reverse later.old.items) }
{
    let mut end = first;
    for _taken in 0..count {
        end = pop(later, other);
    }
    end
}

/// For each node, in order, the number of the node after its phrase.
pub fn ends(alloc: Global, nodes: &[Node]) -> Result<Vec<usize>, Memory>
    ensures { IfOk result (λ v. v.items ≡ ends_of 0 nodes.now) }
{
    let mut ends = Vec::new(alloc);
    let mut later = Vec::new(alloc);
    for i in (0..nodes.len()).rev() {
        let end = match nodes[i] {
            Node::Leaf => i + 1,
            Node::Inner(rule) => { pop_ends(&mut later, backwards(rule).len(), i + 1, nodes.len()) }
        };
        later.push(end)?;
        ends.push(end)?;
    }
    ends.reverse();
    Ok(ends)
}
