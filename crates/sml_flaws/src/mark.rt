//! What a declaration binds and where, one mark after another, by a walk over its nodes.

ghost use Rattle.std.specs.Prelude.{◌≡◌, ◌+◌, ◌++◌, ◌<◌, ◌≤◌, ◌^◌, true, false, [], ◌∷◌, length, replicate, reverse, IfOk, OnOk};
ghost use Rattle.std.specs.List.{cons_option};
ghost use Rattle.sml_flaws.specs.Marks as spec;
ghost use Rattle.sml_flaws.specs.CodeContexts.{contexts_in, contexts_of};

use crate::role::{Entry, Role, Space, Word, entry_of, roles_of};
use sml_lex::fault::Memory;
use sml_read::grammar::{DeclarationRule, NameRule, Node, PatternRule, Rule};
use sml_read::table::backwards;
use std::alloc::Global;

/// A name that is bound: it must differ from the others of its space and its group. A group goes by its first token.
#[derive(Clone, Copy, PartialEq, Eq, Drop)]
pub struct Bound {
    pub space: Space,
    pub group: usize,
    pub token: usize,
}

/// A type variable in a type of a value declaration, which goes by its node.
#[derive(Clone, Copy, PartialEq, Eq, Drop)]
pub struct Owned {
    pub owner: usize,
    pub token: usize,
}

/// A type variable in a list, with the value declaration whose list it is, if it is one's.
#[derive(Clone, Copy, PartialEq, Eq, Drop)]
pub struct Listed {
    pub group: usize,
    pub owner: Option<usize>,
    pub token: usize,
}

/// An identifier in a pattern: the first token of its sequence, its number in that, its token, and whether it would be
/// bound by `rec` if it stands for itself.
#[derive(Clone, Copy, PartialEq, Eq, Drop)]
pub struct Identifier {
    pub sequence: usize,
    pub index: usize,
    pub token: usize,
    pub binds: bool,
}

/// A clause of a function: the first token of the function's first clause and its own, and how many atomic patterns its
/// head has.
#[derive(Clone, Copy, PartialEq, Eq, Drop)]
pub struct Clause {
    pub function: usize,
    pub sequence: usize,
    pub atoms: usize,
}

/// What is noted at a node.
#[derive(Clone, Copy, PartialEq, Eq, Drop)]
pub enum Mark {
    Bound(Bound),
    Listed(Listed),
    Owned(Owned),
    Identifier(Identifier),
    /// An identifier in a row of patterns after `rec` that stands for a label and itself.
    Pun(usize),
    /// A real constant in a pattern.
    Real(usize),
    Clause(Clause),
}

/// What is known of a phrase by the phrases round it: what its token is, the innermost group, value declaration and
/// function, the sequence of patterns and how many of it stand before, and whether it is a pattern after `rec`.
#[derive(Clone, Copy, PartialEq, Eq, Drop)]
pub struct Context {
    pub word: Word,
    pub group: usize,
    pub owner: Option<usize>,
    pub binds: bool,
    pub function: usize,
    pub sequence: usize,
    pub index: usize,
}

/// Symbols still to come that follow on one another and have the same context.
#[derive(Clone, Copy, PartialEq, Eq, Drop)]
struct Run {
    context: Context,
    count: usize,
}

/// The symbols still to come: the first run of them, and those after it from the last to the first.
#[derive(Drop)]
pub struct Runs {
    here: Run,
    after: Vec<Run>,
}

/// What is known of a declaration.
const START: Context = Context {
    word: Word::Plain,
    group: 0,
    owner: None,
    binds: false,
    function: 0,
    sequence: 0,
    index: 0,
};

/// The context inside a phrase with this node and this first token.
fn entered(entry: Entry, node: usize, token: usize, context: Context) -> Context
    requires { token + 1 < 2 ^ 64 }
    ensures { result ≡ spec.entered entry node token context }
{
    let mut inside = context;
    match entry {
        Entry::Nothing => {}
        Entry::Group => inside.group = token,
        Entry::Types => {
            inside.group = token;
            inside.owner = None;
        }
        Entry::Value => inside.owner = Some(node),
        Entry::Recursive => inside.binds = true,
        Entry::Sequence => {
            inside.sequence = token;
            inside.index = 0;
        }
        Entry::Function => {
            inside.function = token;
            inside.sequence = token;
            inside.index = 0;
        }
        Entry::Clause => {
            inside.sequence = token + 1;
            inside.index = 0;
        }
    }
    inside
}

/// The context of a symbol with this role.
fn in_role(role: Role, context: Context) -> Context
    ensures { result ≡ spec.in_role role context }
{
    let mut part = context;
    match role {
        Role::Same => {}
        Role::Next => part.index = context.index.saturating_add(1),
        Role::Expression => part.binds = false,
        Role::Word(word) => part.word = word,
    }
    part
}

impl Runs {
    pub fn new(alloc: Global) -> Runs {
        Runs {
            here: Run {
                context: START,
                count: 0,
            },
            after: Vec::new(alloc),
        }
    }

    /// One symbol is to come, that of a declaration.
    fn begin(&mut self)
        ensures { contexts_of self.new ≡ spec.start ∷ [] }
    {
        self.here = Run {
            context: START,
            count: 1,
        };
        self.after.clear();
    }
}

/// The first run after this one that has symbols comes to stand here, if there is one.
#[inline(never)]
fn next_run(runs: &mut Runs) -> bool
    ensures none { result ≡ false → contexts_in (reverse runs.old.after.items) ≡ [] }
    ensures some { result ≡ true → (0 < runs.new.here.count) × (contexts_in (reverse runs.old.after.items) ≡ contexts_of runs.new) }
{
    while let Some(run) = runs.after.pop() {
        if run.count > 0 {
            runs.here = run;
            return true;
        }
    }
    false
}

/// Takes the next symbol, if there is one, off its run, which stands here then.
fn take(runs: &mut Runs) -> bool
    ensures none { result ≡ false → contexts_of runs.old ≡ [] }
    ensures some { result ≡ true → contexts_of runs.old ≡ runs.new.here.context ∷ contexts_of runs.new }
{
    if runs.here.count == 0 && !next_run(runs) {
        return false;
    }
    runs.here.count -= 1;
    true
}

/// So many symbols with this context go before the others.
fn push_run(runs: &mut Runs, context: Context, count: usize) -> Result<(), Memory>
    ensures { OnOk result (contexts_of runs.new ≡ replicate count context ++ contexts_of runs.old) }
{
    if runs.here.count > 0 {
        runs.after.push(runs.here)?;
    }
    runs.here = Run { context, count };
    Ok(())
}

/// So many parts of a phrase whose context stands here go before the other symbols, the last of them first: as one run
/// those after the last role, and then each that has a role.
#[inline(never)]
fn push_parts(
    runs: &mut Runs,
    entry: Entry,
    roles: &[Role],
    count: usize,
    number: usize,
    token: usize,
) -> Result<(), Memory>
    requires { token + 1 < 2 ^ 64 }
    ensures { OnOk result (contexts_of runs.new ≡ spec.contexts_from roles.now (spec.entered entry number token runs.old.here.context) 0 count ++ contexts_of runs.old) }
{
    let inside = entered(entry, number, token, runs.here.context);
    push_run(runs, inside, count.saturating_sub(roles.len()))?;
    for index in (0..roles.len().min(count)).rev() {
        push_run(runs, in_role(roles[index], inside), 1)?;
    }
    Ok(())
}

/// The parts of a node whose context stands here go before the other symbols. Where all have that context, they only
/// make its run longer.
fn enter(runs: &mut Runs, node: Node, number: usize, token: usize) -> Result<(), Memory>
    requires { token + 1 < 2 ^ 64 }
    ensures { OnOk result (contexts_of runs.new ≡ spec.parts_of number token runs.old.here.context node ++ contexts_of runs.old) }
{
    let Node::Inner(rule) = node else {
        return Ok(());
    };
    let entry = entry_of(rule);
    let roles = roles_of(rule);
    let count = backwards(rule).len();
    match entry {
        Entry::Nothing if roles.is_empty() && count <= usize::MAX - runs.here.count => {
            runs.here.count += count;
            Ok(())
        }
        _ => push_parts(runs, entry, roles, count, number, token),
    }
}

/// The mark at a token.
fn word_mark(token: usize, context: &Context) -> Option<Mark>
    ensures { result ≡ spec.word_mark context.now.word token context.now }
{
    match context.word {
        Word::Plain | Word::Constant => None,
        Word::Bound(space) => Some(Mark::Bound(Bound {
            space,
            group: context.group,
            token,
        })),
        Word::Listed => Some(Mark::Listed(Listed {
            group: context.group,
            owner: context.owner,
            token,
        })),
        Word::Variable => {
            let owner = context.owner?;
            Some(Mark::Owned(Owned { owner, token }))
        }
        Word::Atom => Some(Mark::Identifier(Identifier {
            sequence: context.sequence,
            index: context.index,
            token,
            binds: context.binds,
        })),
    }
}

fn is_constant(word: Word) -> bool
    ensures { result ≡ spec.is_constant word }
{
    match word {
        Word::Constant => true,
        _ => false,
    }
}

/// The mark at a phrase of this rule.
fn rule_mark(rule: Rule, token: usize, context: &Context) -> Option<Mark>
    ensures { result ≡ spec.rule_mark rule token context.now }
{
    match rule {
        Rule::Names(NameRule::ConstantRealConstant) => {
            if is_constant(context.word) {
                Some(Mark::Real(token))
            } else {
                None
            }
        }
        Rule::Patterns(PatternRule::RowRestTyped) => {
            if context.binds {
                Some(Mark::Pun(token.saturating_sub(1)))
            } else {
                None
            }
        }
        Rule::Declarations(DeclarationRule::AtPatsNone) => Some(Mark::Clause(Clause {
            function: context.function,
            sequence: context.sequence,
            atoms: context.index,
        })),
        _ => None,
    }
}

/// The mark at a node with this first token.
fn mark_at(node: Node, token: usize, context: &Context) -> Option<Mark>
    ensures { result ≡ spec.mark_at token context.now node }
{
    match node {
        Node::Leaf => word_mark(token, context),
        Node::Inner(rule) => rule_mark(rule, token, context),
    }
}

fn push_some(marks: &mut Vec<Mark>, mark: Option<Mark>) -> Result<(), Memory>
    ensures { OnOk result (marks.new.items ≡ marks.old.items ++ cons_option mark []) }
{
    match mark {
        Some(mark) => marks.push(mark)?,
        None => {}
    }
    Ok(())
}

/// The first token after a node.
fn token_after(node: Node, token: usize) -> usize
    requires { token + 1 < 2 ^ 64 }
    ensures { result ≡ spec.token_after token node }
{
    match node {
        Node::Leaf => token + 1,
        Node::Inner(_) => token,
    }
}

/// Puts the marks of a declaration with these nodes, the first of them beginning at this token, in the place of those
/// before.
pub fn note_marks(
    marks: &mut Vec<Mark>,
    runs: &mut Runs,
    nodes: &[Node],
    begun: usize,
) -> Result<(), Memory>
    requires { begun + length nodes.now < 2 ^ 64 }
    ensures { OnOk result (marks.new.items ≡ spec.marks_of 0 begun (spec.start ∷ []) nodes.now) }
{
    marks.clear();
    runs.begin();
    let mut token = begun;
    for i in 0..nodes.len() {
        if !take(runs) {
            return Ok(());
        }
        let mark = mark_at(nodes[i], token, &runs.here.context);
        push_some(marks, mark)?;
        enter(runs, nodes[i], i, token)?;
        token = token_after(nodes[i], token);
    }
    Ok(())
}
