//! The lines of an environment.

ghost use Rattle.std.specs.Prelude.{◌≡◌, ◌++◌, ◌∷◌, [], suc, cond, codes, map, nat_eq, nat_lt, length, OnOk, IfOk};
ghost use Rattle.sml_tree.specs.Views.{ident_of};
ghost use Rattle.sml_objects.specs.Initial.{naming};
ghost use Rattle.sml_objects.specs.Objects.{types_of};
ghost use Rattle.sml_objects.specs.Views.{type_of, schemes_of, structures_of, entries_of, env_of, name_of, initial_of};
ghost use Rattle.sml_texts.specs.Spelling.{lines_of, and_pieces, level};
ghost use Rattle.sml_texts.specs.Text as T;

use crate::numerals::push_number;
use indexmap::IndexSet;
use sml_lex::fault::Memory;
use sml_objects::objects::{Env, Initial, MlType, Scheme, TyName};
use sml_tree::bare::Ident;
use std::alloc::Global;
use std::collections::BTreeMap;
use std::rc::Rc;

/// What stands round a type: nothing, the left side of an arrow, or a component of a tuple or the sole argument of a name.
#[derive(Clone, Copy)]
pub enum Around {
    Nothing,
    Arrow,
    Part,
}

impl Around {
    pub fn brackets_arrow(self) -> bool
        ensures { result ≡ nat_lt 0 (level self) }
    {
        match self {
            Around::Nothing => false,
            Around::Arrow => true,
            Around::Part => true,
        }
    }

    pub fn brackets_tuple(self) -> bool
        ensures { result ≡ nat_lt 1 (level self) }
    {
        match self {
            Around::Nothing => false,
            Around::Arrow => false,
            Around::Part => true,
        }
    }
}

/// A text that grows, and the names that were numbered in it.
#[derive(Drop)]
pub struct Lines {
    pub text: Vec<u8>,
    pub names: IndexSet<TyName>,
}

impl Lines {
    /// An empty text.
    pub fn new(alloc: Global) -> Lines
        ensures { lines_of result ≡ ([], []) }
    {
        Lines {
            text: Vec::new(alloc),
            names: IndexSet::new(alloc),
        }
    }

    fn push(&mut self, bytes: &[u8]) -> Result<(), Memory>
        ensures { OnOk result (lines_of self.new ≡ and_pieces (lines_of self.old) (T.say bytes.now)) }
    {
        self.text.extend_from_slice(bytes)?;
        Ok(())
    }

    fn push_if(&mut self, wanted: bool, bytes: &[u8]) -> Result<(), Memory>
        ensures { OnOk result (lines_of self.new ≡ and_pieces (lines_of self.old) (cond wanted (T.say bytes.now) [])) }
    {
        if wanted { self.push(bytes) } else { Ok(()) }
    }

    fn push_name(&mut self, name: TyName) -> Result<(), Memory>
        ensures { OnOk result (lines_of self.new ≡ and_pieces (lines_of self.old) (T.a_name (name_of name) ∷ [])) }
    {
        match name {
            TyName::Initial(initial) => self.push(initial_text(initial)),
            TyName::Made(made) => {
                let (place, _) = self.names.insert_full(name)?;
                prove!(place < self.names.len());
                self.text.extend_from_slice(mark(made.equality))?;
                push_number(&mut self.text, place + 1)
            }
        }
    }

    /// The lines of an environment whose paths begin with the prefix.
    #[cycle(env)]
    pub fn push_env(&mut self, alloc: Global, prefix: &[u8], env: &Env) -> Result<(), Memory>
        ensures { OnOk result (lines_of self.new ≡ and_pieces (lines_of self.old) (T.show_env prefix.now (env_of env.now))) }
    {
        self.push_structures(alloc, prefix, &env.structures)?;
        self.push_lines(b"  type ", prefix, b" = ", &env.types)?;
        self.push_lines(b"  val ", prefix, b" : ", &env.values)
    }

    #[cycle(env)]
    fn push_structures(
        &mut self,
        alloc: Global,
        prefix: &[u8],
        structures: &BTreeMap<Ident, Rc<Env>>,
    ) -> Result<(), Memory>
        ensures { OnOk result (lines_of self.new ≡ and_pieces (lines_of self.old)
            (T.show_structures prefix.now (structures_of (entries_of (λ s. env_of s.value) structures.now.entries)))) }
    {
        for (name, structure) in structures {
            self.push_path(b"  structure ", prefix, name, b"\n")?;
            let longer = longer_prefix(alloc, prefix, name)?;
            self.push_env(alloc, &longer, structure)?;
        }
        Ok(())
    }

    fn push_lines(
        &mut self,
        word: &[u8],
        prefix: &[u8],
        sign: &[u8],
        schemes: &BTreeMap<Ident, Rc<Scheme>>,
    ) -> Result<(), Memory>
        ensures { OnOk result (lines_of self.new ≡ and_pieces (lines_of self.old) (T.lines word.now prefix.now sign.now (schemes_of schemes.now.entries))) }
    {
        for (name, scheme) in schemes {
            self.push_path(word, prefix, name, sign)?;
            self.push_type(Around::Nothing, &scheme.body)?;
            self.push(b"\n")?;
        }
        Ok(())
    }

    fn push_path(
        &mut self,
        word: &[u8],
        prefix: &[u8],
        name: &Ident,
        sign: &[u8],
    ) -> Result<(), Memory>
        ensures { OnOk result (lines_of self.new ≡ and_pieces (lines_of self.old) (T.say (word.now ++ (prefix.now ++ (ident_of name.now ++ sign.now))))) }
    {
        self.text.extend_from_slice(word)?;
        self.text.extend_from_slice(prefix)?;
        self.text.extend_from_slice(name.as_slice())?;
        self.text.extend_from_slice(sign)?;
        Ok(())
    }

    #[cycle(types)]
    fn push_type(&mut self, around: Around, ty: &MlType) -> Result<(), Memory>
        ensures { OnOk result (lines_of self.new ≡ and_pieces (lines_of self.old) (T.show_type (level around) (type_of ty.now))) }
    {
        match ty {
            MlType::Bound(number) => self.push_variable(*number),
            MlType::Free(_) => self.push(b"_"),
            MlType::Arrow(from, to) => {
                let brackets = around.brackets_arrow();
                self.push_if(brackets, b"(")?;
                self.push_type(Around::Arrow, from)?;
                self.push(b" -> ")?;
                self.push_type(Around::Nothing, to)?;
                self.push_if(brackets, b")")
            }
            MlType::Row(_, parts) => {
                if parts.is_empty() {
                    return self.push(b"unit");
                }
                self.push_types(around.brackets_tuple(), Around::Part, b" * ", parts)
            }
            MlType::Name(name, parts) => {
                let several = parts.len() > 1;
                self.push_types(several, sole_part(several), b", ", parts)?;
                self.push_if(!parts.is_empty(), b" ")?;
                self.push_name(*name)
            }
        }
    }

    /// The types with a sign between them, perhaps in brackets.
    #[cycle(types)]
    fn push_types(
        &mut self,
        brackets: bool,
        around: Around,
        between: &[u8],
        types: &[Rc<MlType>],
    ) -> Result<(), Memory>
        ensures { OnOk result (lines_of self.new ≡ and_pieces (lines_of self.old)
            (T.bracketed brackets (T.joined between.now (T.show_types (level around) (level around) (types_of (map (λ t. type_of t.value) types.now)))))) }
    {
        self.push_if(brackets, b"(")?;
        for (index, ty) in types.iter().enumerate() {
            self.push_if(index > 0, between)?;
            self.push_type(around, ty)?;
        }
        self.push_if(brackets, b")")
    }

    /// `'a` to `'z`, then `'a1` and so on.
    fn push_variable(&mut self, number: u32) -> Result<(), Memory>
        ensures { OnOk result (lines_of self.new ≡ and_pieces (lines_of self.old) (T.say (T.variable number))) }
    {
        self.text.push(b'\'')?;
        self.text.push(b'a' + (number % 26) as u8)?;
        if number >= 26 {
            push_number(&mut self.text, (number / 26) as usize)?;
        }
        Ok(())
    }
}

/// What stands round the arguments of a name.
pub fn sole_part(several: bool) -> Around
    ensures { level result ≡ cond several 0 2 }
{
    if several {
        Around::Nothing
    } else {
        Around::Part
    }
}

fn longer_prefix(alloc: Global, prefix: &[u8], name: &Ident) -> Result<Vec<u8>, Memory>
    ensures { IfOk result (λ v. v.items ≡ prefix.now ++ (ident_of name.now ++ codes ".")) }
{
    let mut longer = Vec::from_slice(alloc, prefix)?;
    longer.extend_from_slice(name.as_slice())?;
    longer.push(b'.')?;
    Ok(longer)
}

/// What stands before the number of a name.
fn mark(equality: bool) -> &'static [u8]
    ensures { result.now ≡ cond equality (codes "?=") (codes "?") }
{
    if equality { b"?=" } else { b"?" }
}

pub fn initial_text(name: Initial) -> &'static [u8]
    ensures { result.now ≡ T.initial_text (initial_of name) }
{
    match name {
        Initial::Int => b"int",
        Initial::Word => b"word",
        Initial::Char => b"char",
        Initial::String => b"string",
        Initial::Bool => b"bool",
        Initial::Exn => b"exn",
        Initial::Real => b"real",
        Initial::List => b"list",
        Initial::Ref => b"ref",
    }
}
