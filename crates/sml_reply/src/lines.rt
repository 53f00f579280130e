//! The lines of what an accepted declaration of the whole language binds.

use crate::paths::Paths;
use indexmap::{IndexMap, IndexSet};
use sml_bases::objects::{Basis, Constructors, Env, FunSig, Sig, Status, TypeStr, Value};
use sml_lex::fault::Memory;
use sml_objects::labels::Labels;
use sml_objects::objects::{MadeName, MlType, Scheme, TyName};
use sml_texts::numerals::push_number;
use sml_texts::texts::{Around, initial_text, sole_part};
use sml_tree::bare::Ident;
use std::alloc::Global;
use std::collections::BTreeMap;
use std::rc::Rc;

/// The lines of a reply, and the names that are numbered in it.
#[derive(Drop)]
pub(crate) struct NumberedText {
    pub text: Vec<u8>,
    pub names: IndexSet<TyName>,
}

/// The lines of what the basis itself binds. Names that have a path print as it.
pub(crate) fn text_of(
    alloc: Global,
    basis: &Basis,
    paths: IndexMap<TyName, Ident>,
) -> Result<NumberedText, Memory> {
    let mut lines = Lines::new(alloc, paths);
    lines.push_basis(basis)?;
    let Lines { text, names, .. } = lines;
    Ok(NumberedText { text, names })
}

/// The least paths of those of the names that have one.
pub(crate) fn paths_of(
    alloc: Global,
    names: &IndexSet<TyName>,
    before: &mut Paths,
) -> Result<IndexMap<TyName, Ident>, Memory> {
    let mut paths = IndexMap::new(alloc);
    for name in names {
        if let Some(path) = before.least(*name)? {
            paths.insert(*name, path)?;
        }
    }
    Ok(paths)
}

/// What the numbers of variables in a line mean: parameters by their places, variables by first appearance, or unknowns by
/// first appearance, some of which stand for explicit type variables.
#[derive(Clone, Copy)]
pub(crate) enum Variables<'a> {
    Parameters,
    Scheme(&'a [bool]),
    Unknowns(&'a [bool], &'a IndexMap<u32, Ident>),
}

/// A text that grows, the names that print as paths, the prefix of the paths in its next lines, the names that signatures
/// and functors bind, the made names that were numbered, and the variables that were numbered in the last line.
#[derive(Drop)]
pub(crate) struct Lines {
    pub text: Vec<u8>,
    pub paths: IndexMap<TyName, Ident>,
    prefix: Vec<u8>,
    bound: IndexSet<TyName>,
    pub names: IndexSet<TyName>,
    pub variables: IndexSet<u32>,
}

impl Lines {
    pub(crate) fn new(alloc: Global, paths: IndexMap<TyName, Ident>) -> Lines {
        Lines {
            text: Vec::new(alloc),
            paths,
            prefix: Vec::new(alloc),
            bound: IndexSet::new(alloc),
            names: IndexSet::new(alloc),
            variables: IndexSet::new(alloc),
        }
    }

    pub(crate) fn push(&mut self, bytes: &[u8]) -> Result<(), Memory> {
        self.text.extend_from_slice(bytes)?;
        Ok(())
    }

    pub(crate) fn push_if(&mut self, wanted: bool, bytes: &[u8]) -> Result<(), Memory> {
        if wanted { self.push(bytes) } else { Ok(()) }
    }

    fn push_path(&mut self, name: &Ident) -> Result<(), Memory> {
        self.text.extend_from_slice(&self.prefix)?;
        self.text.extend_from_slice(name.as_slice())?;
        Ok(())
    }

    /// Makes the prefix longer by a name and a dot. The length that it had is handed back.
    fn enter(&mut self, name: &[u8]) -> Result<usize, Memory> {
        let length = self.prefix.len();
        self.prefix.extend_from_slice(name)?;
        self.prefix.push(b'.')?;
        Ok(length)
    }

    fn bind(&mut self, names: &[TyName]) -> Result<(), Memory> {
        for name in names {
            self.bound.insert(*name)?;
        }
        Ok(())
    }

    /// The lines of what the basis itself binds.
    fn push_basis(&mut self, basis: &Basis) -> Result<(), Memory> {
        self.push_env(&basis.env)?;
        for (name, sig) in &basis.signatures {
            self.push_signature(name, sig)?;
        }
        for (name, functor) in &basis.functors {
            self.push_functor(name, functor)?;
        }
        Ok(())
    }

    fn push_signature(&mut self, name: &Ident, sig: &Sig) -> Result<(), Memory> {
        self.push(b"  signature ")?;
        self.push(name.as_slice())?;
        self.push(b"\n")?;
        self.bind(&sig.names)?;
        self.push_within(name.as_slice(), &sig.env)
    }

    fn push_functor(&mut self, name: &Ident, functor: &FunSig) -> Result<(), Memory> {
        self.push(b"  functor ")?;
        self.push(name.as_slice())?;
        self.push(b"\n")?;
        self.bind(&functor.argument.names)?;
        self.bind(&functor.result.names)?;
        let length = self.enter(name.as_slice())?;
        self.push_within(b"arg", &functor.argument.env)?;
        self.push_within(b"res", &functor.result.env)?;
        self.prefix.truncate(length);
        Ok(())
    }

    /// The lines of an environment, with the name in their prefix.
    #[cycle(envs)]
    fn push_within(&mut self, name: &[u8], env: &Env) -> Result<(), Memory> {
        let length = self.enter(name)?;
        self.push_env(env)?;
        self.prefix.truncate(length);
        Ok(())
    }

    #[cycle(envs)]
    fn push_env(&mut self, env: &Env) -> Result<(), Memory> {
        self.push_structures(&env.structures)?;
        self.push_type_lines(&env.types)?;
        self.push_values(&env.values)
    }

    #[cycle(envs)]
    fn push_structures(&mut self, structures: &BTreeMap<Ident, Rc<Env>>) -> Result<(), Memory> {
        for (name, structure) in structures {
            self.push(b"  structure ")?;
            self.push_path(name)?;
            self.push(b"\n")?;
            self.push_within(name.as_slice(), structure)?;
        }
        Ok(())
    }

    fn push_type_lines(&mut self, types: &BTreeMap<Ident, TypeStr>) -> Result<(), Memory> {
        for (name, ty) in types {
            self.push(type_word(&ty.constructors))?;
            self.push_parameters(ty.function.variables.len())?;
            self.push_path(name)?;
            self.push(b" = ")?;
            self.push_type(Variables::Parameters, Around::Nothing, &ty.function.body)?;
            self.push(b"\n")?;
            self.push_constructors(&ty.constructors)?;
        }
        Ok(())
    }

    fn push_constructors(&mut self, constructors: &Constructors) -> Result<(), Memory> {
        for (name, scheme) in constructors {
            self.push(b"  | ")?;
            self.push(name.as_slice())?;
            self.push_scheme(scheme)?;
        }
        Ok(())
    }

    fn push_values(&mut self, values: &BTreeMap<Ident, Value>) -> Result<(), Memory> {
        for (name, value) in values {
            self.push(value_word(value.status))?;
            self.push_path(name)?;
            self.push_scheme(&value.scheme)?;
        }
        Ok(())
    }

    /// The rest of a line with a type of its own.
    fn push_scheme(&mut self, scheme: &Scheme) -> Result<(), Memory> {
        self.variables.clear();
        self.push(b" : ")?;
        let variables = Variables::Scheme(&scheme.variables);
        self.push_type(variables, Around::Nothing, &scheme.body)?;
        self.push(b"\n")
    }

    /// `'a `, or `('a, 'b) `.
    pub(crate) fn push_parameters(&mut self, count: usize) -> Result<(), Memory> {
        self.push_if(count > 1, b"(")?;
        for index in 0..count {
            self.push_if(index > 0, b", ")?;
            self.push_variable(b'\'', false, index)?;
        }
        self.push_if(count > 1, b")")?;
        self.push_if(count > 0, b" ")
    }

    #[cycle(types)]
    pub(crate) fn push_type(
        &mut self,
        variables: Variables<'_>,
        around: Around,
        ty: &MlType,
    ) -> Result<(), Memory> {
        match ty {
            MlType::Bound(number) => self.push_bound(variables, *number),
            MlType::Free(_) => self.push(unknown_text(variables)),
            MlType::Arrow(from, to) => {
                let brackets = around.brackets_arrow();
                self.push_if(brackets, b"(")?;
                self.push_type(variables, Around::Arrow, from)?;
                self.push(b" -> ")?;
                self.push_type(variables, Around::Nothing, to)?;
                self.push_if(brackets, b")")
            }
            MlType::Row(labels, parts) => {
                if parts.is_empty() {
                    return self.push(b"unit");
                }
                if parts.len() > 1 && labels.are_numbered() {
                    let brackets = around.brackets_tuple();
                    return self.push_types(variables, brackets, Around::Part, b" * ", parts);
                }
                self.push_record(variables, labels, parts)
            }
            MlType::Name(name, parts) => {
                let several = parts.len() > 1;
                self.push_types(variables, several, sole_part(several), b", ", parts)?;
                self.push_if(!parts.is_empty(), b" ")?;
                self.push_name(*name)
            }
        }
    }

    /// The types with a sign between them, perhaps in brackets.
    #[cycle(types)]
    #[inline(never)]
    fn push_types(
        &mut self,
        variables: Variables<'_>,
        brackets: bool,
        around: Around,
        between: &[u8],
        types: &[Rc<MlType>],
    ) -> Result<(), Memory> {
        self.push_if(brackets, b"(")?;
        for (index, ty) in types.iter().enumerate() {
            self.push_if(index > 0, between)?;
            self.push_type(variables, around, ty)?;
        }
        self.push_if(brackets, b")")
    }

    #[cycle(types)]
    #[inline(never)]
    fn push_record(
        &mut self,
        variables: Variables<'_>,
        labels: &Labels,
        types: &[Rc<MlType>],
    ) -> Result<(), Memory> {
        self.push(b"{")?;
        for (index, ty) in types.iter().enumerate() {
            self.push_if(index > 0, b", ")?;
            self.push_label(labels, index)?;
            self.push_type(variables, Around::Nothing, ty)?;
        }
        self.push(b"}")
    }

    fn push_label(&mut self, labels: &Labels, index: usize) -> Result<(), Memory> {
        if let Some(label) = labels.as_slice().get(index) {
            self.push(label.as_slice())?;
        }
        self.push(b" : ")
    }

    /// A variable of the line.
    #[inline(never)]
    fn push_bound(&mut self, variables: Variables<'_>, number: u32) -> Result<(), Memory> {
        match variables {
            Variables::Parameters => self.push_variable(b'\'', false, number as usize),
            Variables::Scheme(attributes) => self.push_appeared(b'\'', attributes, number),
            Variables::Unknowns(attributes, explicit) => match explicit.get(&number) {
                Some(name) => self.push(name.as_slice()),
                None => self.push_appeared(b'_', attributes, number),
            },
        }
    }

    /// A variable by its first appearance.
    fn push_appeared(&mut self, sign: u8, attributes: &[bool], number: u32) -> Result<(), Memory> {
        let (place, _) = self.variables.insert_full(number)?;
        let equality = attributes.get(number as usize) == Some(&true);
        self.push_variable(sign, equality, place)
    }

    /// With a prime as its sign `'a` to `'z`, then `'a1` and so on, with a second sign for an equality variable.
    fn push_variable(&mut self, sign: u8, equality: bool, place: usize) -> Result<(), Memory> {
        if equality {
            self.text.push(sign)?;
        }
        self.text.push(sign)?;
        self.text.push(b'a' + (place % 26) as u8)?;
        if place >= 26 {
            push_number(&mut self.text, place / 26)?;
        }
        Ok(())
    }

    #[inline(never)]
    fn push_name(&mut self, name: TyName) -> Result<(), Memory> {
        match name {
            TyName::Initial(initial) => self.push(initial_text(initial)),
            TyName::Made(made) => {
                if let Some(path) = self.paths.get(&name) {
                    self.text.extend_from_slice(path.as_slice())?;
                    return Ok(());
                }
                let (place, _) = self.names.insert_full(name)?;
                prove!(place < self.names.len());
                let is_bound = self.bound.contains(&name);
                self.push(mark(is_bound, made))?;
                push_number(&mut self.text, place + 1)
            }
        }
    }
}

/// What stands for an unknown that has no number: among numbered ones, that of a row some of whose labels are known.
fn unknown_text(variables: Variables<'_>) -> &'static [u8] {
    match variables {
        Variables::Parameters | Variables::Scheme(_) => b"_",
        Variables::Unknowns(_, _) => b"{...}",
    }
}

fn type_word(constructors: &Constructors) -> &'static [u8] {
    if constructors.is_empty() {
        b"  type "
    } else {
        b"  datatype "
    }
}

pub(crate) fn value_word(status: Status) -> &'static [u8] {
    match status {
        Status::Variable => b"  val ",
        Status::Overloaded(_) => b"  val ",
        Status::Constructor { .. } => b"  con ",
        Status::Exception => b"  exception ",
    }
}

/// What stands before the number of a name.
fn mark(is_bound: bool, name: MadeName) -> &'static [u8] {
    match (is_bound, name.equality) {
        (false, false) => b"?",
        (false, true) => b"?=",
        (true, false) => b"%",
        (true, true) => b"%=",
    }
}
