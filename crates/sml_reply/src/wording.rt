//! Types and components in a line each, for who asks why a declaration was refused.

use crate::lines::{Lines, Variables, value_word};
use indexmap::{IndexMap, IndexSet};
use sml_bases::objects::{Constructors, TypeStr, Value};
use sml_lex::fault::Memory;
use sml_objects::objects::{MlType, Scheme, TyName};
use sml_texts::texts::Around;
use sml_tree::bare::Ident;
use sml_type_maps::functions::name_of;
use std::alloc::Global;
use std::mem;

/// Lines of types, in which names print as texts that are given, and other names of units as numbers. Unknowns have the
/// same names in all lines.
#[derive(Drop)]
pub struct Wording {
    alloc: Global,
    lines: Lines,
    ended: Vec<Vec<u8>>,
}

impl Wording {
    /// No line, with texts for some names.
    pub fn new(alloc: Global, texts: IndexMap<TyName, Ident>) -> Wording {
        Wording {
            alloc,
            lines: Lines::new(alloc, texts),
            ended: Vec::new(alloc),
        }
    }

    /// The lines that were ended, and the names in them that have no text.
    pub fn into_parts(self) -> (Vec<Vec<u8>>, IndexSet<TyName>) {
        let Wording { lines, ended, .. } = self;
        let Lines { names, .. } = lines;
        (ended, names)
    }

    /// Adds bytes.
    pub fn push(&mut self, bytes: &[u8]) -> Result<(), Memory> {
        self.lines.push(bytes)
    }

    /// Ends a line.
    pub fn end_line(&mut self) -> Result<(), Memory> {
        let line = mem::replace(&mut self.lines.text, Vec::new(self.alloc));
        self.ended.push(line)?;
        Ok(())
    }

    /// Adds a type over unknowns with these attributes, some of which stand for explicit type variables.
    pub fn push_unknowns(
        &mut self,
        attributes: &[bool],
        explicit: &IndexMap<u32, Ident>,
        ty: &MlType,
    ) -> Result<(), Memory> {
        let variables = Variables::Unknowns(attributes, explicit);
        self.lines.push_type(variables, Around::Nothing, ty)
    }

    /// Adds what a type at a path is.
    pub fn push_type_str(&mut self, path: &[u8], ty: &TypeStr) -> Result<(), Memory> {
        let parameters = ty.function.variables.len();
        if !ty.constructors.is_empty() {
            return self.push_datatype(path, parameters, &ty.constructors);
        }
        self.push_head(b"type ", path, parameters)?;
        if self.prints_as(path, &ty.function) {
            return Ok(());
        }
        self.push(b" = ")?;
        self.lines
            .push_type(Variables::Parameters, Around::Nothing, &ty.function.body)
    }

    /// Adds a type at a path of which only that is specified that has to do with equality, and constructors.
    pub fn push_abstract(
        &mut self,
        path: &[u8],
        ty: &TypeStr,
        equality: bool,
    ) -> Result<(), Memory> {
        let parameters = ty.function.variables.len();
        if !ty.constructors.is_empty() {
            return self.push_datatype(path, parameters, &ty.constructors);
        }
        let word: &[u8] = if equality { b"eqtype " } else { b"type " };
        self.push_head(word, path, parameters)
    }

    /// Adds a value at a path, with its type.
    pub fn push_value(&mut self, path: &[u8], value: &Value) -> Result<(), Memory> {
        self.lines.variables.clear();
        self.push(trimmed(value_word(value.status)))?;
        self.push(path)?;
        self.push(b" : ")?;
        let variables = Variables::Scheme(&value.scheme.variables);
        self.lines
            .push_type(variables, Around::Nothing, &value.scheme.body)
    }

    fn push_head(&mut self, word: &[u8], path: &[u8], parameters: usize) -> Result<(), Memory> {
        self.push(word)?;
        self.lines.push_parameters(parameters)?;
        self.push(path)
    }

    /// Whether a type is a name that has this path as its text.
    fn prints_as(&self, path: &[u8], function: &Scheme) -> bool {
        let Some(name) = name_of(function) else {
            return false;
        };
        match self.lines.paths.get(&name) {
            Some(text) => text.as_slice() == path,
            None => false,
        }
    }

    fn push_datatype(
        &mut self,
        path: &[u8],
        parameters: usize,
        constructors: &Constructors,
    ) -> Result<(), Memory> {
        self.push_head(b"datatype ", path, parameters)?;
        self.push(b" = ")?;
        for (index, (name, scheme)) in constructors.iter().enumerate() {
            self.lines.push_if(index > 0, b" | ")?;
            self.push(name.as_slice())?;
            self.push_argument(&scheme.body)?;
        }
        Ok(())
    }

    /// Adds ` of TYPE` for a constructor of this type that has an argument, whose variables are the parameters of its
    /// result.
    fn push_argument(&mut self, ty: &MlType) -> Result<(), Memory> {
        let MlType::Arrow(argument, result) = ty else {
            return Ok(());
        };
        self.lines.variables.clear();
        if let MlType::Name(_, parts) = &**result {
            for part in parts {
                if let MlType::Bound(variable) = &**part {
                    self.lines.variables.insert(*variable)?;
                }
            }
        }
        self.push(b" of ")?;
        self.lines
            .push_type(Variables::Scheme(&[]), Around::Nothing, argument)
    }
}

/// A word of a reply without the two spaces before it.
fn trimmed(word: &[u8]) -> &[u8] {
    if word.len() > 2 { &word[2..] } else { word }
}
