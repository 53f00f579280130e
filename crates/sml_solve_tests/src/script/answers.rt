//! What calls answer, as text.

use crate::script::{OTHER_UNIT, UNIT};
use sml_graph::demand::{Halt, Refusal};
use sml_layers::layer::Layer;
use sml_objects::objects::{Initial, MadeName, MlType, Scheme, TyName};
use std::alloc::{AllocError, Global};
use std::fmt::Write;

pub(crate) fn done(alloc: Global, answer: Result<(), Refusal>) -> Result<String, AllocError> {
    match answer {
        Ok(()) => String::from_str(alloc, "done"),
        Err(refusal) => refused(alloc, refusal),
    }
}

fn refused(alloc: Global, refusal: Refusal) -> Result<String, AllocError> {
    String::from_str(alloc, word_of(refusal))
}

pub(crate) fn halted(alloc: Global, halt: Halt) -> Result<String, AllocError> {
    refused(alloc, Refusal::from(halt))
}

fn word_of(refusal: Refusal) -> &'static str {
    match refusal {
        Refusal::Unmet(Layer::Equations) => "equations",
        Refusal::Unmet(Layer::Finiteness) => "finiteness",
        Refusal::Unmet(Layer::Newness) => "newness",
        Refusal::Unmet(Layer::Locality) => "locality",
        Refusal::Unmet(Layer::Equality) => "equality",
        Refusal::Unmet(Layer::Classes) => "classes",
        Refusal::Unmet(Layer::Rigidity) => "rigidity",
        Refusal::Labels => "labels",
        Refusal::Memory => "memory",
        Refusal::Spent => "spent",
    }
}

pub(crate) fn flags(alloc: Global, flags: &[bool]) -> Result<String, AllocError> {
    let mut text = String::new(alloc);
    for flag in flags {
        text.push(if *flag { '+' } else { '-' })?;
    }
    Ok(text)
}

pub(crate) fn scheme(alloc: Global, scheme: &Scheme) -> Result<String, AllocError> {
    let mut text = String::from_str(alloc, "all")?;
    for (index, equality) in scheme.variables.iter().enumerate() {
        let quotes = if *equality { "''" } else { "'" };
        write!(text, " {quotes}{index}")?;
    }
    text.push_str(" . ")?;
    write_type(&mut text, &scheme.body)?;
    Ok(text)
}

pub(crate) fn type_text(alloc: Global, ty: &MlType) -> Result<String, AllocError> {
    let mut text = String::new(alloc);
    write_type(&mut text, ty)?;
    Ok(text)
}

/// Writes a type. Of rows only those of two numbers are told from others.
fn write_type(text: &mut String, ty: &MlType) -> Result<(), AllocError> {
    match ty {
        MlType::Bound(variable) => write!(text, "'{variable}"),
        MlType::Free(unknown) => write!(text, "{unknown}"),
        MlType::Row(labels, parts) => {
            let is_pair = labels.are_numbered() && parts.len() == 2;
            text.push_str(if is_pair { "pair" } else { "row" })?;
            for part in parts {
                text.push(' ')?;
                write_type(text, part)?;
            }
            Ok(())
        }
        MlType::Arrow(from, to) => {
            text.push_str("arrow ")?;
            write_type(text, from)?;
            text.push(' ')?;
            write_type(text, to)
        }
        MlType::Name(name, parts) => {
            write_name(text, *name)?;
            for part in parts {
                text.push(' ')?;
                write_type(text, part)?;
            }
            Ok(())
        }
    }
}

fn write_name(text: &mut String, name: TyName) -> Result<(), AllocError> {
    match name {
        TyName::Initial(initial) => text.push_str(word_of_initial(initial)),
        TyName::Made(made) => {
            let letter = letter_of(made);
            let number = made.number;
            let mark = if made.equality { "" } else { "!" };
            write!(text, "{letter}{number}{mark}")
        }
    }
}

fn letter_of(made: MadeName) -> char {
    if made.arity != 0 {
        '?'
    } else if made.unit == UNIT {
        't'
    } else if made.unit == OTHER_UNIT {
        'o'
    } else {
        '?'
    }
}

fn word_of_initial(initial: Initial) -> &'static str {
    match initial {
        Initial::Int => "int",
        Initial::Word => "word",
        Initial::Char => "char",
        Initial::String => "string",
        Initial::Bool => "bool",
        Initial::Exn => "exn",
        Initial::Real => "real",
        Initial::List => "list",
        Initial::Ref => "ref",
    }
}
