//! Realisations: type functions for the names of a signature (the Definition, section 5.2).

ghost use Rattle.std.specs.Prelude.{◌≡◌, IfOk, OnOk, Some, None, cond, map};
ghost use Rattle.sml_objects.specs.Initial.{Name, naming};
ghost use Rattle.sml_objects.specs.Objects.{types_of};
ghost use Rattle.sml_objects.specs.Views.{name_of, type_of, scheme_of};
ghost use Rattle.sml_rules.specs.Matching.{is_name, realise_type, realise_types};
ghost use Rattle.sml_piece.specs.Elaborated.{or_else};
ghost use Rattle.sml_piece.specs.CodeMatched.{alone, sends};

use indexmap::IndexMap;
use sml_lex::fault::Memory;
use sml_objects::applications::apply;
use sml_objects::objects::{MlType, Scheme, TyName};
use std::alloc::Global;
use std::rc::Rc;

/// The type functions to which names are sent. Others stay as they are.
#[derive(Drop)]
pub(crate) struct Realisation {
    functions: IndexMap<TyName, Rc<Scheme>>,
}

impl Realisation {
    /// The realisation that sends no name.
    pub(crate) fn new(alloc: Global) -> Realisation
        ensures { (n : Name) → sends result.functions.entries n ≡ None }
    {
        Realisation {
            functions: IndexMap::new(alloc),
        }
    }

    /// Sends the name of a specified type, if it is one, to the type function, unless it is sent already.
    pub(crate) fn send_specified(
        &mut self,
        specified: &Scheme,
        function: &Rc<Scheme>,
    ) -> Result<(), Memory>
        ensures { OnOk result ((n : Name) → sends self.new.functions.entries n
            ≡ or_else (sends self.old.functions.entries n) (cond (is_name naming n (scheme_of specified.now).body) (Some (scheme_of function.now.value)) None)) }
    {
        match &*specified.body {
            MlType::Name(name, _) => self.send(*name, function),
            MlType::Bound(_) => Ok(()),
            MlType::Free(_) => Ok(()),
            MlType::Row(_, _) => Ok(()),
            MlType::Arrow(_, _) => Ok(()),
        }
    }

    fn send(&mut self, name: TyName, function: &Rc<Scheme>) -> Result<(), Memory>
        ensures { OnOk result ((n : Name) → sends self.new.functions.entries n
            ≡ or_else (sends self.old.functions.entries n) (alone (name_of name) (scheme_of function.now.value) n)) }
    {
        if self.functions.contains_key(&name) {
            return Ok(());
        }
        self.functions.insert(name, function.clone()?)?;
        Ok(())
    }

    /// The type with the type functions for its names.
    #[cycle(realising)]
    pub(crate) fn realised(&self, alloc: Global, ty: &MlType) -> Result<Rc<MlType>, Memory>
        ensures { IfOk result (λ t. type_of t.value ≡ realise_type (sends self.now.functions.entries) (type_of ty.now)) }
    {
        match ty {
            MlType::Bound(variable) => shared(alloc, MlType::Bound(*variable)),
            MlType::Free(variable) => shared(alloc, MlType::Free(*variable)),
            MlType::Row(labels, parts) => {
                let labels = labels.clone()?;
                let parts = self.all_realised(alloc, parts)?;
                shared(alloc, MlType::Row(labels, parts))
            }
            MlType::Arrow(from, to) => {
                let from = self.realised(alloc, from)?;
                let to = self.realised(alloc, to)?;
                shared(alloc, MlType::Arrow(from, to))
            }
            MlType::Name(name, arguments) => {
                let arguments = self.all_realised(alloc, arguments)?;
                match self.functions.get(name) {
                    Some(function) => apply(alloc, function, &arguments),
                    None => shared(alloc, MlType::Name(*name, arguments)),
                }
            }
        }
    }

    #[cycle(realising)]
    fn all_realised(&self, alloc: Global, types: &[Rc<MlType>]) -> Result<Vec<Rc<MlType>>, Memory>
        ensures { IfOk result (λ ts. types_of (map (λ t. type_of t.value) ts.items) ≡ realise_types (sends self.now.functions.entries) (types_of (map (λ t. type_of t.value) types.now))) }
    {
        let mut made = Vec::new(alloc);
        for ty in types {
            made.push(self.realised(alloc, ty)?)?;
        }
        Ok(made)
    }
}

// Out of line, so that the frames of the recursion have no room for a type.
#[inline(never)]
fn shared(alloc: Global, ty: MlType) -> Result<Rc<MlType>, Memory>
    ensures { IfOk result (λ t. t.value ≡ ty) }
{
    Ok(Rc::new(alloc, ty)?)
}
