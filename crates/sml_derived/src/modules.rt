//! Derived forms of structures, functors, signatures and specifications.

ghost use Rattle.std.specs.Prelude.{◌≡◌, ◌∷◌, [], map, IfOk};
ghost use Rattle.sml_tree.specs.TypeViews.{name_of};
ghost use Rattle.sml_tree.specs.BindingViews.{typ_bind_of};
ghost use Rattle.sml_tree.specs.SignatureViews.{sig_of, spec_of, specs_of, typ_desc_of, where_of};
ghost use Rattle.sml_tree.specs.StructureViews.{str_of, str_bind_of, str_dec_of, str_decs_of, fun_bind_of};
ghost use Rattle.sml_tree.specs.Expressions.{open_dec};
ghost use Rattle.sml_tree.specs.Structures.{ascribed, str_let, core_dec, and_str_dec, no_str_dec};
ghost use Rattle.sml_derived.specs.Words.{v};
ghost use Rattle.sml_derived.specs.Derived.{written, structure_of, functor_apply_decs, functor_of, open_functor, where_types, type_spec_of, type_specs, include_of, includes};

use crate::expander::{Expander, copies_of, copy_of, long, one, written};
use sml_lex::fault::{Memory, Place};
use sml_tree::expressions::{Dec, TypBind};
use sml_tree::names::Name;
use sml_tree::signatures::{SigExp, Spec, TypDesc, WhereType};
use sml_tree::structures::{Ascription, FunBind, StrBind, StrDec, StrExp};
use std::alloc::Global;

fn ascribed(
    alloc: Global,
    place: Place,
    body: StrExp,
    ascription: Ascription,
    signature: SigExp,
) -> Result<StrExp, Memory>
    ensures { IfOk result (λ str. str_of str ≡ ascribed place (str_of body) ascription (sig_of signature)) }
{
    let body = Box::new(alloc, body)?;
    Ok(StrExp::Ascribed(place, body, ascription, Box::new(alloc, signature)?))
}

/// What stands after `type` for a type that is bound.
fn desc_of(alloc: Global, bind: &TypBind) -> Result<TypDesc, Memory>
    ensures { IfOk result (λ desc. typ_desc_of desc ≡ record { variables = (typ_bind_of bind.now).variables; name = (typ_bind_of bind.now).name }) }
{
    Ok(TypDesc {
        variables: copies_of(alloc, &bind.variables)?,
        name: copy_of(&bind.name)?,
    })
}

/// `type t = ty` in a specification, at a place.
fn type_spec(alloc: Global, place: Place, bind: TypBind) -> Result<Spec, Memory>
    ensures { IfOk result (λ spec. spec_of spec ≡ type_spec_of place (typ_bind_of bind)) }
{
    let descs = one(alloc, desc_of(alloc, &bind)?)?;
    let specs = one(alloc, Spec::Type(place, descs))?;
    let equation = WhereType {
        variables: bind.variables,
        constructor: long(alloc, bind.name),
        ty: bind.ty,
    };
    let signature = Box::new(alloc, SigExp::Specs(place, specs))?;
    Ok(Spec::Include(place, SigExp::WhereType(place, signature, equation)))
}

/// A signature identifier after `include`.
fn include(place: Place, signature: Name) -> Spec
    ensures { spec_of result ≡ include_of place (name_of signature) }
{
    Spec::Include(place, SigExp::Identifier(signature.place, signature.ident))
}

impl Expander {
    /// `structure A : S = e`, also with `:>`.
    pub fn structure(
        &self,
        name: Name,
        ascription: Ascription,
        signature: SigExp,
        body: StrExp,
    ) -> Result<StrBind, Memory>
        ensures { IfOk result (λ bind. str_bind_of bind ≡ structure_of (name_of name) ascription (sig_of signature) (str_of body)) }
    {
        let body = ascribed(self.alloc, name.place, body, ascription, signature)?;
        Ok(StrBind { name, body })
    }

    /// `F (strdec)`
    pub fn functor_application(&self, functor: Name, decs: Vec<StrDec>) -> Result<StrExp, Memory>
        ensures { IfOk result (λ str. str_of str ≡ functor_apply_decs (name_of functor) (str_decs_of (map str_dec_of decs.items))) }
    {
        let argument = StrExp::Decs(functor.place, decs);
        Ok(StrExp::Application(functor, Box::new(self.alloc, argument)?))
    }

    /// `functor F (X : S) : R = e`, also with `:>`.
    pub fn functor(
        &self,
        name: Name,
        argument: Name,
        signature: SigExp,
        ascription: Ascription,
        result_signature: SigExp,
        body: StrExp,
    ) -> Result<FunBind, Memory>
        ensures { IfOk result (λ bind. fun_bind_of bind ≡ functor_of (name_of name) (name_of argument) (sig_of signature) ascription (sig_of result_signature) (str_of body)) }
    {
        let body = ascribed(self.alloc, name.place, body, ascription, result_signature)?;
        Ok(FunBind {
            name,
            argument,
            signature,
            body,
        })
    }

    /// A functor's body in which the specifications of its argument are open.
    fn opening(&self, place: Place, body: StrExp) -> Result<StrExp, Memory>
        ensures { IfOk result (λ whole. str_of whole ≡ str_let place (and_str_dec (core_dec (open_dec place (written place v ∷ []))) no_str_dec) (str_of body)) }
    {
        let opened = one(self.alloc, written(self.alloc, place, &self.variable)?)?;
        let decs = one(self.alloc, StrDec::Core(Dec::Open(place, opened)))?;
        Ok(StrExp::Let(place, decs, Box::new(self.alloc, body)?))
    }

    /// `functor F (spec) .. = e`, from `e ..`.
    pub fn open_functor(
        &self,
        name: Name,
        specs: Vec<Spec>,
        body: StrExp,
    ) -> Result<FunBind, Memory>
        ensures { IfOk result (λ bind. fun_bind_of bind ≡ open_functor (name_of name) (specs_of (map spec_of specs.items)) (str_of body)) }
    {
        let place = name.place;
        let body = self.opening(place, body)?;
        let argument = Name {
            place,
            ident: self.variable.clone()?,
        };
        Ok(FunBind {
            name,
            argument,
            signature: SigExp::Specs(place, specs),
            body,
        })
    }

    /// `s where type .. and type ..`
    pub fn where_types(
        &self,
        place: Place,
        signature: SigExp,
        equations: Vec<WhereType>,
    ) -> Result<SigExp, Memory>
        ensures { IfOk result (λ whole. sig_of whole ≡ where_types place (sig_of signature) (map where_of equations.items)) }
    {
        let mut whole = signature;
        for equation in equations {
            whole = SigExp::WhereType(place, Box::new(self.alloc, whole)?, equation);
        }
        Ok(whole)
    }

    /// `type t = ty and ..` in a specification.
    pub fn type_specs(
        &self,
        place: Place,
        first: TypBind,
        others: Vec<TypBind>,
    ) -> Result<Vec<Spec>, Memory>
        ensures { IfOk result (λ specs. specs_of (map spec_of specs.items) ≡ type_specs place (typ_bind_of first) (map typ_bind_of others.items)) }
    {
        let mut specs = Vec::new(self.alloc);
        specs.push(type_spec(self.alloc, place, first)?)?;
        for bind in others {
            specs.push(type_spec(self.alloc, place, bind)?)?;
        }
        Ok(specs)
    }

    /// `include A B ..`
    pub fn includes(&self, place: Place, signatures: Vec<Name>) -> Result<Vec<Spec>, Memory>
        ensures { IfOk result (λ specs. specs_of (map spec_of specs.items) ≡ includes place (map name_of signatures.items)) }
    {
        let mut specs = Vec::new(self.alloc);
        for name in signatures {
            specs.push(include(place, name))?;
        }
        Ok(specs)
    }
}
