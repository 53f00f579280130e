//! Patterns (the Definition, section 4.10, rules 32 to 43).

ghost use Rattle.std.specs.Prelude.{◌≡◌, ◌≢◌, [], None, codes, false, map, IfOk, OnErr, OnOk};
ghost use Rattle.std.specs.Option.{option_map};
ghost use Rattle.std.specs.Result.{IsErrAnd};
ghost use Rattle.sml_lex.specs.declared.fault.Code.TheVariants.{E10};
ghost use Rattle.sml_tree.specs.PatternViews.{pat_of, pats_of, pat_field_of, pat_fields_of};
ghost use Rattle.sml_tree.specs.TypeViews.{long_name_of, name_of, ty_of};
ghost use Rattle.sml_tree.specs.Views.{ident_of};
ghost use Rattle.sml_objects.specs.Maps.{lookup};
ghost use Rattle.sml_objects.specs.Views.{type_of};
ghost use Rattle.sml_core_rules.specs.Lookups.{is_same};
ghost use Rattle.sml_core_rules.specs.Patterns.{bind_variable, read_layered, read_named};
ghost use Rattle.sml_core_rules.specs.Scopes.{run_scope};
ghost use Rattle.sml_types.specs.Answered.{IsFault};
ghost use Rattle.sml_types.specs.Rows.{AreRanked, fields_of};
ghost use Rattle.sml_core.specs.Answered.{unit_of};
ghost use Rattle.sml_core.specs.Patterns.{AppliesConstructor, BindsType, Constrains, MakesRow, ReadsPattern, ReadsPatternFields, ReadsPatterns, bindings_of};

use crate::context::{Context, refused};
use crate::expressions::constant;
use crate::recorder::Meeting;
use indexmap::IndexMap;
use sml_asks::asks::ask_row;
use sml_bases::objects::Value;
use sml_lex::fault::{Code, Place};
use sml_objects::objects::MlType;
use sml_scopes::values::is_constructor;
use sml_tree::bare::{Ident, LongIdent};
use sml_tree::names::Name;
use sml_tree::patterns::{Pat, PatField};
use sml_tree::types::Ty;
use sml_types::fault::{CoreFault, plain_fault};
use sml_types::rows::{Fields, label_key, row_of, tuple_of};
use sml_types::scope::unbound;
use std::alloc::Global;
use std::collections::BTreeMap;
use std::rc::Rc;

/// The variables that patterns bind, with their types. In a pattern after `rec` every short identifier that stands alone is a
/// variable, but for `nil`, which only `[]` can be there.
#[derive(Drop)]
pub(crate) struct Variables {
    pub types: IndexMap<Ident, Rc<MlType>>,
    pub is_recursive: bool,
}

fn is_nil(name: &Ident) -> bool
    ensures { result ≡ is_same (ident_of name.now) (codes "nil") }
{
    name.as_slice() == b"nil".as_slice()
}

impl Variables {
    pub(crate) fn new(alloc: Global) -> Variables
        ensures none { bindings_of result ≡ [] }
        ensures kind { result.is_recursive ≡ false }
    {
        Variables {
            types: IndexMap::new(alloc),
            is_recursive: false,
        }
    }
}

/// That no pattern has bound a variable yet, or E10.
fn first_in(variables: &Variables, place: Place, name: &Ident) -> Result<(), CoreFault>
    ensures first { OnOk result (lookup (ident_of name.now) (bindings_of variables.now) ≡ None) }
    ensures again { OnErr result (IsErrAnd result (λ f. IsFault f (record { code = E10; place = place; detail = None })) × (lookup (ident_of name.now) (bindings_of variables.now) ≢ None)) }
{
    if variables.types.contains_key(name) {
        Err(plain_fault(Code::E10, place))
    } else {
        Ok(())
    }
}

impl Context<'_> {
    /// The type of a pattern, whose variables are added.
    #[cycle(pattern)]
    pub(crate) fn pattern(
        &mut self,
        variables: &mut Variables,
        pat: &Pat,
    ) -> Result<Rc<MlType>, CoreFault>
        ensures reads { ReadsPattern self.entry.now variables.old (pat_of pat.now) self.exit.now variables.new result }
        ensures kind { variables.new.is_recursive ≡ variables.old.is_recursive }
    {
        match pat {
            Pat::Wildcard(_) => self.unknown(),
            Pat::Constant(_, it) => Ok(constant(self.alloc, it)?),
            Pat::Identifier(place, long) => self.named_pattern(variables, *place, long),
            Pat::Row(place, fields, flexible) => {
                let fields = self.pattern_fields(variables, fields)?;
                self.pattern_row(*place, fields, *flexible)
            }
            Pat::Tuple(_, pats) => {
                let types = self.pattern_tuple(variables, pats)?;
                Ok(tuple_of(self.alloc, types)?)
            }
            Pat::Bracket(_, pat) => self.pattern(variables, pat),
            Pat::Applied(place, long, pat) => {
                let constructor = self.applied_constructor(*place, long)?;
                let argument = self.pattern(variables, pat)?;
                self.applied(*place, &constructor, argument)
            }
            Pat::Typed(place, pat, ty) => {
                let found = self.pattern(variables, pat)?;
                self.constrained(*place, found, ty)
            }
            Pat::As(place, name, ty, pat) => {
                let whole = self.layered(variables, name, ty)?;
                let part = self.pattern(variables, pat)?;
                self.equal(*place, Meeting::Layered, &whole, &part)?;
                Ok(whole)
            }
        }
    }

    #[cycle(pattern)]
    #[inline(never)]
    fn pattern_fields(
        &mut self,
        variables: &mut Variables,
        fields: &[PatField],
    ) -> Result<Fields, CoreFault>
        ensures ranked { IfOk result (λ row. AreRanked row.entries) }
        ensures reads { ReadsPatternFields (λ row. fields_of (λ t. type_of t.value) row.entries) self.entry.now variables.old (pat_fields_of (map pat_field_of fields.now)) self.exit.now variables.new result }
        ensures kind { variables.new.is_recursive ≡ variables.old.is_recursive }
    {
        let mut row = BTreeMap::new(self.alloc);
        for field in fields {
            let ty = self.pattern(variables, &field.pat)?;
            row.insert(label_key(&field.label.ident)?, ty)?;
        }
        Ok(row)
    }

    #[cycle(pattern)]
    #[inline(never)]
    fn pattern_tuple(
        &mut self,
        variables: &mut Variables,
        pats: &[Pat],
    ) -> Result<Vec<Rc<MlType>>, CoreFault>
        ensures reads { ReadsPatterns self.entry.now variables.old (pats_of (map pat_of pats.now)) self.exit.now variables.new result }
        ensures kind { variables.new.is_recursive ≡ variables.old.is_recursive }
    {
        let mut types = Vec::new(self.alloc);
        for pat in pats {
            types.push(self.pattern(variables, pat)?)?;
        }
        Ok(types)
    }

    /// A variable, or a constructor or an exception without an argument.
    #[inline(never)]
    fn named_pattern(
        &mut self,
        variables: &mut Variables,
        place: Place,
        long: &LongIdent,
    ) -> Result<Rc<MlType>, CoreFault>
        ensures binds { BindsType self.entry.now variables.old (λ r C vs bs. read_named (run_scope (unit_of self.entry.now)) r C vs place (long_name_of long.now) bs) self.exit.now variables.new result }
        ensures kind { variables.new.is_recursive ≡ variables.old.is_recursive }
    {
        if long.path.is_empty() {
            let is_bound = variables.is_recursive && !is_nil(&long.last);
            if is_bound || !is_constructor(self.status(&long.last)) {
                return self.variable(variables, long.place, &long.last);
            }
        }
        let value = self.value(long)?;
        if !is_constructor(value.status) {
            return Err(plain_fault(Code::E5, long.place));
        }
        if let MlType::Arrow(_, _) = &*value.scheme.body {
            return Err(plain_fault(Code::E5, long.place));
        }
        self.instance(place, &value)
    }

    /// A new unknown for a variable.
    fn variable(
        &mut self,
        variables: &mut Variables,
        place: Place,
        name: &Ident,
    ) -> Result<Rc<MlType>, CoreFault>
        ensures binds { BindsType self.entry.now variables.old (λ r C vs bs. bind_variable (run_scope (unit_of self.entry.now)) place (ident_of name.now) bs) self.exit.now variables.new result }
        ensures kind { variables.new.is_recursive ≡ variables.old.is_recursive }
    {
        first_in(variables, place, name)?;
        let ty = self.unknown()?;
        variables.types.insert(name.clone()?, ty.clone()?)?;
        Ok(ty)
    }

    /// A row of these fields, or one that has them and perhaps others.
    #[inline(never)]
    fn pattern_row(
        &mut self,
        place: Place,
        fields: Fields,
        flexible: bool,
    ) -> Result<Rc<MlType>, CoreFault>
        ensures { AreRanked fields.entries → MakesRow self.entry.now place flexible (fields_of (λ t. type_of t.value) fields.entries) self.exit.now result }
    {
        if !flexible {
            return Ok(row_of(self.alloc, fields)?);
        }
        let mut demanded = Vec::new(self.alloc);
        for ((_, label), ty) in fields {
            demanded.push((label, ty))?;
        }
        let row = self.unknown()?;
        if let Err(refusal) = ask_row(&mut self.solver, &row, &demanded) {
            return Err(refused(refusal, place));
        }
        self.rows.push((place, row.clone()?))?;
        Ok(row)
    }

    /// The instance of a constructor or an exception that has an argument.
    #[inline(never)]
    fn applied_constructor(
        &mut self,
        place: Place,
        long: &LongIdent,
    ) -> Result<Rc<MlType>, CoreFault>
        ensures { AppliesConstructor self.entry.now place (long_name_of long.now) self.exit.now result }
    {
        let Some(value) = self.find(long)? else {
            if long.path.is_empty() {
                return Err(plain_fault(Code::E5, long.place));
            }
            return Err(unbound(self.alloc, Code::E1, long)?);
        };
        if !is_constructor(value.status) {
            return Err(plain_fault(Code::E5, long.place));
        }
        match &*value.scheme.body {
            MlType::Arrow(_, _) => self.instance(place, &value),
            _ => Err(plain_fault(Code::E5, long.place)),
        }
    }

    /// The variable before `as`, of the type that stands there if one does.
    #[inline(never)]
    fn layered(
        &mut self,
        variables: &mut Variables,
        name: &Name,
        ty: &Option<Box<Ty>>,
    ) -> Result<Rc<MlType>, CoreFault>
        ensures binds { BindsType self.entry.now variables.old
            (λ r C vs bs. read_layered (run_scope (unit_of self.entry.now)) r C vs (name_of name.now) (option_map (λ t. ty_of t.value) ty.now) bs) self.exit.now variables.new result }
        ensures kind { variables.new.is_recursive ≡ variables.old.is_recursive }
    {
        if !variables.is_recursive && is_constructor(self.status(&name.ident)) {
            return Err(plain_fault(Code::E5, name.place));
        }
        match ty {
            None => self.variable(variables, name.place, &name.ident),
            Some(ty) => {
                first_in(variables, name.place, &name.ident)?;
                let ty = self.ty(ty)?;
                variables.types.insert(name.ident.clone()?, ty.clone()?)?;
                Ok(ty)
            }
        }
    }

    /// The type of a phrase that is constrained to a type.
    #[inline(never)]
    pub(crate) fn constrained(
        &mut self,
        place: Place,
        found: Rc<MlType>,
        ty: &Ty,
    ) -> Result<Rc<MlType>, CoreFault>
        ensures { Constrains self.entry.now place (type_of found.value) (ty_of ty.now) self.exit.now result }
    {
        let wanted = self.ty(ty)?;
        self.equal(place, Meeting::Wanted, &found, &wanted)?;
        Ok(wanted)
    }
}
