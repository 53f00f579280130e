//! Expressions and matches (the Definition, section 4.10, rules 1 to 14).

ghost use Rattle.std.specs.Prelude.{◌≡◌, [], ◌∷◌, map, IfOk, OnErr, OnOk, Err};
ghost use Rattle.std.specs.Option.{option_map};
ghost use Rattle.sml_lex.specs.declared.fault.Place.{Place};
ghost use Rattle.sml_tree.specs.Expressions as E;
ghost use Rattle.sml_tree.specs.Expressions.{name};
ghost use Rattle.sml_tree.specs.ExpressionViews.{exp_of, exps_of, field_of, fields_of as exp_fields_of, rule_of, rules_of};
ghost use Rattle.sml_types.specs.Rows.{AreRanked, fields_of};
ghost use Rattle.sml_tree.specs.TypeViews.{long_name_of, ty_of};
ghost use Rattle.sml_tree.specs.Views.{ident_of};
ghost use Rattle.sml_tree.specs.PatternViews.{constant_of};
ghost use Rattle.sml_objects.specs.Initial.{Name, naming};
ghost use Rattle.sml_objects.specs.Objects.{mono};
ghost use Rattle.sml_objects.specs.Views.{type_of};
ghost use Rattle.sml_core_rules.specs.Patterns.{constant_type};
ghost use Rattle.sml_types.specs.declared.fault.CoreFault.TheVariants as CoreFault;
ghost use Rattle.sml_bases.specs.Views.{status_of, value_of};
ghost use Rattle.sml_core_rules.specs.Objects.{Env, maps, no_structure};
ghost use Rattle.sml_scopes.specs.Means.{MeansAt};
ghost use Rattle.sml_core.specs.Answered.{Applies, AppliesSo, Raises, Reads, ReadsFields};
ghost use Rattle.sml_core.specs.Bound.{Extends};
ghost use Rattle.sml_core.specs.Rules.{Handles, LikeFirst, OpensRule, ReadsRule, ReadsRules, variable_entry};

use crate::context::Context;
use crate::patterns::Variables;
use crate::recorder::Meeting;
use sml_bases::objects::{Status, Value};
use sml_closing::places::pattern_place;
use sml_layers::layer::Bound;
use sml_lex::fault::{Memory, Place};
use sml_objects::objects::{Initial, MlType, Scheme};
use sml_scopes::scopes::Mark;
use sml_tree::bare::{Ident, LongIdent};
use sml_tree::expressions::{Dec, Exp, ExpField, Rule};
use sml_tree::patterns::{Constant, ConstantKind};
use sml_tree::types::Ty;
use sml_types::fault::CoreFault;
use sml_types::rows::{Fields, arrow, initial, label_key, row_of, tuple_of};
use sml_warnings::matches::{Kind, judge_rules};
use std::alloc::Global;
use std::collections::BTreeMap;
use std::rc::Rc;

/// The type of a special constant.
pub(crate) fn constant(alloc: Global, constant: &Constant) -> Result<Rc<MlType>, Memory>
    ensures { IfOk result (λ t. type_of t.value ≡ constant_type naming (constant_of constant.now).kind) }
{
    match constant.kind {
        ConstantKind::Integer => initial(alloc, Initial::Int),
        ConstantKind::Word => initial(alloc, Initial::Word),
        ConstantKind::Real => initial(alloc, Initial::Real),
        ConstantKind::String => initial(alloc, Initial::String),
        ConstantKind::Character => initial(alloc, Initial::Char),
    }
}

/// A value of one type.
pub(crate) fn of_type(alloc: Global, status: Status, ty: Rc<MlType>) -> Result<Value, Memory>
    ensures { IfOk result (λ v. value_of v ≡ record { scheme = mono (type_of ty.value); status = status_of status }) }
{
    let scheme = Scheme {
        variables: Vec::new(alloc),
        body: ty,
    };
    Ok(Value {
        status,
        scheme: Rc::new(alloc, scheme)?,
    })
}

/// What was open when a `let` began.
#[derive(Drop)]
struct Outside {
    mark: Mark,
    names: u32,
    exports: Option<sml_bases::objects::Env>,
}

impl Context<'_> {
    /// The type of an expression. Forms with one part have functions of their own, so that a level of a nest takes less stack.
    #[cycle(core)]
    pub fn expression(&mut self, exp: &Exp) -> Result<Rc<MlType>, CoreFault>
        ensures { Reads self.entry.now (exp_of exp.now) self.exit.now result }
    {
        match exp {
            Exp::Constant(_, it) => self.constant(it),
            Exp::Identifier(place, long) => self.identifier(*place, long),
            Exp::Row(_, fields) => self.row(fields),
            Exp::Tuple(_, exps) => self.tuple(exps),
            Exp::Let(place, decs, exp) => {
                let outside = self.outside();
                self.decs(decs)?;
                let ty = self.expression(exp)?;
                self.left(*place, outside, ty)
            }
            Exp::Bracket(_, exp) => self.expression(exp),
            Exp::Application(place, function, argument) => {
                let function = self.expression(function)?;
                let argument = self.expression(argument)?;
                self.applied(*place, &function, argument)
            }
            Exp::Typed(place, exp, ty) => self.typed(*place, exp, ty),
            Exp::Handle(place, exp, rules) => {
                let ty = self.expression(exp)?;
                let handler = self.rules(rules)?;
                self.handled(*place, ty, &handler, rules)
            }
            Exp::Raise(place, exp) => self.raise(*place, exp),
            Exp::Function(place, rules) => self.function(*place, rules),
        }
    }

    #[inline(never)]
    fn constant(&mut self, it: &Constant) -> Result<Rc<MlType>, CoreFault>
        ensures ty { IfOk result (λ t. type_of t.value ≡ constant_type naming (constant_of it.now).kind) }
        ensures memory { OnErr result (result ≡ Err CoreFault.Memory) }
        ensures same { self.exit.now ≡ self.entry.now }
    {
        Ok(constant(self.alloc, it)?)
    }

    #[cycle(core)]
    #[inline(never)]
    fn row(&mut self, fields: &[ExpField]) -> Result<Rc<MlType>, CoreFault>
        ensures { (p : Place) → Reads self.entry.now (E.row p (exp_fields_of (map field_of fields.now))) self.exit.now result }
    {
        let fields = self.fields(fields)?;
        Ok(row_of(self.alloc, fields)?)
    }

    #[cycle(core)]
    #[inline(never)]
    fn typed(&mut self, place: Place, exp: &Exp, ty: &Ty) -> Result<Rc<MlType>, CoreFault>
        ensures { Reads self.entry.now (E.typed place (exp_of exp.now) (ty_of ty.now)) self.exit.now result }
    {
        let found = self.expression(exp)?;
        self.constrained(place, found, ty)
    }

    #[cycle(core)]
    #[inline(never)]
    fn raise(&mut self, place: Place, exp: &Exp) -> Result<Rc<MlType>, CoreFault>
        ensures { Reads self.entry.now (E.raise place (exp_of exp.now)) self.exit.now result }
    {
        let ty = self.expression(exp)?;
        self.raised(place, &ty)
    }

    #[cycle(core)]
    #[inline(never)]
    fn function(&mut self, place: Place, rules: &[Rule]) -> Result<Rc<MlType>, CoreFault>
        ensures { Reads self.entry.now (E.fn place (rules_of (map rule_of rules.now))) self.exit.now result }
    {
        let ty = self.rules(rules)?;
        judge_rules(&self.scopes, &mut self.warnings, Kind::Fn, place, rules)?;
        Ok(ty)
    }

    #[inline(never)]
    fn identifier(&mut self, place: Place, long: &LongIdent) -> Result<Rc<MlType>, CoreFault>
        ensures { Reads self.entry.now (name place (long_name_of long.now)) self.exit.now result }
    {
        let value = self.value(long)?;
        self.instance(place, &value)
    }

    #[cycle(core)]
    #[inline(never)]
    fn fields(&mut self, fields: &[ExpField]) -> Result<Fields, CoreFault>
        ensures ranked { IfOk result (λ row. AreRanked row.entries) }
        ensures reads { ReadsFields (λ row. fields_of (λ t. type_of t.value) row.entries) self.entry.now (exp_fields_of (map field_of fields.now)) self.exit.now result }
    {
        let mut row = BTreeMap::new(self.alloc);
        for field in fields {
            let ty = self.expression(&field.exp)?;
            row.insert(label_key(&field.label.ident)?, ty)?;
        }
        Ok(row)
    }

    #[cycle(core)]
    #[inline(never)]
    fn tuple(&mut self, exps: &[Exp]) -> Result<Rc<MlType>, CoreFault>
        ensures { (p : Place) → Reads self.entry.now (E.tuple p (exps_of (map exp_of exps.now))) self.exit.now result }
    {
        let mut types = Vec::new(self.alloc);
        for exp in exps {
            types.push(self.expression(exp)?)?;
        }
        Ok(tuple_of(self.alloc, types)?)
    }

    fn outside(&mut self) -> Outside {
        Outside {
            mark: self.mark(),
            names: self.new.next,
            exports: self.export(false),
        }
    }

    /// Leaves a `let`, whose type mentions no name that was made in it.
    #[inline(never)]
    fn left(
        &mut self,
        place: Place,
        outside: Outside,
        ty: Rc<MlType>,
    ) -> Result<Rc<MlType>, CoreFault> {
        self.leave(outside.mark)?;
        self.exported(outside.exports);
        self.within(place, &ty, Bound::Locality, outside.names)?;
        Ok(ty)
    }

    /// The result of what has a type applied to an argument of another one. A type that is written as an arrow is taken apart.
    #[inline(never)]
    pub fn applied(
        &mut self,
        place: Place,
        function: &MlType,
        argument: Rc<MlType>,
    ) -> Result<Rc<MlType>, CoreFault>
        ensures { Applies self.entry.now place (type_of function.now) (type_of argument.value) self.exit.now result }
    {
        match function {
            MlType::Arrow(from, to) => {
                self.equal(place, Meeting::Argument, from, &argument)?;
                Ok(to.clone()?)
            }
            MlType::Bound(_) => self.applied_so(place, function, argument),
            MlType::Free(_) => self.applied_so(place, function, argument),
            MlType::Row(_, _) => self.applied_so(place, function, argument),
            MlType::Name(_, _) => self.applied_so(place, function, argument),
        }
    }

    /// The result of what has a type that is made equal to an arrow from that of its argument.
    fn applied_so(
        &mut self,
        place: Place,
        function: &MlType,
        argument: Rc<MlType>,
    ) -> Result<Rc<MlType>, CoreFault>
        ensures { AppliesSo self.entry.now place (type_of function.now) (type_of argument.value) self.exit.now result }
    {
        let result = self.unknown()?;
        let wanted = arrow(self.alloc, argument, result.clone()?)?;
        self.equal(place, Meeting::Applied, function, &wanted)?;
        Ok(result)
    }

    #[inline(never)]
    fn handled(
        &mut self,
        place: Place,
        ty: Rc<MlType>,
        handler: &MlType,
        rules: &[Rule],
    ) -> Result<Rc<MlType>, CoreFault>
        ensures { Handles self.entry.now place (type_of ty.value) (type_of handler.now) (rules_of (map rule_of rules.now)) self.exit.now result }
    {
        let exn = initial(self.alloc, Initial::Exn)?;
        let wanted = arrow(self.alloc, exn, ty.clone()?)?;
        self.equal(place, Meeting::Handler, handler, &wanted)?;
        judge_rules(&self.scopes, &mut self.warnings, Kind::Handle, place, rules)?;
        Ok(ty)
    }

    #[inline(never)]
    fn raised(&mut self, place: Place, ty: &MlType) -> Result<Rc<MlType>, CoreFault>
        ensures { Raises self.entry.now place (type_of ty.now) self.exit.now result }
    {
        let exn = initial(self.alloc, Initial::Exn)?;
        self.equal(place, Meeting::Wanted, ty, &exn)?;
        self.unknown()
    }

    /// The type of a match.
    #[cycle(core)]
    #[inline(never)]
    fn rules(&mut self, rules: &[Rule]) -> Result<Rc<MlType>, CoreFault>
        ensures { ReadsRules self.entry.now (rules_of (map rule_of rules.now)) self.exit.now result }
    {
        let mut first: Option<Rc<MlType>> = None;
        for rule in rules {
            let ty = self.rule(rule)?;
            first = Some(self.like_first(rule.place, first, ty)?);
        }
        match first {
            Some(ty) => Ok(ty),
            None => self.unknown(),
        }
    }

    fn like_first(
        &mut self,
        place: Place,
        first: Option<Rc<MlType>>,
        ty: Rc<MlType>,
    ) -> Result<Rc<MlType>, CoreFault>
        ensures { LikeFirst self.entry.now place (option_map (λ t. type_of t.value) first) (type_of ty.value) self.exit.now result }
    {
        match first {
            None => Ok(ty),
            Some(first) => {
                self.equal(place, Meeting::Rules, &first, &ty)?;
                Ok(first)
            }
        }
    }

    #[cycle(core)]
    #[inline(never)]
    fn rule(&mut self, rule: &Rule) -> Result<Rc<MlType>, CoreFault>
        ensures { ReadsRule self.entry.now (rule_of rule.now) self.exit.now result }
    {
        let mark = self.mark();
        let from = self.rule_pattern(rule)?;
        let to = self.expression(&rule.exp)?;
        self.leave(mark)?;
        Ok(arrow(self.alloc, from, to)?)
    }

    /// The type of a rule's pattern, whose variables are bound.
    #[inline(never)]
    fn rule_pattern(&mut self, rule: &Rule) -> Result<Rc<MlType>, CoreFault>
        ensures { OpensRule self.entry.now (rule_of rule.now) self.exit.now result }
    {
        let mut variables = Variables::new(self.alloc);
        let ty = self.pattern(&mut variables, &rule.pat)?;
        for (name, ty) in &variables.types {
            self.within(pattern_place(&rule.pat), ty, Bound::Newness, self.new.next)?;
            self.bind_variable(name, ty)?;
        }
        Ok(ty)
    }

    /// Binds a variable of one type inside an expression.
    pub(crate) fn bind_variable(&mut self, name: &Ident, ty: &Rc<MlType>) -> Result<(), Memory>
        ensures bound { OnOk result (Extends self.entry.now.scopes (maps no_structure [] (variable_entry (ident_of name.now) (type_of ty.now.value) ∷ [])) self.exit.now.scopes) }
        ensures around { OnOk result ((C : Env Name) (m : Mark) → MeansAt self.entry.now.scopes m C → MeansAt self.exit.now.scopes m C) }
        ensures same { self.exit.now ≡ record self.entry.now { scopes = self.exit.now.scopes } }
    {
        let value = of_type(self.alloc, Status::Variable, ty.clone()?)?;
        self.scopes.bind_value(name, value)
    }
}
