//! Value declarations (the Definition, sections 4.6 to 4.8, rules 15, 25 and 26).

ghost use Rattle.std.specs.Prelude.{◌≡◌, [], ◌++◌, map, IfOk};
ghost use Rattle.sml_tree.specs.ExpressionViews.{bind_of, binds_of};
ghost use Rattle.sml_tree.specs.TypeViews.{names_of};
ghost use Rattle.sml_tree.specs.Views.{ident_of};
ghost use Rattle.sml_objects.specs.Views.{type_of};
ghost use Rattle.sml_core_rules.specs.Closing.{unguarded};
ghost use Rattle.sml_closing.specs.Gathered.{ids_of, with_all};
ghost use Rattle.sml_core.specs.Begun.{BeginsValues, ScopesAll, ScopesVariable};
ghost use Rattle.sml_core.specs.Binds.{JoinsBind, ReadsBinds};

use crate::context::{Context, refused};
use crate::patterns::Variables;
use crate::recorder::Meeting;
use indexmap::IndexSet;
use sml_asks::asks::{
    ask_equality, ask_fixed, ask_general, ask_labels, ask_reading, ask_scheme, ask_settled,
    ask_variable,
};
use sml_bases::ground::is_ground;
use sml_bases::objects::{Status, Value};
use sml_closing::functions::is_function;
use sml_closing::places::{expression_place, pattern_place};
use sml_closing::unguarded::in_binds;
use sml_layers::layer::Bound;
use sml_layers::variable::Variable;
use sml_lex::fault::{Code, Memory, Place};
use sml_objects::objects::{MlType, Scheme};
use sml_scopes::values::is_expansive;
use sml_tree::bare::Ident;
use sml_tree::expressions::{Exp, ValBind};
use sml_tree::names::Name;
use sml_type_maps::sizes::GREATEST_SIZE;
use sml_types::fault::{CoreFault, plain_fault};
use sml_types::variables::{collect_free, is_equality_variable};
use sml_warnings::matches::judge_binding;
use std::alloc::Global;
use std::rc::Rc;

/// A value declaration while it is gone through: how many unknowns, flexible rows, unknowns of overloaded identifiers and
/// explicit type variables there were before it, the unknowns of those that are scoped here, and what it binds, each
/// variable with a flag where its right side is expansive.
#[derive(Drop)]
pub(crate) struct Declaration {
    unknowns: usize,
    rows: usize,
    overloaded: usize,
    explicit: usize,
    scoped: Vec<u32>,
    variables: Variables,
    expansive: Vec<bool>,
}

impl Context<'_> {
    /// Begins a value declaration: its explicit type variables are scoped, those of its list and those that occur in it
    /// unguarded and are not in scope.
    #[inline(never)]
    pub(crate) fn begin_values(
        &mut self,
        names: &[Name],
        binds: &[ValBind],
        recursive: &[ValBind],
    ) -> Result<Declaration, CoreFault>
        ensures { BeginsValues self.entry.now
            (map (λ x. x.id) (names_of names.now) ++ (unguarded (binds_of (map bind_of binds.now)) ++ unguarded (binds_of (map bind_of recursive.now))))
            self.exit.now result }
    {
        let (unknowns, rows) = (self.solver.unknowns(), self.rows.len());
        let (overloaded, explicit) = (self.overloaded.len(), self.explicit.count());
        let mut found = named(self.alloc, names)?;
        in_binds(binds, &mut found)?;
        in_binds(recursive, &mut found)?;
        let scoped = self.scope_all(&found)?;
        Ok(Declaration {
            unknowns,
            rows,
            overloaded,
            explicit,
            scoped,
            variables: Variables::new(self.alloc),
            expansive: Vec::new(self.alloc),
        })
    }

    /// The unknowns of the explicit type variables that are not in scope yet, which are from here on.
    fn scope_all(&mut self, names: &IndexSet<Ident>) -> Result<Vec<u32>, CoreFault>
        ensures { ScopesAll self.entry.now (ids_of names.now.keys) self.exit.now result }
    {
        let mut scoped = Vec::new(self.alloc);
        for name in names {
            if !self.explicit.has(name) {
                let unknown = self.scope(name)?;
                scoped.push(unknown)?;
            }
        }
        Ok(scoped)
    }

    /// A new unknown for an explicit type variable, which is in scope from here on. It admits equality where the variable does.
    fn scope(&mut self, name: &Ident) -> Result<u32, CoreFault>
        ensures { ScopesVariable self.entry.now (ident_of name.now) self.exit.now result }
    {
        let Ok(unknown) = self.solver.fresh() else {
            return Err(CoreFault::Memory);
        };
        let equality = is_equality_variable(name);
        let variable = Variable {
            number: unknown,
            equality,
        };
        let ty = MlType::Free(unknown);
        if let Err(_) = ask_variable(&mut self.solver, &ty, variable) {
            return Err(CoreFault::Memory);
        }
        if equality {
            if let Err(_) = ask_equality(&mut self.solver, &ty) {
                return Err(CoreFault::Memory);
            }
        }
        self.explicit.add(name, unknown)?;
        Ok(unknown)
    }

    /// The bindings before `rec`.
    #[cycle(core)]
    #[inline(never)]
    pub(crate) fn binds(
        &mut self,
        declaration: &mut Declaration,
        binds: &[ValBind],
    ) -> Result<(), CoreFault>
        ensures reads { ReadsBinds self.entry.now declaration.old (binds_of (map bind_of binds.now)) self.exit.now declaration.new result }
        ensures rest { declaration.new ≡ record declaration.old { variables = declaration.new.variables; expansive = declaration.new.expansive } }
        ensures kind { declaration.new.variables.is_recursive ≡ declaration.old.variables.is_recursive }
    {
        for bind in binds {
            let pattern = self.pattern(&mut declaration.variables, &bind.pat)?;
            let ty = self.expression(&bind.exp)?;
            self.bound(declaration, bind, &pattern, &ty)?;
        }
        Ok(())
    }

    #[inline(never)]
    fn bound(
        &mut self,
        declaration: &mut Declaration,
        bind: &ValBind,
        pattern: &MlType,
        ty: &MlType,
    ) -> Result<(), CoreFault>
        ensures joins { JoinsBind self.entry.now declaration.old (bind_of bind.now) (type_of pattern.now) (type_of ty.now) self.exit.now declaration.new result }
        ensures rest { declaration.new ≡ record declaration.old { expansive = declaration.new.expansive } }
    {
        self.equal(pattern_place(&bind.pat), Meeting::Binding, pattern, ty)?;
        let is_expansive = is_expansive(&self.scopes, &bind.exp)?;
        let count = declaration.variables.types.len();
        if declaration.expansive.len() < count {
            declaration.expansive.resize(count, is_expansive)?;
        }
        judge_binding(&self.scopes, &mut self.warnings, &bind.pat)
    }

    /// The bindings after `rec`.
    #[cycle(core)]
    #[inline(never)]
    pub(crate) fn recursive_binds(
        &mut self,
        declaration: &mut Declaration,
        binds: &[ValBind],
    ) -> Result<(), CoreFault> {
        let mark = self.mark();
        let mut patterns = self.recursive_patterns(declaration, binds)?.into_iter();
        for bind in binds {
            if let Some(pattern) = patterns.next() {
                check_function(&bind.exp)?;
                let ty = self.expression(&bind.exp)?;
                let place = pattern_place(&bind.pat);
                self.equal(place, Meeting::Binding, &pattern, &ty)?;
            }
        }
        self.leave(mark)?;
        Ok(())
    }

    /// The types of the patterns after `rec`, whose variables are bound in the right sides.
    #[inline(never)]
    fn recursive_patterns(
        &mut self,
        declaration: &mut Declaration,
        binds: &[ValBind],
    ) -> Result<Vec<Rc<MlType>>, CoreFault> {
        declaration.variables.is_recursive = true;
        let first = declaration.variables.types.len();
        let mut patterns = Vec::new(self.alloc);
        for bind in binds {
            let before = declaration.variables.types.len();
            patterns.push(self.pattern(&mut declaration.variables, &bind.pat)?)?;
            for (_, ty) in declaration.variables.types.iter().skip(before) {
                self.within(pattern_place(&bind.pat), ty, Bound::Newness, self.new.next)?;
            }
        }
        for (name, ty) in declaration.variables.types.iter().skip(first) {
            self.bind_variable(name, ty)?;
        }
        let count = declaration.variables.types.len();
        if declaration.expansive.len() < count {
            declaration.expansive.resize(count, false)?;
        }
        Ok(patterns)
    }

    /// Ends a value declaration: what is overloaded in it becomes `int`, rows have their labels, explicit type variables
    /// are general, and the types of its variables, which aren't too large, are closed and bound.
    #[inline(never)]
    pub(crate) fn end_values(
        &mut self,
        place: Place,
        declaration: Declaration,
    ) -> Result<(), CoreFault> {
        self.end_overloaded(declaration.overloaded)?;
        self.end_rows(declaration.rows)?;
        if !declaration.scoped.is_empty() {
            self.require_general(place, &declaration)?;
        }
        self.explicit.leave(declaration.explicit);
        let readings = self.readings(place, &declaration.variables)?;
        let schemes = self.schemes(place, &declaration, &readings)?;
        self.require_made(place, &declaration.variables, &schemes)?;
        self.bind_schemes(&declaration.variables, schemes)
    }

    /// Demands that the explicit type variables of a declaration are general.
    fn require_general(
        &mut self,
        place: Place,
        declaration: &Declaration,
    ) -> Result<(), CoreFault> {
        let others = self.left_open(declaration)?;
        let asked = ask_general(
            &mut self.solver,
            &declaration.scoped,
            declaration.unknowns,
            &others,
        );
        match asked {
            Ok(()) => Ok(()),
            Err(refusal) => Err(refused(refusal, place)),
        }
    }

    /// Settles the unknowns of overloaded identifiers after the first ones.
    fn end_overloaded(&mut self, first: usize) -> Result<(), CoreFault> {
        if first < self.overloaded.len() {
            if let Err(_) = ask_settled(&mut self.solver, &self.overloaded[first..]) {
                return Err(CoreFault::Memory);
            }
            self.overloaded.truncate(first);
        }
        Ok(())
    }

    /// Demands that the flexible rows after the first ones have their labels.
    fn end_rows(&mut self, first: usize) -> Result<(), CoreFault> {
        for (place, row) in self.rows.iter().skip(first) {
            if let Err(refusal) = ask_labels(&mut self.solver, row) {
                return Err(refused(refusal, *place));
            }
        }
        self.rows.truncate(first);
        Ok(())
    }

    /// The unknowns in the types of the variables that are not closed.
    fn left_open(&self, declaration: &Declaration) -> Result<Vec<u32>, Memory> {
        let mut unknowns = IndexSet::new(self.alloc);
        for (index, (_, ty)) in declaration.variables.types.iter().enumerate() {
            if is_set(&declaration.expansive, index) {
                collect_free(ty, &mut unknowns)?;
            }
        }
        list_of(self.alloc, &unknowns)
    }

    /// The type that a type stands for, or E7.
    fn reading(&mut self, place: Place, ty: &MlType) -> Result<Rc<MlType>, CoreFault> {
        match ask_reading(&mut self.solver, ty, GREATEST_SIZE) {
            Ok(Some(ty)) => Ok(ty),
            Ok(None) => Err(plain_fault(Code::E7, place)),
            Err(_) => Err(CoreFault::Memory),
        }
    }

    /// The types that the types of variables stand for, or E7.
    fn readings(
        &mut self,
        place: Place,
        variables: &Variables,
    ) -> Result<Vec<Rc<MlType>>, CoreFault> {
        let mut readings = Vec::new(self.alloc);
        for (_, ty) in &variables.types {
            readings.push(self.reading(place, ty)?)?;
        }
        Ok(readings)
    }

    /// The schemes of the variables of a value declaration, whose types stand for these.
    fn schemes(
        &mut self,
        place: Place,
        declaration: &Declaration,
        readings: &[Rc<MlType>],
    ) -> Result<Vec<Rc<Scheme>>, CoreFault> {
        let mut fixed: Option<Vec<bool>> = None;
        let mut schemes = Vec::new(self.alloc);
        for (index, reading) in readings.iter().enumerate() {
            let is_expansive = is_set(&declaration.expansive, index);
            let first = declaration.unknowns;
            let scheme = self.scheme(place, reading, first, is_expansive, &mut fixed)?;
            schemes.push(Rc::new(self.alloc, scheme)?)?;
        }
        Ok(schemes)
    }

    /// Demands that what stays unknown in the types of variables mentions no name that is made later.
    fn require_made(
        &mut self,
        place: Place,
        variables: &Variables,
        schemes: &[Rc<Scheme>],
    ) -> Result<(), CoreFault> {
        for ((_, ty), scheme) in variables.types.iter().zip(schemes) {
            if !is_ground(&scheme.body) {
                self.is_open = true;
                self.within(place, ty, Bound::Newness, self.new.next)?;
            }
        }
        Ok(())
    }

    /// The scheme of a variable in a declaration that begins after the first unknowns. Which unknowns are fixed is asked
    /// once.
    fn scheme(
        &mut self,
        place: Place,
        reading: &Rc<MlType>,
        first: usize,
        is_expansive: bool,
        fixed: &mut Option<Vec<bool>>,
    ) -> Result<Scheme, CoreFault> {
        if is_ground(reading) {
            return Ok(Scheme {
                variables: Vec::new(self.alloc),
                body: reading.clone()?,
            });
        }
        let flags = match fixed.take() {
            Some(flags) => flags,
            None => self.fixed(first)?,
        };
        let scheme = self.closed(place, reading, &flags, is_expansive)?;
        *fixed = Some(flags);
        Ok(scheme)
    }

    fn bind_schemes(
        &mut self,
        variables: &Variables,
        schemes: Vec<Rc<Scheme>>,
    ) -> Result<(), CoreFault> {
        let mut schemes = schemes.into_iter();
        for (name, _) in &variables.types {
            if let Some(scheme) = schemes.next() {
                let status = Status::Variable;
                self.bind_value(name, Value { status, scheme })?;
            }
        }
        Ok(())
    }

    /// Which unknowns the context of a declaration fixes, which begins after the first ones.
    fn fixed(&mut self, first: usize) -> Result<Vec<bool>, CoreFault> {
        match ask_fixed(&mut self.solver, first, &[]) {
            Ok(flags) => Ok(flags),
            Err(_) => Err(CoreFault::Memory),
        }
    }

    /// The scheme of a type, or E7.
    fn closed(
        &mut self,
        place: Place,
        ty: &MlType,
        fixed: &[bool],
        is_expansive: bool,
    ) -> Result<Scheme, CoreFault> {
        let found = ask_scheme(
            self.alloc,
            &mut self.solver,
            ty,
            fixed,
            is_expansive,
            GREATEST_SIZE,
        );
        match found {
            Ok(Some(scheme)) => Ok(scheme),
            Ok(None) => Err(plain_fault(Code::E7, place)),
            Err(_) => Err(CoreFault::Memory),
        }
    }
}

fn named(alloc: Global, names: &[Name]) -> Result<IndexSet<Ident>, Memory>
    ensures { IfOk result (λ found. ids_of found.keys ≡ with_all [] (map (λ x. x.id) (names_of names.now))) }
{
    let mut found = IndexSet::new(alloc);
    for name in names {
        found.insert(name.ident.clone()?)?;
    }
    Ok(found)
}

fn list_of(alloc: Global, unknowns: &IndexSet<u32>) -> Result<Vec<u32>, Memory> {
    let mut list = Vec::new(alloc);
    for unknown in unknowns {
        list.push(*unknown)?;
    }
    Ok(list)
}

/// The flag at an index; none is not set.
fn is_set(flags: &[bool], index: usize) -> bool {
    match flags.get(index) {
        Some(flag) => *flag,
        None => false,
    }
}

/// That the right side of `rec` is a function.
fn check_function(exp: &Exp) -> Result<(), CoreFault> {
    if is_function(exp) {
        Ok(())
    } else {
        Err(plain_fault(Code::E9, expression_place(exp)))
    }
}
