//! What elaboration knows while it goes through a top-level declaration.

ghost use Rattle.std.specs.Prelude.{◌≡◌, ◌≢◌, ◌+◌, List, [], ◌∷◌, Some, None, true, false, OnOk};
ghost use Rattle.std.specs.Option.{IfSome};
ghost use Rattle.sml_lex.specs.declared.fault.Code.{Code};
ghost use Rattle.sml_lex.specs.declared.fault.Code.TheVariants.{E1};
ghost use Rattle.sml_tree.specs.TypeViews.{ty_of};
ghost use Rattle.sml_tree.specs.Views.{ident_of, long_of};
ghost use Rattle.sml_tree.specs.Withtype.{unlisted};
ghost use Rattle.sml_objects.specs.Initial.{Name};
ghost use Rattle.sml_objects.specs.Maps.{Map, lookup};
ghost use Rattle.sml_objects.specs.Objects as T;
ghost use Rattle.sml_objects.specs.Views.{entries_of, type_of};
ghost use Rattle.sml_graph.specs.Refusals.{refusal_code};
ghost use Rattle.sml_core_rules.specs.Answers.{need};
ghost use Rattle.sml_core_rules.specs.Lookups as found;
ghost use Rattle.sml_core_rules.specs.Types.{read_ty};
ghost use Rattle.sml_core_rules.specs.Values.{constructs, is_constructor};
ghost use Rattle.sml_core_rules.specs.Objects as O;
ghost use Rattle.sml_core_rules.specs.Objects.{and_structure, empty, maps, no_structure, of_types, of_values, overloaded};
ghost use Rattle.sml_bases.specs.Views.{env_of, status_of, structures_of, ty_str_of, value_of};
ghost use Rattle.sml_bases.specs.declared.objects.Basis.{out-Basis};
ghost use Rattle.sml_scopes.specs.Means.{BasisMeans, IsAround, Means, MeansAt};
ghost use Rattle.sml_types.specs.Answered.{IsAnswer, IsFault};
ghost use Rattle.sml_types.specs.declared.fault.CoreFault.TheVariants as CoreFault;
ghost use Rattle.sml_types.specs.Meant.{meant};
ghost use Rattle.sml_asks.specs.Solvers.{AreNames};
ghost use Rattle.sml_core.specs.Answered.{AsksAttributes, AsksStatus, Begins, Equates, FindsValue, Limits, MakesInstance, MakesUnknown, Watches, unit_of};
ghost use Rattle.sml_core.specs.Bound.{Extends, IsAnew};
ghost use Rattle.sml_core.specs.Patterns.{ReadsConstraint};
ghost use Rattle.sml_core.specs.Seen.{AreFunctionsIn, AreScoped, AreValuesIn};

use crate::explicit::Explicit;
use crate::recorder::{Meeting, Recorder, Seen};
use sml_asks::asks::{ask_class, ask_equal, ask_equality, ask_instance, ask_scheme, ask_within};
use sml_bases::objects::{Basis, Env, Status, TypeStr, Value};
use sml_graph::demand::Refusal;
use sml_layers::class::Class;
use sml_layers::layer::Bound;
use sml_lex::fault::{Code, Memory, Place, Warning};
use sml_objects::objects::{MlType, Scheme};
use sml_scopes::scopes::{Mark, Scopes};
use sml_scopes::values::value_at;
use sml_solve::solver::Solver;
use sml_tree::bare::{Ident, LongIdent};
use sml_tree::types::Ty;
use sml_type_maps::new_names::NewNames;
use sml_types::fault::{CoreFault, plain_fault};
use sml_types::rows::{boxed, number_of, tuple_of};
use sml_types::scope::unbound;
use sml_types::sizes::small;
use sml_types::types::{type_place, written_type};
use sml_types::written::Written;
use std::alloc::Global;
use std::collections::BTreeMap;
use std::mem;
use std::rc::Rc;

/// The scopes that are open, what was asked of unknown types, the names made so far, and what the declaration exports.
#[derive(Drop)]
pub struct Context<'a> {
    pub alloc: Global,
    pub scopes: Scopes<'a>,
    pub solver: Solver,
    pub new: NewNames<'a>,
    pub warnings: Vec<Warning>,
    pub recorder: Recorder,
    /// What was bound since it was set, where that is wanted.
    exports: Option<Env>,
    pub(crate) explicit: Explicit,
    /// Flexible rows whose labels are to be known at the end of the value declaration, in order of making.
    pub(crate) rows: Vec<(Place, Rc<MlType>)>,
    /// The unknowns of overloaded identifiers that are settled at the end of the value declaration, in order of making.
    pub(crate) overloaded: Vec<u32>,
    /// Whether an unknown of an earlier declaration may still stand in the scopes.
    pub(crate) is_open: bool,
}

/// The most nodes that types have which are kept to be shown.
pub const MOST_SHOWN: u32 = 1_000;

/// The fault of a demand that was refused there.
pub(crate) fn refused(refusal: Refusal, place: Place) -> CoreFault
    ensures fault { (c : Code) → refusal_code refusal ≡ Some c → IsFault result (record { code = c; place = place; detail = None }) }
    ensures memory { refusal_code refusal ≡ None → result ≡ CoreFault.Memory }
{
    match refusal.code() {
        Some(code) => plain_fault(code, place),
        None => CoreFault::Memory,
    }
}

impl<'a> Context<'a> {
    /// The context of a declaration in a basis. What it binds is exported.
    pub fn new(alloc: Global, basis: &'a Basis) -> Context<'a>
        ensures scopes { (C : O.Env Name) → BasisMeans basis.now C → Means result.scopes C }
        ensures solver { IsAnew (unit_of result) result.solver }
        ensures unit { result.new.unit ≡ (out-Basis basis.now).unit }
        ensures next { result.new.next ≡ (out-Basis basis.now).count }
        ensures rows { result.rows.items ≡ [] }
        ensures overloaded { result.overloaded.items ≡ [] }
        ensures quiet { result.recorder.wanted ≡ None }
        ensures exports { result.exports ≡ None }
        ensures closed { result.is_open ≡ false }
        ensures begins { (C : O.Env Name) (ns : List Name) → BasisMeans basis.now C → AreValuesIn 0 ns C → AreFunctionsIn 0 ns C → AreNames (unit_of result) result.new.next ns → Begins C ns result }
    {
        Context {
            alloc,
            scopes: Scopes::new(alloc, basis),
            solver: Solver::new(alloc, basis.unit),
            new: NewNames::new(alloc, basis),
            warnings: Vec::new(alloc),
            recorder: Recorder::new(alloc),
            exports: None,
            explicit: Explicit::new(alloc),
            rows: Vec::new(alloc),
            overloaded: Vec::new(alloc),
            is_open: false,
        }
    }

    /// Sets what was exported aside, and begins anew, or with nothing wanted. `exported` takes it back.
    pub fn export(&mut self, wanted: bool) -> Option<Env>
        ensures aside { result ≡ self.entry.now.exports }
        ensures same { self.exit.now ≡ record self.entry.now { exports = self.exit.now.exports } }
        ensures wanted { wanted ≡ true → IfSome self.exit.now.exports (λ env. env_of env ≡ empty) × (self.exit.now.exports ≢ None) }
        ensures unwanted { wanted ≡ false → self.exit.now.exports ≡ None }
    {
        let exports = if wanted {
            Some(Env::new(self.alloc))
        } else {
            None
        };
        mem::replace(&mut self.exports, exports)
    }

    /// What was bound since `export`, whose answer is what goes on.
    pub fn exported(&mut self, aside: Option<Env>) -> Env
        ensures some { IfSome self.entry.now.exports (λ env. result ≡ env) }
        ensures none { self.entry.now.exports ≡ None → env_of result ≡ empty }
        ensures same { self.exit.now ≡ record self.entry.now { exports = aside } }
    {
        match mem::replace(&mut self.exports, aside) {
            Some(env) => env,
            None => Env::new(self.alloc),
        }
    }

    pub fn bind_value(&mut self, name: &Ident, value: Value) -> Result<(), Memory>
        ensures bound { OnOk result (Extends self.entry.now.scopes (maps no_structure [] ((ident_of name.now, value_of value) ∷ [])) self.exit.now.scopes) }
        ensures around { OnOk result ((C : O.Env Name) (m : Mark) → MeansAt self.entry.now.scopes m C → MeansAt self.exit.now.scopes m C) }
        ensures same { self.exit.now ≡ record self.entry.now { scopes = self.exit.now.scopes; exports = self.exit.now.exports } }
    {
        if let Some(env) = &mut self.exports {
            env.values.insert(name.clone()?, value.share()?)?;
        }
        self.scopes.bind_value(name, value)
    }

    pub fn bind_type(&mut self, name: &Ident, ty: TypeStr) -> Result<(), Memory>
        ensures bound { OnOk result (Extends self.entry.now.scopes (maps no_structure ((ident_of name.now, ty_str_of ty) ∷ []) []) self.exit.now.scopes) }
        ensures around { OnOk result ((C : O.Env Name) (m : Mark) → MeansAt self.entry.now.scopes m C → MeansAt self.exit.now.scopes m C) }
        ensures same { self.exit.now ≡ record self.entry.now { scopes = self.exit.now.scopes; exports = self.exit.now.exports; recorder = self.exit.now.recorder } }
        ensures wanted { self.exit.now.recorder.wanted ≡ self.entry.now.recorder.wanted }
    {
        let basis = self.scopes.basis();
        self.recorder.note_type(basis.unit, basis.count, name, &ty)?;
        if let Some(env) = &mut self.exports {
            env.types.insert(name.clone()?, ty.share()?)?;
        }
        self.scopes.bind_type(name, ty)
    }

    pub fn bind_structure(&mut self, name: &Ident, structure: Rc<Env>) -> Result<(), Memory>
        ensures bound { OnOk result (Extends self.entry.now.scopes (maps (and_structure (ident_of name.now) (env_of structure.value) no_structure) [] []) self.exit.now.scopes) }
        ensures around { OnOk result ((C : O.Env Name) (m : Mark) → MeansAt self.entry.now.scopes m C → MeansAt self.exit.now.scopes m C) }
        ensures same { self.exit.now ≡ record self.entry.now { scopes = self.exit.now.scopes; exports = self.exit.now.exports; recorder = self.exit.now.recorder } }
        ensures wanted { self.exit.now.recorder.wanted ≡ self.entry.now.recorder.wanted }
    {
        let basis = self.scopes.basis();
        self.recorder
            .note_structure(basis.unit, basis.count, name, &structure)?;
        if let Some(env) = &mut self.exports {
            env.structures.insert(name.clone()?, structure.clone()?)?;
        }
        self.scopes.bind_structure(name, structure)
    }

    /// Binds what an environment holds, entry by entry.
    pub fn bind_env(&mut self, env: Env) -> Result<(), Memory>
        ensures bound { OnOk result (Extends self.entry.now.scopes (env_of env) self.exit.now.scopes) }
        ensures around { OnOk result ((C : O.Env Name) (m : Mark) → MeansAt self.entry.now.scopes m C → MeansAt self.exit.now.scopes m C) }
        ensures same { self.exit.now ≡ record self.entry.now { scopes = self.exit.now.scopes; exports = self.exit.now.exports; recorder = self.exit.now.recorder } }
        ensures wanted { self.exit.now.recorder.wanted ≡ self.entry.now.recorder.wanted }
    {
        let Env {
            structures,
            types,
            values,
            ..
        } = env;
        self.bind_structures(structures)?;
        self.bind_types(types)?;
        self.bind_values(values)
    }

    fn bind_structures(&mut self, structures: BTreeMap<Ident, Rc<Env>>) -> Result<(), Memory>
        ensures bound { OnOk result (Extends self.entry.now.scopes (maps (structures_of (entries_of (λ s. env_of s.value) structures.entries)) [] []) self.exit.now.scopes) }
        ensures around { OnOk result ((C : O.Env Name) (m : Mark) → MeansAt self.entry.now.scopes m C → MeansAt self.exit.now.scopes m C) }
        ensures same { self.exit.now ≡ record self.entry.now { scopes = self.exit.now.scopes; exports = self.exit.now.exports; recorder = self.exit.now.recorder } }
        ensures wanted { self.exit.now.recorder.wanted ≡ self.entry.now.recorder.wanted }
    {
        for (name, structure) in structures {
            self.bind_structure(&name, structure)?;
        }
        Ok(())
    }

    fn bind_types(&mut self, types: BTreeMap<Ident, TypeStr>) -> Result<(), Memory>
        ensures bound { OnOk result (Extends self.entry.now.scopes (of_types (entries_of ty_str_of types.entries)) self.exit.now.scopes) }
        ensures around { OnOk result ((C : O.Env Name) (m : Mark) → MeansAt self.entry.now.scopes m C → MeansAt self.exit.now.scopes m C) }
        ensures same { self.exit.now ≡ record self.entry.now { scopes = self.exit.now.scopes; exports = self.exit.now.exports; recorder = self.exit.now.recorder } }
        ensures wanted { self.exit.now.recorder.wanted ≡ self.entry.now.recorder.wanted }
    {
        for (name, ty) in types {
            self.bind_type(&name, ty)?;
        }
        Ok(())
    }

    fn bind_values(&mut self, values: BTreeMap<Ident, Value>) -> Result<(), Memory>
        ensures bound { OnOk result (Extends self.entry.now.scopes (of_values (entries_of value_of values.entries)) self.exit.now.scopes) }
        ensures around { OnOk result ((C : O.Env Name) (m : Mark) → MeansAt self.entry.now.scopes m C → MeansAt self.exit.now.scopes m C) }
        ensures same { self.exit.now ≡ record self.entry.now { scopes = self.exit.now.scopes; exports = self.exit.now.exports } }
    {
        for (name, value) in values {
            self.bind_value(&name, value)?;
        }
        Ok(())
    }

    /// Binds what a structure holds.
    pub fn open(&mut self, structure: Rc<Env>) -> Result<(), Memory>
        ensures bound { OnOk result (Extends self.entry.now.scopes (env_of structure.value) self.exit.now.scopes) }
        ensures around { OnOk result ((C : O.Env Name) (m : Mark) → MeansAt self.entry.now.scopes m C → MeansAt self.exit.now.scopes m C) }
        ensures same { self.exit.now ≡ record self.entry.now { scopes = self.exit.now.scopes; exports = self.exit.now.exports } }
    {
        if let Some(env) = &mut self.exports {
            env.add(&structure)?;
        }
        self.scopes.open(structure)
    }

    pub fn mark(&self) -> Mark
        ensures meant { (C : O.Env Name) → Means self.now.scopes C → MeansAt self.now.scopes result C }
        ensures around { (C : O.Env Name) (m : Mark) → MeansAt self.now.scopes m C → IsAround m result }
    {
        self.scopes.mark()
    }

    pub fn leave(&mut self, mark: Mark) -> Result<(), Memory>
        ensures left { OnOk result ((C : O.Env Name) → MeansAt self.entry.now.scopes mark C → Means self.exit.now.scopes C) }
        ensures around { OnOk result ((C D : O.Env Name) (m : Mark) → MeansAt self.entry.now.scopes mark D → IsAround m mark → MeansAt self.entry.now.scopes m C → MeansAt self.exit.now.scopes m C) }
        ensures same { self.exit.now ≡ record self.entry.now { scopes = self.exit.now.scopes } }
    {
        self.scopes.leave(mark)
    }

    /// Forgets the unknowns of the declarations before, unless one may still stand in the scopes.
    pub fn refresh(&mut self)
        ensures stays { self.entry.now.is_open ≡ true → self.exit.now ≡ self.entry.now }
        ensures anew { self.entry.now.is_open ≡ false → IsAnew (unit_of self.entry.now) self.exit.now.solver }
        ensures same { self.exit.now ≡ record self.entry.now { solver = self.exit.now.solver } }
    {
        if !self.is_open {
            self.solver = Solver::new(self.alloc, self.new.unit);
        }
    }

    /// Begins a part of the declaration that sees no unknown of the parts before, all of which are forgotten.
    pub fn begin_part(&mut self)
        ensures anew { IsAnew (unit_of self.entry.now) self.exit.now.solver }
        ensures same { self.exit.now ≡ record self.entry.now { solver = self.exit.now.solver; is_open = false } }
    {
        self.is_open = false;
        self.refresh();
    }

    /// Whether an unknown may still stand in what was bound.
    pub fn is_open(&self) -> bool
        ensures { result ≡ self.now.is_open }
    {
        self.is_open
    }

    /// The value that a long identifier means, or E3, or none.
    pub(crate) fn find(&self, long: &LongIdent) -> Result<Option<Value>, CoreFault>
        ensures { (C : O.Env Name) → Means self.now.scopes C → FindsValue long.now.place result (found.value_at C (long_of long.now)) }
    {
        match value_at(&self.scopes, long)? {
            None => Ok(None),
            Some(value) => Ok(Some(value.share()?)),
        }
    }

    /// The value that a long identifier means, or E3 or E1.
    pub(crate) fn value(&self, long: &LongIdent) -> Result<Value, CoreFault>
        ensures { (C : O.Env Name) → Means self.now.scopes C → IsAnswer value_of result (need E1 long.now.place (long_of long.now) (found.value_at C (long_of long.now))) }
    {
        match self.find(long)? {
            Some(value) => Ok(value),
            None => Err(unbound(self.alloc, Code::E1, long)?),
        }
    }

    /// The status of a short identifier; one that is unbound is a variable.
    pub(crate) fn status(&self, name: &Ident) -> Status
        ensures { (C : O.Env Name) → Means self.now.scopes C → constructs (status_of result) ≡ is_constructor C (ident_of name.now) }
    {
        match self.scopes.value(name) {
            Some(value) => value.status,
            None => Status::Variable,
        }
    }

    /// A new unknown.
    pub(crate) fn unknown(&mut self) -> Result<Rc<MlType>, CoreFault>
        ensures { MakesUnknown self.entry.now self.exit.now result }
    {
        let Ok(number) = self.solver.fresh() else {
            return Err(CoreFault::Memory);
        };
        Ok(boxed(self.alloc, MlType::Free(number))?)
    }

    /// Demands that two types are equal.
    pub(crate) fn equal(
        &mut self,
        place: Place,
        meeting: Meeting,
        left: &MlType,
        right: &MlType,
    ) -> Result<(), CoreFault>
        ensures { Equates self.entry.now place (type_of left.now) (type_of right.now) self.exit.now result }
    {
        self.watch(meeting, &[left, right])?;
        match ask_equal(&mut self.solver, left, right) {
            Ok(()) => Ok(()),
            Err(refusal) => {
                self.recorder.refuse();
                Err(refused(refusal, place))
            }
        }
    }

    /// Keeps the types of a demand that is made now, where they are wanted.
    fn watch(&mut self, meeting: Meeting, types: &[&MlType]) -> Result<(), CoreFault>
        ensures { Watches self.entry.now self.exit.now result }
    {
        if self.recorder.is_next() {
            return self.keep(meeting, types);
        }
        Ok(())
    }

    /// Keeps the types of a demand that is refused next, unless they are too large to be shown.
    #[inline(never)]
    fn keep(&mut self, meeting: Meeting, types: &[&MlType]) -> Result<(), CoreFault> {
        let mut parts = Vec::new(self.alloc);
        for ty in types {
            let part = self.unknown()?;
            if ask_equal(&mut self.solver, &part, *ty).is_err() {
                return Err(CoreFault::Memory);
            }
            parts.push(part)?;
        }
        let explicit = self.explicit.put_all(self.alloc, &mut parts)?;
        let row = tuple_of(self.alloc, parts)?;
        let found = ask_scheme(self.alloc, &mut self.solver, &row, &[], false, MOST_SHOWN);
        match found {
            Ok(Some(scheme)) => {
                self.recorder.keep(Seen::Types(meeting, scheme, explicit));
                Ok(())
            }
            Ok(None) => Ok(()),
            Err(_) => Err(CoreFault::Memory),
        }
    }

    /// Demands that a type mentions only names with lower numbers.
    pub(crate) fn within(
        &mut self,
        place: Place,
        ty: &MlType,
        bound: Bound,
        most: u32,
    ) -> Result<(), CoreFault>
        ensures { Limits self.entry.now place (type_of ty.now) bound most self.exit.now result }
    {
        self.watch(Meeting::Late, &[ty])?;
        match ask_within(&mut self.solver, ty, bound, most) {
            Ok(()) => Ok(()),
            Err(refusal) => {
                self.recorder.refuse();
                Err(refused(refusal, place))
            }
        }
    }

    /// An instance of a value's scheme with new unknowns, and what is asked of these.
    pub(crate) fn instance(&mut self, place: Place, value: &Value) -> Result<Rc<MlType>, CoreFault>
        ensures { MakesInstance self.entry.now place (value_of value.now) self.exit.now result }
    {
        let from = number_of(self.solver.unknowns())?;
        let Ok(ty) = ask_instance(&mut self.solver, &value.scheme) else {
            return Err(CoreFault::Memory);
        };
        self.ask_attributes(place, &value.scheme.variables, from)?;
        self.ask_status(place, value.status, from)?;
        Ok(ty)
    }

    /// Demands equality of the unknowns that stand for equality variables, the first unknown for the first variable.
    fn ask_attributes(
        &mut self,
        place: Place,
        attributes: &[bool],
        from: u32,
    ) -> Result<(), CoreFault>
        ensures { AsksAttributes self.entry.now place from attributes.now self.exit.now result }
    {
        for (index, equality) in attributes.iter().enumerate() {
            self.ask_attribute(place, from, index, *equality)?;
        }
        Ok(())
    }

    /// Demands equality, where that is so, of the unknown that stands for the variable with an index, after the first unknown.
    fn ask_attribute(
        &mut self,
        place: Place,
        from: u32,
        index: usize,
        equality: bool,
    ) -> Result<(), CoreFault>
        ensures { AsksAttributes self.entry.now place (from + index) (equality ∷ []) self.exit.now result }
    {
        if !equality {
            return Ok(());
        }
        let Some(number) = (from as usize).checked_add(index) else {
            return Err(CoreFault::Memory);
        };
        let ty = MlType::Free(number_of(number)?);
        match ask_equality(&mut self.solver, &ty) {
            Ok(()) => Ok(()),
            Err(refusal) => Err(refused(refusal, place)),
        }
    }

    /// Demands of the unknown that stands for a value's first variable what the value's status asks.
    fn ask_status(&mut self, place: Place, status: Status, unknown: u32) -> Result<(), CoreFault>
        ensures { AsksStatus self.entry.now place unknown (status_of status) self.exit.now result }
    {
        match status {
            Status::Overloaded(class) => self.ask_overload(place, class, unknown),
            Status::Variable => Ok(()),
            Status::Constructor { .. } => Ok(()),
            Status::Exception => Ok(()),
        }
    }

    /// Demands a class of the unknown of an overloaded identifier, which is settled at the end of the value declaration.
    fn ask_overload(&mut self, place: Place, class: Class, unknown: u32) -> Result<(), CoreFault>
        ensures { AsksStatus self.entry.now place unknown (overloaded class) self.exit.now result }
    {
        match ask_class(&mut self.solver, &MlType::Free(unknown), class) {
            Ok(()) => {
                self.overloaded.push(unknown)?;
                Ok(())
            }
            Err(refusal) => Err(refused(refusal, place)),
        }
    }

    /// What a type expression means, with the explicit type variables in scope.
    pub(crate) fn written(&mut self, ty: &Ty) -> Result<Rc<Written>, CoreFault>
        ensures answer { (C : O.Env Name) (vs : Map (T.MlType Name)) → Means self.entry.now.scopes C → AreScoped self.entry.now.explicit vs → lookup unlisted vs ≡ None
            → IsAnswer (λ w. meant w.value) result (read_ty C vs (ty_of ty.now)) }
        ensures scoped { (vs : Map (T.MlType Name)) → AreScoped self.entry.now.explicit vs → AreScoped self.exit.now.explicit vs }
        ensures same { self.exit.now ≡ record self.entry.now { explicit = self.exit.now.explicit } }
    {
        written_type(self.alloc, &self.scopes, &mut self.explicit, ty)
    }

    /// The type that a constraint means, with the explicit type variables in scope. One that is too large for a scheme is E7
    /// at its first token.
    pub(crate) fn ty(&mut self, ty: &Ty) -> Result<Rc<MlType>, CoreFault>
        ensures { ReadsConstraint self.entry.now (ty_of ty.now) self.exit.now result }
    {
        let written = self.written(ty)?;
        small(self.alloc, type_place(ty), &written)?;
        Ok(written.make(self.alloc)?)
    }
}
