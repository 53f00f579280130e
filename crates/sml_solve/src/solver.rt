//! The solver: what a declaration asks of its unknown types.

ghost use Rattle.std.specs.Prelude.{◌≡◌, ℕ, ◌↔◌, ◌+◌, ◌^◌, ◌<◌, ◌≤◌, true, false, [], ◌∷◌, length, IfOk, OnOk, OnErr, Err};
ghost use Rattle.std.specs.Bool.{OnTrue, OnFalse};
ghost use Rattle.std.specs.Coded.{codes};
ghost use Rattle.std.specs.List.{AllByRecursion};
ghost use Rattle.std.specs.Option.{IfSome, IfNone};
ghost use Rattle.sml_objects.specs.Appearance.{Stands};
ghost use Rattle.sml_objects.specs.Initial.{Name, initial};
ghost use Rattle.sml_objects.specs.Names.{int};
ghost use Rattle.sml_objects.specs.Objects as O;
ghost use Rattle.sml_objects.specs.Objects.{free, named};
ghost use Rattle.sml_objects.specs.Sizes.{type_size};
ghost use Rattle.sml_objects.specs.Types.{instance_from, assign};
ghost use Rattle.sml_objects.specs.Views.{type_of, scheme_of, maker_of};
ghost use Rattle.sml_objects.specs.contracts.labels.Labels as labels;
ghost use Rattle.sml_graph.specs.contracts.fields.Fields as fields;
ghost use Rattle.sml_layers.specs.declared.layer.Layer.{Layer};
ghost use Rattle.sml_layers.specs.declared.layer.Layer.TheVariants.{Finiteness, Rigidity};
ghost use Rattle.sml_layers.specs.Worlds.{finite};
ghost use Rattle.sml_graph.specs.Worlds.{Assignment};
ghost use Rattle.sml_graph.specs.Asked.{Asked, asked_of, equal, has_fields, asks, count, IsOf, IsSchemeOf, CanMeet, IsMet, Permits, PermitsSame};
ghost use Rattle.sml_solve.specs.Calls.{Demands, Keeps, Returns};
ghost use Rattle.sml_solve.specs.Clashes.{IsUnmetWhereItClashes};
ghost use Rattle.sml_demands.specs.Counted.{IsSizeUpTo};
ghost use Rattle.sml_schemes.specs.Fixed.{AreFixed, IsFixed};
ghost use Rattle.sml_graph.specs.Interned.{demanded};
ghost use Rattle.sml_schemes.specs.Left.{HasOneSetOfLabels, IsFree, IsLeft, IsMadeOf, IsReading, IsMostGeneral};
ghost use Rattle.sml_demands.specs.CodeLevels.{IsKeptWith};
ghost use Rattle.sml_schemes.specs.Schemes.{GiveOneScheme, HasOneScheme, IsScheme, IsSchemeOfReading};
ghost use Rattle.sml_demands.specs.Overloaded.{IsOverloaded, Settles};

use crate::read::is_read;
use sml_demands::count::size_from;
use sml_demands::demands::{ask_row, equate, impose};
use sml_demands::levels::{begin_level, by_level, hand_levels_on, held_unknowns};
use sml_demands::reach::{has_flag, marks_from, places};
use sml_demands::reading::type_up_to;
use sml_demands::settling::{has_labels, has_several_names};
use sml_graph::cell::Cell;
use sml_graph::change::Change;
use sml_graph::demand::{Ask, Halt, Refusal};
use sml_graph::graph::{Graph, add, fill};
use sml_graph::limit_table::Limits;
use sml_graph::node::NodeId;
use sml_graph::orders::MIDDLE;
use sml_layers::class::Class;
use sml_layers::layer::{Bound, Layer};
use sml_layers::variable::Variable;
use sml_lex::fault::Memory;
use sml_objects::objects::{Initial, MlType, Scheme, TyName, UnitId};
use sml_objects::schemes::instantiate;
use sml_objects::sizes::size_up_to;
use sml_schemes::closing::closed;
use sml_tree::bare::Ident;
use std::alloc::Global;
use std::marker::Model;
use std::mem;
use std::rc::Rc;

/// What was asked of unknown types so far. A type speaks of the unknown with a number as the free variable of that
/// number. A refused call leaves the solver spent, and every later call is refused.
#[derive(Drop)]
pub struct Solver {
    alloc: Global,
    unit: UnitId,
    graph: Graph,
    unknowns: Vec<NodeId>,
    levels: Vec<Option<u32>>,
    left: Vec<Change>,
    spent: bool,
}

impl Model for Solver {
    ghost Value = { Asked };

    ghost coded = { Prim.hlevel (codes, fields.the_row.coded, labels.the_row.coded) };

    ghost view = { λ s. asked_of (maker_of s.unit) s.unknowns.items s.graph s.spent };

    ghost invariant = { λ s. s.spent ≡ false → IsKeptWith (maker_of s.unit) s.graph s.unknowns.items s.levels.items s.left.items };
}

impl Solver {
    /// A solver for declarations of a unit, with no unknown and no demand.
    pub fn new(alloc: Global, unit: UnitId) -> Self
        ensures count { count result ≡ 0 }
        ensures unit { result.unit ≡ maker_of unit }
        ensures met { IsMet result }
        ensures spent { result.spent ≡ false }
    {
        let graph = Graph {
            nodes: Vec::new(alloc),
            limits: Limits::new(alloc),
            orders: Vec::new(alloc),
            bottom: MIDDLE,
            top: MIDDLE,
        };
        Solver {
            alloc,
            unit,
            graph,
            unknowns: Vec::new(alloc),
            levels: Vec::new(alloc),
            left: Vec::new(alloc),
            spent: false,
        }
    }

    /// The number of a new unknown, of which nothing is asked. A number that no `u32` holds counts as want of memory.
    pub fn fresh(&mut self) -> Result<u32, Halt>
        ensures new { IfOk result (λ unknown. unknown ≡ count self.old) }
        ensures count { OnOk result (count self.new ≡ count self.old + 1) }
        ensures same { OnOk result (PermitsSame self.old self.new) }
        ensures call { Returns self.old self.new result Halt.Spent }
    {
        if self.spent {
            return Err(Halt::Spent);
        }
        self.spent = true;
        let Ok(number) = u32::try_from(self.unknowns.len()) else {
            return Err(Halt::Memory);
        };
        let Ok(at) = NodeId::try_from(self.graph.nodes.len()) else {
            return Err(Halt::Memory);
        };
        if let Err(_) = self.graph.nodes.push(Cell::unknown()) {
            return Err(Halt::Memory);
        }
        if let Err(_) = fill(&mut self.graph) {
            return Err(Halt::Memory);
        }
        if let Err(_) = self.unknowns.push(at) {
            return Err(Halt::Memory);
        }
        if let Err(_) = begin_level(&mut self.levels, at as usize, number) {
            return Err(Halt::Memory);
        }
        self.spent = false;
        Ok(number)
    }

    /// The body of a scheme with new unknowns for its variables (the Definition, section 4.5), of which nothing is
    /// asked. The new unknowns follow those before, in the order of the variables. A number that no `u32` holds counts as
    /// want of memory.
    pub fn instance(&mut self, scheme: &Scheme) -> Result<Rc<MlType>, Halt>
        requires { IsSchemeOf self.old (scheme_of scheme.now) }
        ensures ty { IfOk result (λ t. type_of t.value ≡ instance_from (count self.old) (scheme_of scheme.now).body) }
        ensures known { IfOk result (λ t. IsOf self.new (type_of t.value)) }
        ensures count { OnOk result (count self.new ≡ count self.old + length (scheme_of scheme.now).variables) }
        ensures same { OnOk result (PermitsSame self.old self.new) }
        ensures call { Returns self.old self.new result Halt.Spent }
    {
        if self.spent {
            return Err(Halt::Spent);
        }
        let Ok(from) = u32::try_from(self.unknowns.len()) else {
            self.spent = true;
            return Err(Halt::Memory);
        };
        let Ok(ty) = instantiate(self.alloc, scheme, from) else {
            self.spent = true;
            return Err(Halt::Memory);
        };
        match add_unknowns(self, scheme.variables.len()) {
            Ok(()) => Ok(ty),
            Err(halt) => Err(halt),
        }
    }

    /// The size of the type that a type stands for: the number of its variables, arrows, rows and applied names, where
    /// each unknown that is left counts as one, with the fields asked for where it is a flexible row. One more than the
    /// limit where they are more. The time taken beyond the type's own size grows with the limit.
    pub fn size_up_to(&mut self, ty: &MlType, limit: u32) -> Result<u32, Halt>
        requires known { IsOf self.old (type_of ty.now) }
        requires small { limit + 1 < 2 ^ 32 }
        ensures size { IfOk result (IsSizeUpTo limit self.old (type_of ty.now)) }
        ensures call { Keeps self.old self.new result Halt.Spent }
    {
        if self.spent {
            return Err(Halt::Spent);
        }
        self.spent = true;
        let Ok(at) = add(self.alloc, &mut self.graph, self.unknowns.as_slice(), ty) else {
            return Err(Halt::Memory);
        };
        let Ok(size) = size_from(self.alloc, self.graph.nodes.as_slice(), at, limit) else {
            return Err(Halt::Memory);
        };
        self.spent = false;
        Ok(size)
    }

    /// Whether an unknown is to be an initial name, and more than one it could still be. The default of such an unknown is
    /// `int` (the Definition, appendix E).
    pub fn is_overloaded(&self, unknown: u32) -> Result<bool, Halt>
        requires { unknown < count self.now }
        ensures yes { IfOk result (λ b. OnTrue b (IsOverloaded self.now unknown)) }
        ensures no { IfOk result (λ b. OnFalse b (IsOverloaded self.now unknown → ⊥)) }
        ensures int { IfOk result (λ b. OnTrue b ((l : Layer) → CanMeet l self.now (equal (free unknown) (named (initial int))))) }
        ensures err { OnErr result (result ≡ Err Halt.Spent) }
        ensures spent { result ≡ Err Halt.Spent ↔ self.now.spent ≡ true }
    {
        if self.spent {
            return Err(Halt::Spent);
        }
        let at = self.unknowns[unknown as usize];
        let nodes = self.graph.nodes.as_slice();
        Ok(has_several_names(nodes, &self.graph.limits, at))
    }

    /// The number of unknowns.
    pub fn unknowns(&self) -> usize
        ensures { result ≡ count self.now }
    {
        self.unknowns.len()
    }

    /// Makes each of these unknowns that is overloaded the default, `int` (the Definition, appendix E).
    pub fn settle(&mut self, unknowns: &[u32]) -> Result<(), Halt>
        requires { AllByRecursion (λ v. v < count self.old) unknowns.now }
        ensures ok { OnOk result (Settles self.old unknowns.now self.new) }
        ensures count { count self.new ≡ count self.old }
        ensures call { Returns self.old self.new result Halt.Spent }
    {
        if self.spent {
            return Err(Halt::Spent);
        }
        for index in 0..unknowns.len() {
            match settle_one(self, unknowns[index]) {
                Ok(()) => {}
                Err(halt) => return Err(halt),
            }
        }
        Ok(())
    }

    /// Leaves the solver spent, as a refused call does.
    pub fn spend(&mut self)
        ensures spent { self.new.spent ≡ true }
        ensures count { count self.new ≡ count self.old }
        ensures unit { self.new.unit ≡ self.old.unit }
    {
        self.spent = true;
    }

    /// A flag for each unknown that the types of the first unknowns and of others fix, so that it stands in the context of
    /// what is made after these. Of the unknowns that by the equations may be any type, or are flexible rows, no others
    /// have one.
    pub fn fixed_by(&mut self, first: usize, others: &[u32]) -> Result<Vec<bool>, Halt>
        requires first { first ≤ count self.old }
        requires others { AllByRecursion (λ w. w < count self.old) others.now }
        ensures flags { IfOk result (λ flags. AreFixed self.old first others.now flags.items) }
        ensures call { Keeps self.old self.new result Halt.Spent }
    {
        if self.spent {
            return Err(Halt::Spent);
        }
        match fixed_flags(self, first, others) {
            Ok(flags) => Ok(flags),
            Err(_) => Err(Halt::Memory),
        }
    }

    /// Demands that explicit type variables, for which some unknowns stand, are free neither in the types of the first
    /// unknowns nor in those of others (the Definition, section 4.6): U7 where one is.
    pub fn require_general(
        &mut self,
        variables: &[u32],
        first: usize,
        others: &[u32],
    ) -> Result<(), Refusal>
        requires variables { AllByRecursion (λ v. v < count self.old) variables.now }
        requires first { first ≤ count self.old }
        requires others { AllByRecursion (λ w. w < count self.old) others.now }
        ensures general { OnOk result (AllByRecursion (λ v. IsFree self.old v → IsFixed self.old first others.now v → ⊥) variables.now) }
        ensures unmet { (l : Layer) → result ≡ Err (Refusal.Unmet l) → (l ≡ Layer.Rigidity) × (v : ℕ) × Stands v variables.now × IsFixed self.old first others.now v }
        ensures labels { result ≡ Err Refusal.Labels → ⊥ }
        ensures call { Keeps self.old self.new result Refusal.Spent }
    {
        match self.fixed_by(first, others) {
            Err(halt) => Err(Refusal::from(halt)),
            Ok(flags) => {
                if has_flag(flags.as_slice(), variables) {
                    self.spent = true;
                    return Err(Refusal::Unmet(Layer::Rigidity));
                }
                Ok(())
            }
        }
    }

    /// Demands that a type is a row with one set of labels, whatever the unknowns become: U6 where it isn't.
    pub fn require_labels(&mut self, ty: &MlType) -> Result<(), Refusal>
        requires { IsOf self.old (type_of ty.now) }
        ensures one { OnOk result (HasOneSetOfLabels Finiteness self.old (type_of ty.now)) }
        ensures several { result ≡ Err Refusal.Labels → HasOneSetOfLabels Rigidity self.old (type_of ty.now) → ⊥ }
        ensures unmet { (l : Layer) → result ≡ Err (Refusal.Unmet l) → ⊥ }
        ensures call { Keeps self.old self.new result Refusal.Spent }
    {
        if self.spent {
            return Err(Refusal::Spent);
        }
        self.spent = true;
        let Ok(at) = add(self.alloc, &mut self.graph, self.unknowns.as_slice(), ty) else {
            return Err(Refusal::Memory);
        };
        if !has_labels(self.graph.nodes.as_slice(), at) {
            return Err(Refusal::Labels);
        }
        self.spent = false;
        Ok(())
    }

    /// A law: the unknowns that are left may have any types at once that each of them may have, and these fix the types of
    /// all others.
    pub fn choices_are_free(&self)
        requires { self.now.spent ≡ false }
        ensures { IsMostGeneral self.now }
    {
        let _spent = self.spent;
    }

    /// A law: a demand is refused with U1 exactly where it clashes with those that were asked: where these demands, closed
    /// under symmetry, transitivity and components, make two types equal that have different heads.
    pub fn unmet_where_it_clashes(&self)
        ensures { IsUnmetWhereItClashes self.now }
    {
        let _spent = self.spent;
    }

    /// A law: what `generalise` promises fixes the scheme.
    pub fn schemes_are_one(&self)
        requires { self.now.spent ≡ false }
        ensures { HasOneScheme self.now }
    {
        let _spent = self.spent;
    }

    /// A law: where two types, each over the unknowns of a solver of its own, may become the same types, what `generalise`
    /// promises gives them one scheme. So a scheme doesn't tell which unknowns it was made of, and in which order.
    pub fn schemes_agree(&self, other: &Solver)
        requires this { self.now.spent ≡ false }
        requires other { other.now.spent ≡ false }
        ensures { GiveOneScheme self.now other.now }
    {
        self.choices_are_free();
        other.choices_are_free();
    }

    /// The type that a type stands for, over the unknowns that are left, or `None` where it has more nodes than the
    /// limit. The time taken beyond the type's own size grows with the limit.
    pub fn reading(&mut self, ty: &MlType, limit: u32) -> Result<Option<Rc<MlType>>, Halt>
        requires known { IsOf self.old (type_of ty.now) }
        requires small { limit + 1 < 2 ^ 32 }
        ensures ty { IfOk result (λ found. IfSome found (λ t. IsReading self.new (type_of ty.now) (type_of t.value))) }
        ensures within { IfOk result (λ found. IfSome found (λ t. type_size (type_of t.value) ≤ limit)) }
        ensures none { IfOk result (λ found. IfNone found ((r : O.MlType Name) → IsReading self.new (type_of ty.now) r → limit < type_size r)) }
        ensures large { IfOk result (λ found. IfNone found ((σ : Assignment finite) → Permits Finiteness self.new σ → limit < type_size (assign σ (type_of ty.now)))) }
        ensures call { Keeps self.old self.new result Halt.Spent }
    {
        if self.spent {
            return Err(Halt::Spent);
        }
        if limit < size_up_to(ty, limit) {
            return Ok(None);
        }
        self.spent = true;
        let Ok(at) = add(self.alloc, &mut self.graph, self.unknowns.as_slice(), ty) else {
            return Err(Halt::Memory);
        };
        let nodes = self.graph.nodes.as_slice();
        let Ok(found) = type_up_to(self.alloc, nodes, self.unknowns.as_slice(), at, limit) else {
            return Err(Halt::Memory);
        };
        self.spent = false;
        Ok(found)
    }

    /// The scheme of a type whose variables may be bound unless the phrase is expansive, or `None` where it has more nodes
    /// than the limit. The unknowns with a flag are fixed, and stay, and so do flexible rows. An unknown that is still
    /// overloaded is bound like any other, so `settle` comes before. The time taken beyond the type's own size grows with the limit. A number that no
    /// `u32` holds counts as want of memory.
    pub fn generalise(
        &mut self,
        ty: &MlType,
        fixed: &[bool],
        expansive: bool,
        limit: u32,
    ) -> Result<Option<Scheme>, Halt>
        requires known { IsOf self.old (type_of ty.now) }
        requires flags { length fixed.now ≡ count self.old }
        requires small { limit + 1 < 2 ^ 32 }
        ensures scheme { IfOk result (λ found. IfSome found (λ s. IsScheme self.new fixed.now expansive (type_of ty.now) (scheme_of s))) }
        ensures known { IfOk result (λ found. IfSome found (λ s. IsSchemeOf self.new (scheme_of s))) }
        ensures within { IfOk result (λ found. IfSome found (λ s. type_size (scheme_of s).body ≤ limit)) }
        ensures none { IfOk result (λ found. IfNone found ((θ : O.Scheme Name) → IsScheme self.new fixed.now expansive (type_of ty.now) θ → limit < type_size θ.body)) }
        ensures large { IfOk result (λ found. IfNone found ((σ : Assignment finite) → Permits Finiteness self.new σ → limit < type_size (assign σ (type_of ty.now)))) }
        ensures call { Keeps self.old self.new result Halt.Spent }
    {
        if self.spent {
            return Err(Halt::Spent);
        }
        let nodes = self.graph.nodes.as_slice();
        let Ok(is_read) = is_read(self.alloc, nodes, self.unknowns.as_slice(), ty) else {
            self.spent = true;
            return Err(Halt::Memory);
        };
        if is_read && size_up_to(ty, limit) <= limit {
            let Ok(scheme) = close_reading(self, ty, fixed, expansive) else {
                return Err(Halt::Memory);
            };
            return Ok(Some(scheme));
        }
        match self.reading(ty, limit) {
            Err(halt) => Err(halt),
            Ok(None) => Ok(None),
            Ok(Some(reading)) => match close_reading(self, &reading, fixed, expansive) {
                Ok(scheme) => Ok(Some(scheme)),
                Err(_) => Err(Halt::Memory),
            },
        }
    }

    /// Demands that two types are equal: U1, U2, U3, E6, U4, U5 or U7 where they can't be.
    pub fn require_equal(&mut self, left: &MlType, right: &MlType) -> Result<(), Refusal>
        requires left { IsOf self.old (type_of left.now) }
        requires right { IsOf self.old (type_of right.now) }
        ensures { Demands self.old (equal (type_of left.now) (type_of right.now)) self.new result }
    {
        if self.spent {
            return Err(Refusal::Spent);
        }
        self.spent = true;
        match equate(
            self.alloc,
            self.unit,
            &mut self.graph,
            self.unknowns.as_slice(),
            left,
            right,
        ) {
            Ok(changed) => {
                if let Err(_) = self.left.extend_from_slice(changed.as_slice()) {
                    return Err(Refusal::Memory);
                }
                self.spent = false;
                Ok(())
            }
            Err(refusal) => Err(refusal),
        }
    }

    /// Demands that a type is a row that has some fields, and perhaps others (the Definition, section 4.7): U1, U2, U3, E6,
    /// U4, U5 or U7 where it can't be.
    pub fn require_row(
        &mut self,
        ty: &MlType,
        fields: &[(Ident, Rc<MlType>)],
    ) -> Result<(), Refusal>
        requires ty { IsOf self.old (type_of ty.now) }
        requires fields { AllByRecursion (λ f. IsOf self.old f.1) (demanded fields.now) }
        ensures { Demands self.old (has_fields (type_of ty.now) (demanded fields.now)) self.new result }
    {
        if self.spent {
            return Err(Refusal::Spent);
        }
        self.spent = true;
        match ask_row(
            self.alloc,
            self.unit,
            &mut self.graph,
            self.unknowns.as_slice(),
            ty,
            fields,
        ) {
            Ok(moved) => {
                if let Err(_) = self.left.extend_from_slice(moved.as_slice()) {
                    return Err(Refusal::Memory);
                }
                self.spent = false;
                Ok(())
            }
            Err(refusal) => Err(refusal),
        }
    }

    /// Demands that a type mentions no name that the unit made with the number given or a higher one: U3 or E6, by the
    /// bound, where it can't be met.
    pub fn require_within(&mut self, ty: &MlType, bound: Bound, most: u32) -> Result<(), Refusal>
        requires { IsOf self.old (type_of ty.now) }
        ensures { Demands self.old (asks (Ask.Within bound most) (type_of ty.now)) self.new result }
    {
        self.require(ty, Ask::Within(bound, most))
    }

    /// Demands that a type admits equality (the Definition, section 4.4): U4 where it can't.
    pub fn require_equality(&mut self, ty: &MlType) -> Result<(), Refusal>
        requires { IsOf self.old (type_of ty.now) }
        ensures { Demands self.old (asks Ask.Equality (type_of ty.now)) self.new result }
    {
        self.require(ty, Ask::Equality)
    }

    /// Demands that a type is one of the names of a class: U5 where it can't be.
    pub fn require_class(&mut self, ty: &MlType, class: Class) -> Result<(), Refusal>
        requires { IsOf self.old (type_of ty.now) }
        ensures { Demands self.old (asks (Ask.Class class) (type_of ty.now)) self.new result }
    {
        self.require(ty, Ask::Class(class))
    }

    /// Demands that a type is an explicit type variable, which stands for itself alone: U7 where it can't be.
    pub fn require_variable(&mut self, ty: &MlType, variable: Variable) -> Result<(), Refusal>
        requires { IsOf self.old (type_of ty.now) }
        ensures { Demands self.old (asks (Ask.Variable variable) (type_of ty.now)) self.new result }
    {
        self.require(ty, Ask::Variable(variable))
    }

    /// Demands something of a type.
    fn require(&mut self, ty: &MlType, ask: Ask) -> Result<(), Refusal>
        requires { IsOf self.old (type_of ty.now) }
        ensures { Demands self.old (asks ask (type_of ty.now)) self.new result }
    {
        if self.spent {
            return Err(Refusal::Spent);
        }
        self.spent = true;
        let unknowns = self.unknowns.as_slice();
        match impose(self.alloc, self.unit, &mut self.graph, unknowns, ask, ty) {
            Ok(()) => {
                self.spent = false;
                Ok(())
            }
            Err(refusal) => Err(refusal),
        }
    }
}

/// A flag for each unknown that the first unknowns and others fix.
fn fixed_flags(solver: &mut Solver, first: usize, others: &[u32]) -> Result<Vec<bool>, Memory>
    requires kept { solver.old.spent ≡ false }
    requires first { first ≤ count solver.old }
    requires others { AllByRecursion (λ w. w < count solver.old) others.now }
    ensures flags { IfOk result (λ flags. AreFixed solver.old first others.now flags.items) }
    ensures same { OnOk result (solver.new ≡ solver.old) }
    ensures count { count solver.new ≡ count solver.old }
    ensures unit { solver.new.unit ≡ solver.old.unit }
    ensures err { OnErr result (solver.new.spent ≡ true) }
{
    solver.spent = true;
    let left = mem::replace(&mut solver.left, Vec::new(solver.alloc));
    let pending = by_level(solver.alloc, solver.levels.as_slice(), left)?;
    hand_levels_on(solver.graph.nodes.as_slice(), &mut solver.levels, pending)?;
    let unknowns = solver.unknowns.as_slice();
    let nodes = solver.graph.nodes.as_slice();
    let levels = solver.levels.as_slice();
    let from = places(solver.alloc, unknowns, others)?;
    let marks = marks_from(solver.alloc, nodes, from.as_slice())?;
    let flags = held_unknowns(
        solver.alloc,
        nodes,
        unknowns,
        levels,
        first,
        marks.as_slice(),
    )?;
    solver.spent = false;
    Ok(flags)
}

/// The scheme of a type over unknowns that are left.
fn close_reading(
    solver: &mut Solver,
    ty: &MlType,
    fixed: &[bool],
    expansive: bool,
) -> Result<Scheme, Memory>
    requires kept { solver.old.spent ≡ false }
    requires left { IsMadeOf (IsLeft solver.old) (type_of ty.now) }
    requires flags { length fixed.now ≡ count solver.old }
    ensures scheme { IfOk result (λ s. IsSchemeOfReading solver.new fixed.now expansive (type_of ty.now) (scheme_of s)) }
    ensures known { IfOk result (λ s. IsSchemeOf solver.new (scheme_of s)) }
    ensures size { IfOk result (λ s. type_size (scheme_of s).body ≡ type_size (type_of ty.now)) }
    ensures same { OnOk result (solver.new ≡ solver.old) }
    ensures count { count solver.new ≡ count solver.old }
    ensures unit { solver.new.unit ≡ solver.old.unit }
    ensures err { OnErr result (solver.new.spent ≡ true) }
{
    let nodes = solver.graph.nodes.as_slice();
    let limits = &solver.graph.limits;
    let unknowns = solver.unknowns.as_slice();
    match closed(solver.alloc, nodes, limits, unknowns, fixed, expansive, ty) {
        Ok(scheme) => Ok(scheme),
        Err(memory) => {
            solver.spent = true;
            Err(memory)
        }
    }
}

fn int_type(alloc: Global) -> MlType
    ensures { type_of result ≡ named (initial int) }
{
    MlType::Name(TyName::Initial(Initial::Int), Vec::new(alloc))
}

/// Makes an unknown `int` where it is overloaded.
fn settle_one(solver: &mut Solver, unknown: u32) -> Result<(), Halt>
    requires known { unknown < count solver.old }
    requires new { solver.old.spent ≡ false }
    ensures ok { OnOk result (Settles solver.old (unknown ∷ []) solver.new) }
    ensures count { count solver.new ≡ count solver.old }
    ensures call { Returns solver.old solver.new result Halt.Spent }
{
    match solver.is_overloaded(unknown) {
        Err(halt) => Err(halt),
        Ok(false) => Ok(()),
        Ok(true) => {
            let default = int_type(solver.alloc);
            match solver.require_equal(&MlType::Free(unknown), &default) {
                Ok(()) => Ok(()),
                Err(Refusal::Memory) => Err(Halt::Memory),
                Err(Refusal::Spent) => Err(Halt::Spent),
                Err(Refusal::Unmet(_)) => unreachable!(),
                Err(Refusal::Labels) => unreachable!(),
            }
        }
    }
}

/// Adds so many unknowns, of which nothing is asked.
fn add_unknowns(solver: &mut Solver, number: usize) -> Result<(), Halt>
    requires { solver.old.spent ≡ false }
    ensures count { OnOk result (count solver.new ≡ count solver.old + number) }
    ensures same { OnOk result (PermitsSame solver.old solver.new) }
    ensures call { Returns solver.old solver.new result Halt.Spent }
{
    let mut made = 0;
    while made < number {
        match solver.fresh() {
            Ok(_) => {}
            Err(halt) => return Err(halt),
        }
        made += 1;
    }
    Ok(())
}
