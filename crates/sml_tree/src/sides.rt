//! Heights of datatypes with right sides in the place of the type constructors that are bound after `withtype`.

ghost use Rattle.std.specs.Prelude.{◌≡◌, suc, max, map, length, IfOk, IfSome, IfNone};
ghost use Rattle.std.specs.Option.{option_map};
ghost use Rattle.sml_lex.specs.declared.fault.Place.{Place};
ghost use Rattle.sml_tree.specs.Names as N;
ghost use Rattle.sml_tree.specs.Types as T;
ghost use Rattle.sml_tree.specs.Views.{long_of};
ghost use Rattle.sml_tree.specs.TypeViews.{ty_of, tys_of, ty_field_of, ty_fields_of};
ghost use Rattle.sml_tree.specs.BindingViews.{typ_bind_of, con_bind_of, dat_bind_of};
ghost use Rattle.sml_tree.specs.Height.{counted};
ghost use Rattle.sml_tree.specs.Heights.{highest, ty_height, tys_height, ty_fields_height, con_bind_height, dat_bind_height};
ghost use Rattle.sml_tree.specs.Withtype.{count_tys, binding, applied, replaced, all_replaced, fields_replaced, con_replaced, dat_replaced};
ghost use Rattle.sml_tree.specs.CodeDepths.{reach, reached};
ghost use Rattle.sml_tree.specs.CodeSides.{parts_of, side_of, KnowsSides};

use crate::bare::{Ident, LongIdent};
use crate::depths::depths_in;
use crate::expressions::{ConBind, DatBind, TypBind};
use crate::heights::height_of_ty;
use crate::types::{Ty, TyField};
use indexmap::IndexMap;
use sml_lex::fault::Memory;
use std::alloc::Global;

/// The height of a right side, and how deep each of its variables stands in it; 0 for one that stands nowhere or whose
/// name stands before it.
#[derive(Drop)]
pub struct Side {
    height: u32,
    depths: Vec<u32>,
}

/// Types that are bound after `withtype`, and their right sides by type constructor.
#[derive(Drop)]
pub struct Sides {
    pub types: Vec<TypBind>,
    table: IndexMap<Ident, Side>,
    ghost knows: { KnowsSides (map typ_bind_of types.items) table.entries },
}

fn side_of(alloc: Global, bind: &TypBind) -> Result<Side, Memory>
    ensures { IfOk result (λ side. side_of side ≡ parts_of (typ_bind_of bind.now)) }
{
    let depths = depths_in(alloc, &bind.ty, &bind.variables)?;
    Ok(Side {
        height: height_of_ty(&bind.ty),
        depths,
    })
}

/// The height of what something of this height stands in so deep.
fn reach(depth: u32, height: u32) -> u32
    ensures { result ≡ reach depth height }
{
    match depth {
        0 => 0,
        _ => (depth - 1).saturating_add(height),
    }
}

impl Sides {
    /// The right sides of these types.
    pub fn new(alloc: Global, types: Vec<TypBind>) -> Result<Sides, Memory>
        ensures { IfOk result (λ sides. sides.types ≡ types) }
    {
        let mut table = IndexMap::new(alloc);
        for index in (0..types.len()).rev() {
            let bind = &types[index];
            let side = side_of(alloc, bind)?;
            table.insert(bind.name.ident.clone()?, side)?;
        }
        Ok(Sides { types, table })
    }

    /// The right side of a type constructor after so many arguments, if it has one with as many variables.
    fn side(&self, constructor: &LongIdent, arguments: usize) -> Option<&Side>
        ensures some { IfSome result (λ side. (length side.now.depths.items ≡ arguments) × ((p : Place) (ts : T.Tys Place) (c : N.LongName Place) → c.id ≡ long_of constructor.now → count_tys ts ≡ arguments →
            counted (ty_height (applied p ts c (binding c.id.path c.id.last (map typ_bind_of self.now.types.items)))) ≡ max side.now.height (reached side.now.depths.items ts))) }
        ensures none { IfNone result ((p : Place) (ts : T.Tys Place) (c : N.LongName Place) → c.id ≡ long_of constructor.now → count_tys ts ≡ arguments →
            ty_height (applied p ts c (binding c.id.path c.id.last (map typ_bind_of self.now.types.items))) ≡ suc (tys_height ts)) }
    {
        if constructor.path.len() != 0 {
            return None;
        }
        let Some(side) = self.table.get(&constructor.last) else {
            return None;
        };
        match side.depths.len() == arguments {
            true => Some(side),
            false => None,
        }
    }

    #[cycle(sides)]
    fn height_of_ty(&self, ty: &Ty) -> u32
        ensures { result ≡ counted (ty_height (replaced (map typ_bind_of self.now.types.items) (ty_of ty.now))) }
    {
        match ty {
            Ty::Variable(_, _) => 1,
            Ty::Row(_, fields) => self.height_of_fields(fields).saturating_add(1),
            Ty::Tuple(_, tys) => self.height_of_tys(tys).saturating_add(1),
            Ty::Constructor(_, tys, constructor) => match self.side(constructor, tys.len()) {
                Some(side) => self.reached(&side.depths, tys).max(side.height),
                None => self.height_of_tys(tys).saturating_add(1),
            },
            Ty::Misapplied(_, tys, _) => self.height_of_tys(tys).saturating_add(1),
            Ty::Arrow(_, from, to) => self
                .height_of_ty(from)
                .max(self.height_of_ty(to))
                .saturating_add(1),
            Ty::Bracket(_, ty) => self.height_of_ty(ty).saturating_add(1),
        }
    }

    /// How high arguments make a right side in which they stand so deep.
    #[cycle(sides)]
    fn reached(&self, depths: &[u32], tys: &[Ty]) -> u32
        requires { length depths.now ≡ length tys.now }
        ensures { result ≡ reached depths.now (all_replaced (map typ_bind_of self.now.types.items) (tys_of (map ty_of tys.now))) }
    {
        let mut most = 0;
        for index in (0..tys.len()).rev() {
            most = reach(depths[index], self.height_of_ty(&tys[index])).max(most);
        }
        most
    }

    #[cycle(sides)]
    fn height_of_tys(&self, tys: &[Ty]) -> u32
        ensures { result ≡ counted (tys_height (all_replaced (map typ_bind_of self.now.types.items) (tys_of (map ty_of tys.now)))) }
    {
        let mut most = 0;
        for index in (0..tys.len()).rev() {
            most = self.height_of_ty(&tys[index]).max(most);
        }
        most
    }

    #[cycle(sides)]
    fn height_of_fields(&self, fields: &[TyField]) -> u32
        ensures { result ≡ counted (ty_fields_height (fields_replaced (map typ_bind_of self.now.types.items) (ty_fields_of (map ty_field_of fields.now)))) }
    {
        let mut most = 0;
        for index in (0..fields.len()).rev() {
            most = self.height_of_ty(&fields[index].ty).max(most);
        }
        most
    }

    fn height_of_con_bind(&self, bind: &ConBind) -> u32
        ensures { result ≡ counted (con_bind_height (con_replaced (map typ_bind_of self.now.types.items) (con_bind_of bind.now))) }
    {
        match &bind.argument {
            None => 0,
            Some(ty) => self.height_of_ty(ty),
        }
    }

    fn height_of_con_binds(&self, binds: &[ConBind]) -> u32
        ensures { result ≡ counted (highest con_bind_height (map (con_replaced (map typ_bind_of self.now.types.items)) (map con_bind_of binds.now))) }
    {
        let mut most = 0;
        for index in (0..binds.len()).rev() {
            most = self.height_of_con_bind(&binds[index]).max(most);
        }
        most
    }

    /// The greatest height of these datatypes with the right sides in the place of their type constructors.
    pub fn height_of_dat_binds(&self, binds: &[DatBind]) -> u32
        ensures { result ≡ counted (highest dat_bind_height (map (dat_replaced (map typ_bind_of self.now.types.items)) (map dat_bind_of binds.now))) }
    {
        let mut most = 0;
        for index in (0..binds.len()).rev() {
            most = self
                .height_of_con_binds(&binds[index].constructors)
                .max(most);
        }
        most
    }
}
