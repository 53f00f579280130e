//! The phrases that have been made and are not yet part of another one, on a stack.

ghost use Rattle.std.specs.Prelude.{◌≡◌, ◌<◌, List, [], ◌∷◌, map, reverse, true, false, vec_len, vec_capacity, IfOk, OnOk};
ghost use Rattle.std.specs.Prelude.{drop};
ghost use Rattle.std.specs.Option.{option_map};
ghost use Rattle.sml_tree.specs.TypeViews.{name_of, long_name_of, ty_of, tys_of, ty_field_of, ty_fields_of};
ghost use Rattle.sml_tree.specs.PatternViews.{constant_of, pat_of, pats_of};
ghost use Rattle.sml_tree.specs.BindingViews.{typ_bind_of, con_bind_of};
ghost use Rattle.sml_tree.specs.ExpressionViews.{exn_bind_of, exp_of, exps_of, field_of, fields_of, rule_of, rules_of, dec_of, decs_of, bind_of, binds_of};
ghost use Rattle.sml_tree.specs.SignatureViews.{val_desc_of, typ_desc_of, sig_of, spec_of, specs_of};
ghost use Rattle.sml_tree.specs.StructureViews.{str_of, str_dec_of, str_decs_of, top_of};
ghost use Rattle.sml_tree.specs.Clauses.{clause_of};
ghost use Rattle.sml_phrases.specs.Phrases.{at, of_exp, first, nothing, place_in, ty_if_any, pat_if_any, exp_if_any, rules_if_any, bind_in, binds_in, clauses_in, con_binds_in, constant_in, dec_in, decs_in, exn_binds_in, exp_in, exps_in, fields_in, long_in, longs_in, name_in, names_in, numeral, pat_in, pats_in, rules_in, sig_in, specs_in, str_dec_in, str_decs_in, str_in, top_in, ty_fields_in, ty_in, typ_binds_in, typ_descs_in, tys_in, val_descs_in, wheres_in};
ghost use Rattle.sml_phrases.specs.declared.stack.Held.{Held};
ghost use Rattle.sml_phrases.specs.PhraseViews.{held_in, is_alone, is_exp, is_nothing, low_where_of, phrase_of, seen};

use crate::low::{
    LowBind, LowBinds, LowClauses, LowConBinds, LowDec, LowDecs, LowExnBinds, LowExp, LowExps,
    LowFields, LowPat, LowPats, LowRules, LowSig, LowSpecs, LowStr, LowStrDec, LowStrDecs, LowTop,
    LowTy, LowTyFields, LowTypBinds, LowTys, LowValDescs, LowWhere,
};
use crate::phrase::{
    DeclarationPhrase, ExpressionPhrase, PatternPhrase, Phrase, SignaturePhrase, StructurePhrase,
    TypePhrase, discard,
};
use sml_lex::fault::{FIRST, Memory, Place};
use sml_tree::bare::LongIdent;
use sml_tree::expressions::{Dec, Exp, ValBind};
use sml_tree::names::Name;
use sml_tree::patterns::{Constant, ConstantKind, Pat};
use sml_tree::signatures::{SigExp, TypDesc};
use sml_tree::structures::{StrDec, StrExp, TopDec};
use sml_tree::types::Ty;
use std::alloc::Global;
use std::rc::Rc;

fn is_exp(phrase: &Phrase) -> bool
    ensures said { result ≡ is_exp (phrase_of phrase.now) }
    ensures exp { result ≡ true → phrase_of phrase.now ≡ of_exp (exp_in (phrase_of phrase.now)) }
{
    match phrase {
        Phrase::Expressions(ExpressionPhrase::Exp(_)) => true,
        _ => false,
    }
}

fn is_nothing(phrase: &Phrase) -> bool
    ensures said { result ≡ is_nothing (phrase_of phrase.now) }
    ensures nothing { result ≡ true → phrase_of phrase.now ≡ nothing }
{
    match phrase {
        Phrase::Nothing => true,
        _ => false,
    }
}

/// A phrase, and how many that are nothing stand right below it.
#[derive(Drop)]
pub struct Held {
    phrase: Phrase,
    below: usize,
}

/// Whether an expression is held last, and a phrase that is nothing stands below it.
fn is_alone(held: &[Held]) -> bool
    ensures said { result ≡ is_alone (held_in (reverse held.now)) }
    ensures alone { result ≡ true → (let vs = held_in (reverse held.now) in
        (first vs ≡ of_exp (exp_in (first vs))) × (at vs 1 ≡ nothing)) }
{
    let Some((last, before)) = held.split_last() else {
        return false;
    };
    if last.below > 0 {
        return is_exp(&last.phrase);
    }
    match before.split_last() {
        Some((below, _rest)) => is_exp(&last.phrase) && is_nothing(&below.phrase),
        None => false,
    }
}

/// Takes one that is nothing off from right below the last phrase held, if some are counted there, and says whether it
/// did.
fn take_below(held: &mut [Held]) -> bool
    ensures kept { result ≡ false → held.new ≡ held.old }
    ensures none { result ≡ false → (h : Held) (hs : List Held) → reverse held.old ≡ h ∷ hs → h.below ≡ 0 }
    ensures some { result ≡ true → (let vs = held_in (reverse held.old) in held_in (reverse held.new) ≡ first vs ∷ drop 2 vs) }
{
    let Some((last, _before)) = held.split_last_mut() else {
        return false;
    };
    if last.below == 0 {
        return false;
    }
    last.below -= 1;
    true
}

/// The phrases that are not yet part of another one, the last made on top: first some that are nothing.
#[derive(Drop)]
pub struct Stack {
    pub alloc: Global,
    held: Vec<Held>,
    nothings: usize,
}

impl Stack {
    pub fn new(alloc: Global) -> Stack
        ensures { seen result ≡ [] }
    {
        Stack {
            alloc,
            held: Vec::new(alloc),
            nothings: 0,
        }
    }

    /// Makes room for one more phrase.
    pub fn make_room(&mut self) -> Result<(), Memory>
        ensures room { OnOk result (vec_len self.new.held < vec_capacity self.new.held) }
        ensures same { seen self.new ≡ seen self.old }
    {
        self.held.reserve(1)?;
        Ok(())
    }

    /// Adds a phrase, for which there is room. Made where it is to stand, it is not moved.
    pub fn add(&mut self, phrase: Phrase)
        requires { vec_len self.now.held < vec_capacity self.now.held }
        ensures { seen self.new ≡ phrase_of phrase ∷ seen self.old }
    {
        self.held.push_reserved(Held {
            phrase,
            below: self.nothings,
        });
        self.nothings = 0;
    }

    pub fn push(&mut self, phrase: Phrase) -> Result<(), Memory>
        ensures { OnOk result (seen self.new ≡ phrase_of phrase ∷ seen self.old) }
    {
        match self.make_room() {
            Ok(()) => {
                self.add(phrase);
                Ok(())
            }
            Err(error) => {
                discard(phrase);
                Err(error)
            }
        }
    }

    /// Adds a phrase that is nothing.
    pub fn push_nothing(&mut self) -> Result<(), Memory>
        ensures { OnOk result (seen self.new ≡ nothing ∷ seen self.old) }
    {
        match self.nothings.checked_add(1) {
            Some(nothings) => {
                self.nothings = nothings;
                Ok(())
            }
            None => self.push(Phrase::Nothing),
        }
    }

    /// Whether there is no phrase.
    pub fn is_empty(&self) -> bool
        ensures none { result ≡ true → seen self.now ≡ [] }
        ensures some { result ≡ false → seen self.now ≡ first (seen self.now) ∷ drop 1 (seen self.now) }
    {
        if self.nothings > 0 {
            return false;
        }
        self.held.is_empty()
    }

    /// Takes all phrases off; their room is kept.
    pub fn clear(&mut self)
        ensures { seen self.new ≡ [] }
    {
        self.held.clear();
        self.nothings = 0;
    }

    /// Where an expression stands on top and nothing below it, takes the nothing off, and says whether it did.
    pub fn leave_exp(&mut self) -> bool
        ensures said { result ≡ is_alone (seen self.old) }
        ensures taken { result ≡ true → (at (seen self.old) 1 ≡ nothing) × (seen self.new ≡ of_exp (exp_in (first (seen self.old))) ∷ drop 2 (seen self.old)) }
        ensures kept { result ≡ false → seen self.new ≡ seen self.old }
    {
        if self.nothings > 0 || !is_alone(&self.held) {
            return false;
        }
        if take_below(&mut self.held) {
            return true;
        }
        let exp = self.held.take_last();
        let nothing = self.held.take_last();
        self.nothings = nothing.below;
        discard(nothing.phrase);
        self.add(exp.phrase);
        true
    }

    /// The phrase on top, or nothing where there is none.
    pub fn pop(&mut self) -> Phrase
        ensures value { phrase_of result ≡ first (seen self.old) }
        ensures rest { seen self.new ≡ drop 1 (seen self.old) }
    {
        if self.nothings > 0 {
            self.nothings -= 1;
            return Phrase::Nothing;
        }
        if self.held.is_empty() {
            return Phrase::Nothing;
        }
        let held = self.held.take_last();
        self.nothings = held.below;
        held.phrase
    }

    /// Takes the phrase on top off, whatever it is.
    pub fn skip(&mut self)
        ensures { seen self.new ≡ drop 1 (seen self.old) }
    {
        discard(self.pop());
    }

    /// The place of a token that is neither an identifier nor a constant.
    pub fn place(&mut self) -> Place
        ensures value { result ≡ place_in (first (seen self.old)) }
        ensures rest { seen self.new ≡ drop 1 (seen self.old) }
    {
        match self.pop() {
            Phrase::Word(place) => place,
            other => {
                discard(other);
                FIRST
            }
        }
    }

    pub fn name(&mut self) -> Result<Name, Memory>
        ensures value { IfOk result (λ name. name_of name ≡ name_in (first (seen self.old))) }
        ensures rest { OnOk result (seen self.new ≡ drop 1 (seen self.old)) }
    {
        match self.pop() {
            Phrase::Name(name) => Ok(name),
            other => {
                discard(other);
                Ok(Name {
                    place: FIRST,
                    ident: Rc::new(self.alloc, Vec::new(self.alloc))?,
                })
            }
        }
    }

    pub fn long(&mut self) -> Result<LongIdent, Memory>
        ensures value { IfOk result (λ long. long_name_of long ≡ long_in (first (seen self.old))) }
        ensures rest { OnOk result (seen self.new ≡ drop 1 (seen self.old)) }
    {
        match self.pop() {
            Phrase::Long(long) => Ok(long),
            other => {
                discard(other);
                Ok(LongIdent {
                    place: FIRST,
                    path: Vec::new(self.alloc),
                    last: Rc::new(self.alloc, Vec::new(self.alloc))?,
                })
            }
        }
    }

    pub fn constant(&mut self) -> Result<Constant, Memory>
        ensures value { IfOk result (λ constant. constant_of constant ≡ constant_in (first (seen self.old))) }
        ensures rest { OnOk result (seen self.new ≡ drop 1 (seen self.old)) }
    {
        match self.pop() {
            Phrase::Constant(constant) => Ok(constant),
            other => {
                discard(other);
                Ok(Constant {
                    kind: ConstantKind::Integer,
                    literal: Rc::new(self.alloc, Vec::new(self.alloc))?,
                })
            }
        }
    }

    /// A numeral as a constant.
    pub fn numeral(&mut self) -> Result<Constant, Memory>
        ensures value { IfOk result (λ constant. constant_of constant ≡ numeral (name_in (first (seen self.old)))) }
        ensures rest { OnOk result (seen self.new ≡ drop 1 (seen self.old)) }
    {
        let name = self.name()?;
        Ok(Constant {
            kind: ConstantKind::Integer,
            literal: name.ident,
        })
    }

    pub fn names(&mut self) -> Vec<Name>
        ensures value { map name_of (reverse result.items) ≡ names_in (first (seen self.old)) }
        ensures rest { seen self.new ≡ drop 1 (seen self.old) }
    {
        match self.pop() {
            Phrase::Names(names) => names,
            other => {
                discard(other);
                Vec::new(self.alloc)
            }
        }
    }

    pub fn longs(&mut self) -> Vec<LongIdent>
        ensures value { map long_name_of (reverse result.items) ≡ longs_in (first (seen self.old)) }
        ensures rest { seen self.new ≡ drop 1 (seen self.old) }
    {
        match self.pop() {
            Phrase::Longs(longs) => longs,
            other => {
                discard(other);
                Vec::new(self.alloc)
            }
        }
    }

    pub fn ty(&mut self) -> LowTy
        ensures value { ty_of result.tree ≡ ty_in (first (seen self.old)) }
        ensures rest { seen self.new ≡ drop 1 (seen self.old) }
    {
        match self.pop() {
            Phrase::Types(TypePhrase::Ty(ty)) => ty,
            other => {
                discard(other);
                LowTy {
                    tree: Ty::Tuple(FIRST, Vec::new(self.alloc)),
                    height: 1,
                }
            }
        }
    }

    pub fn tys(&mut self) -> LowTys
        ensures value { tys_of (map (λ t. ty_of t.tree) (reverse result.trees.items)) ≡ tys_in (first (seen self.old)) }
        ensures rest { seen self.new ≡ drop 1 (seen self.old) }
    {
        match self.pop() {
            Phrase::Types(TypePhrase::Tys(tys)) => tys,
            other => {
                discard(other);
                LowTys {
                    trees: Vec::new(self.alloc),
                    height: 0,
                }
            }
        }
    }

    pub fn ty_fields(&mut self) -> LowTyFields
        ensures value { ty_fields_of (map ty_field_of (reverse result.trees.items)) ≡ ty_fields_in (first (seen self.old)) }
        ensures rest { seen self.new ≡ drop 1 (seen self.old) }
    {
        match self.pop() {
            Phrase::Types(TypePhrase::TyFields(ty_fields)) => ty_fields,
            other => {
                discard(other);
                LowTyFields {
                    trees: Vec::new(self.alloc),
                    height: 0,
                }
            }
        }
    }

    pub fn pat(&mut self) -> LowPat
        ensures value { pat_of result.tree ≡ pat_in (first (seen self.old)) }
        ensures rest { seen self.new ≡ drop 1 (seen self.old) }
    {
        match self.pop() {
            Phrase::Patterns(PatternPhrase::Pat(pat)) => pat,
            other => {
                discard(other);
                LowPat {
                    tree: Pat::Tuple(FIRST, Vec::new(self.alloc)),
                    height: 1,
                }
            }
        }
    }

    pub fn pats(&mut self) -> LowPats
        ensures value { pats_of (map (λ q. pat_of q.tree) (reverse result.trees.items)) ≡ pats_in (first (seen self.old)) }
        ensures rest { seen self.new ≡ drop 1 (seen self.old) }
    {
        match self.pop() {
            Phrase::Patterns(PatternPhrase::Pats(pats)) => pats,
            other => {
                discard(other);
                LowPats {
                    trees: Vec::new(self.alloc),
                    height: 0,
                }
            }
        }
    }

    pub fn exp(&mut self) -> LowExp
        ensures value { exp_of result.tree ≡ exp_in (first (seen self.old)) }
        ensures rest { seen self.new ≡ drop 1 (seen self.old) }
    {
        match self.pop() {
            Phrase::Expressions(ExpressionPhrase::Exp(exp)) => exp,
            other => {
                discard(other);
                LowExp {
                    tree: Exp::Tuple(FIRST, Vec::new(self.alloc)),
                    height: 1,
                }
            }
        }
    }

    pub fn exps(&mut self) -> LowExps
        ensures value { exps_of (map (λ e. exp_of e.tree) (reverse result.trees.items)) ≡ exps_in (first (seen self.old)) }
        ensures rest { seen self.new ≡ drop 1 (seen self.old) }
    {
        match self.pop() {
            Phrase::Expressions(ExpressionPhrase::Exps(exps)) => exps,
            other => {
                discard(other);
                LowExps {
                    trees: Vec::new(self.alloc),
                    height: 0,
                }
            }
        }
    }

    pub fn fields(&mut self) -> LowFields
        ensures value { fields_of (map field_of (reverse result.trees.items)) ≡ fields_in (first (seen self.old)) }
        ensures rest { seen self.new ≡ drop 1 (seen self.old) }
    {
        match self.pop() {
            Phrase::Expressions(ExpressionPhrase::Fields(fields)) => fields,
            other => {
                discard(other);
                LowFields {
                    trees: Vec::new(self.alloc),
                    height: 0,
                }
            }
        }
    }

    pub fn rules(&mut self) -> LowRules
        ensures value { rules_of (map rule_of (reverse result.trees.items)) ≡ rules_in (first (seen self.old)) }
        ensures rest { seen self.new ≡ drop 1 (seen self.old) }
    {
        match self.pop() {
            Phrase::Expressions(ExpressionPhrase::Rules(rules)) => rules,
            other => {
                discard(other);
                LowRules {
                    trees: Vec::new(self.alloc),
                    height: 0,
                }
            }
        }
    }

    pub fn dec(&mut self) -> LowDec
        ensures value { dec_of result.tree ≡ dec_in (first (seen self.old)) }
        ensures rest { seen self.new ≡ drop 1 (seen self.old) }
    {
        match self.pop() {
            Phrase::Declarations(DeclarationPhrase::Dec(dec)) => dec,
            other => {
                discard(other);
                LowDec {
                    tree: Dec::Fixity(FIRST),
                    height: 1,
                }
            }
        }
    }

    pub fn decs(&mut self) -> LowDecs
        ensures value { decs_of (map dec_of (reverse result.trees.items)) ≡ decs_in (first (seen self.old)) }
        ensures rest { seen self.new ≡ drop 1 (seen self.old) }
    {
        match self.pop() {
            Phrase::Declarations(DeclarationPhrase::Decs(decs)) => decs,
            other => {
                discard(other);
                LowDecs {
                    trees: Vec::new(self.alloc),
                    height: 0,
                }
            }
        }
    }

    pub fn bind(&mut self) -> LowBind
        ensures value { bind_of result.tree ≡ bind_in (first (seen self.old)) }
        ensures rest { seen self.new ≡ drop 1 (seen self.old) }
    {
        match self.pop() {
            Phrase::Declarations(DeclarationPhrase::Bind(bind)) => bind,
            other => {
                discard(other);
                LowBind {
                    tree: ValBind {
                        pat: Pat::Tuple(FIRST, Vec::new(self.alloc)),
                        exp: Exp::Tuple(FIRST, Vec::new(self.alloc)),
                    },
                    height: 1,
                }
            }
        }
    }

    pub fn binds(&mut self) -> LowBinds
        ensures value { binds_of (map bind_of (reverse result.trees.items)) ≡ binds_in (first (seen self.old)) }
        ensures rest { seen self.new ≡ drop 1 (seen self.old) }
    {
        match self.pop() {
            Phrase::Declarations(DeclarationPhrase::Binds(binds)) => binds,
            other => {
                discard(other);
                LowBinds {
                    trees: Vec::new(self.alloc),
                    height: 0,
                }
            }
        }
    }

    pub fn clauses(&mut self) -> LowClauses
        ensures value { map clause_of (reverse result.trees.items) ≡ clauses_in (first (seen self.old)) }
        ensures rest { seen self.new ≡ drop 1 (seen self.old) }
    {
        match self.pop() {
            Phrase::Declarations(DeclarationPhrase::Clauses(clauses)) => clauses,
            other => {
                discard(other);
                LowClauses {
                    trees: Vec::new(self.alloc),
                    height: 0,
                }
            }
        }
    }

    pub fn typ_binds(&mut self) -> LowTypBinds
        ensures value { map typ_bind_of (reverse result.trees.items) ≡ typ_binds_in (first (seen self.old)) }
        ensures rest { seen self.new ≡ drop 1 (seen self.old) }
    {
        match self.pop() {
            Phrase::Declarations(DeclarationPhrase::TypBinds(typ_binds)) => typ_binds,
            other => {
                discard(other);
                LowTypBinds {
                    trees: Vec::new(self.alloc),
                    height: 0,
                }
            }
        }
    }

    pub fn con_binds(&mut self) -> LowConBinds
        ensures value { map con_bind_of (reverse result.trees.items) ≡ con_binds_in (first (seen self.old)) }
        ensures rest { seen self.new ≡ drop 1 (seen self.old) }
    {
        match self.pop() {
            Phrase::Declarations(DeclarationPhrase::ConBinds(con_binds)) => con_binds,
            other => {
                discard(other);
                LowConBinds {
                    trees: Vec::new(self.alloc),
                    height: 0,
                }
            }
        }
    }

    pub fn exn_binds(&mut self) -> LowExnBinds
        ensures value { map exn_bind_of (reverse result.trees.items) ≡ exn_binds_in (first (seen self.old)) }
        ensures rest { seen self.new ≡ drop 1 (seen self.old) }
    {
        match self.pop() {
            Phrase::Declarations(DeclarationPhrase::ExnBinds(exn_binds)) => exn_binds,
            other => {
                discard(other);
                LowExnBinds {
                    trees: Vec::new(self.alloc),
                    height: 0,
                }
            }
        }
    }

    pub fn sig(&mut self) -> LowSig
        ensures value { sig_of result.tree ≡ sig_in (first (seen self.old)) }
        ensures rest { seen self.new ≡ drop 1 (seen self.old) }
    {
        match self.pop() {
            Phrase::Signatures(SignaturePhrase::Sig(sig)) => sig,
            other => {
                discard(other);
                LowSig {
                    tree: SigExp::Specs(FIRST, Vec::new(self.alloc)),
                    height: 1,
                }
            }
        }
    }

    pub fn wheres(&mut self) -> Vec<LowWhere>
        ensures value { map low_where_of (reverse result.items) ≡ wheres_in (first (seen self.old)) }
        ensures rest { seen self.new ≡ drop 1 (seen self.old) }
    {
        match self.pop() {
            Phrase::Signatures(SignaturePhrase::Wheres(wheres)) => wheres,
            other => {
                discard(other);
                Vec::new(self.alloc)
            }
        }
    }

    pub fn specs(&mut self) -> LowSpecs
        ensures value { specs_of (map spec_of (reverse result.trees.items)) ≡ specs_in (first (seen self.old)) }
        ensures rest { seen self.new ≡ drop 1 (seen self.old) }
    {
        match self.pop() {
            Phrase::Signatures(SignaturePhrase::Specs(specs)) => specs,
            other => {
                discard(other);
                LowSpecs {
                    trees: Vec::new(self.alloc),
                    height: 0,
                }
            }
        }
    }

    pub fn val_descs(&mut self) -> LowValDescs
        ensures value { map val_desc_of (reverse result.trees.items) ≡ val_descs_in (first (seen self.old)) }
        ensures rest { seen self.new ≡ drop 1 (seen self.old) }
    {
        match self.pop() {
            Phrase::Signatures(SignaturePhrase::ValDescs(val_descs)) => val_descs,
            other => {
                discard(other);
                LowValDescs {
                    trees: Vec::new(self.alloc),
                    height: 0,
                }
            }
        }
    }

    pub fn typ_descs(&mut self) -> Vec<TypDesc>
        ensures value { map typ_desc_of (reverse result.items) ≡ typ_descs_in (first (seen self.old)) }
        ensures rest { seen self.new ≡ drop 1 (seen self.old) }
    {
        match self.pop() {
            Phrase::Signatures(SignaturePhrase::TypDescs(typ_descs)) => typ_descs,
            other => {
                discard(other);
                Vec::new(self.alloc)
            }
        }
    }

    pub fn str(&mut self) -> LowStr
        ensures value { str_of result.tree ≡ str_in (first (seen self.old)) }
        ensures rest { seen self.new ≡ drop 1 (seen self.old) }
    {
        match self.pop() {
            Phrase::Structures(StructurePhrase::Str(str)) => str,
            other => {
                discard(other);
                LowStr {
                    tree: StrExp::Decs(FIRST, Vec::new(self.alloc)),
                    height: 1,
                }
            }
        }
    }

    pub fn str_dec(&mut self) -> LowStrDec
        ensures value { str_dec_of result.tree ≡ str_dec_in (first (seen self.old)) }
        ensures rest { seen self.new ≡ drop 1 (seen self.old) }
    {
        match self.pop() {
            Phrase::Structures(StructurePhrase::StrDec(str_dec)) => str_dec,
            other => {
                discard(other);
                LowStrDec {
                    tree: StrDec::Core(Dec::Fixity(FIRST)),
                    height: 1,
                }
            }
        }
    }

    pub fn str_decs(&mut self) -> LowStrDecs
        ensures value { str_decs_of (map str_dec_of (reverse result.trees.items)) ≡ str_decs_in (first (seen self.old)) }
        ensures rest { seen self.new ≡ drop 1 (seen self.old) }
    {
        match self.pop() {
            Phrase::Structures(StructurePhrase::StrDecs(str_decs)) => str_decs,
            other => {
                discard(other);
                LowStrDecs {
                    trees: Vec::new(self.alloc),
                    height: 0,
                }
            }
        }
    }

    pub fn top(&mut self) -> LowTop
        ensures value { top_of result.tree ≡ top_in (first (seen self.old)) }
        ensures rest { seen self.new ≡ drop 1 (seen self.old) }
    {
        match self.pop() {
            Phrase::Structures(StructurePhrase::Top(top)) => top,
            other => {
                discard(other);
                LowTop {
                    tree: TopDec::Structure(StrDec::Core(Dec::Fixity(FIRST))),
                    height: 1,
                }
            }
        }
    }

    pub fn ty_if_any(&mut self) -> Option<LowTy>
        ensures value { option_map (λ t. ty_of t.tree) result ≡ ty_if_any (first (seen self.old)) }
        ensures rest { seen self.new ≡ drop 1 (seen self.old) }
    {
        match self.pop() {
            Phrase::Types(TypePhrase::Ty(tree)) => Some(tree),
            other => {
                discard(other);
                None
            }
        }
    }

    pub fn pat_if_any(&mut self) -> Option<LowPat>
        ensures value { option_map (λ q. pat_of q.tree) result ≡ pat_if_any (first (seen self.old)) }
        ensures rest { seen self.new ≡ drop 1 (seen self.old) }
    {
        match self.pop() {
            Phrase::Patterns(PatternPhrase::Pat(tree)) => Some(tree),
            other => {
                discard(other);
                None
            }
        }
    }

    pub fn rules_if_any(&mut self) -> Option<LowRules>
        ensures value { option_map (λ rs. rules_of (map rule_of (reverse rs.trees.items))) result ≡ rules_if_any (first (seen self.old)) }
        ensures rest { seen self.new ≡ drop 1 (seen self.old) }
    {
        match self.pop() {
            Phrase::Expressions(ExpressionPhrase::Rules(rules)) => Some(rules),
            other => {
                discard(other);
                None
            }
        }
    }

    pub fn exp_if_any(&mut self) -> Option<LowExp>
        ensures value { option_map (λ e. exp_of e.tree) result ≡ exp_if_any (first (seen self.old)) }
        ensures rest { seen self.new ≡ drop 1 (seen self.old) }
    {
        match self.pop() {
            Phrase::Expressions(ExpressionPhrase::Exp(tree)) => Some(tree),
            other => {
                discard(other);
                None
            }
        }
    }
}
