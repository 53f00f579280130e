//! What the rules put on the stack: any phrase, and the most frequent ones made where they are to stand.

ghost use Rattle.std.specs.Prelude.{map, reverse};
ghost use Rattle.std.specs.Option.{option_map};
ghost use Rattle.sml_tree.specs.TypeViews.{name_of, long_name_of, ty_of, tys_of};
ghost use Rattle.sml_tree.specs.PatternViews.{constant_of, pat_of, pats_of};
ghost use Rattle.sml_tree.specs.BindingViews.{typ_bind_of, con_bind_of, dat_bind_of};
ghost use Rattle.sml_tree.specs.ExpressionViews.{exp_of, exps_of, dec_of, bind_of, binds_of};
ghost use Rattle.sml_tree.specs.SignatureViews.{sig_of, spec_of, specs_of};
ghost use Rattle.sml_tree.specs.StructureViews.{str_of, str_bind_of, str_binds_of, fun_bind_of};
ghost use Rattle.sml_tree.specs.Clauses.{clause_of};
ghost use Rattle.sml_phrases.specs.Phrases.{at, first, nothing, of_word, of_name, of_long, of_constant, of_names, of_longs, of_ty, of_tys, of_pat, of_pats, of_atoms, of_layer, of_op_layer, of_exp, of_exps, of_dec, of_values, of_round_values, of_functions, of_right_side, of_round_functions, of_con_binds, of_datatypes, of_sig, of_where, of_specs, of_str, of_constraints, of_str_binds, of_fun_binds, of_begun_fun_bind};
ghost use Rattle.sml_phrases.specs.PhraseViews.{Puts, low_constraint_of, low_where_of, phrase_of, rest_of, seen};

use crate::low::{
    LowBinds, LowClauses, LowConBinds, LowConstraint, LowDatBinds, LowDec, LowExp, LowExps,
    LowFunBinds, LowPat, LowPats, LowSig, LowSpecs, LowStr, LowStrBinds, LowTy, LowTypBinds,
    LowTys, LowWhere,
};
use crate::phrase::{
    DeclarationPhrase, ExpressionPhrase, Failure, Layer, PatternPhrase, Phrase, Rest, RightSide,
    RoundValues, SignaturePhrase, StructurePhrase, TypePhrase,
};
use crate::stack::Stack;
use sml_lex::fault::Place;
use sml_tree::bare::LongIdent;
use sml_tree::names::Name;
use sml_tree::patterns::Constant;

impl Stack {
    /// Leaves the phrase on top where it is.
    pub fn put_first(&mut self) -> Result<(), Failure>
        ensures { Puts (first (seen self.old)) 1 (seen self.old) (seen self.new) result }
    {
        if self.is_empty() {
            return self.put_nothing();
        }
        Ok(())
    }

    /// Takes the word on top off, and leaves the phrase below it where it is.
    pub fn put_after_word(&mut self) -> Result<(), Failure>
        ensures { Puts (at (seen self.old) 1) 2 (seen self.old) (seen self.new) result }
    {
        self.skip();
        self.put_first()
    }

    /// Puts a phrase on top.
    pub fn put(&mut self, phrase: Phrase) -> Result<(), Failure>
        ensures { Puts (phrase_of phrase) 0 (seen self.old) (seen self.new) result }
    {
        self.push(phrase)?;
        Ok(())
    }

    pub fn put_nothing(&mut self) -> Result<(), Failure>
        ensures { Puts nothing 0 (seen self.old) (seen self.new) result }
    {
        self.push_nothing()?;
        Ok(())
    }

    pub fn put_word(&mut self, place: Place) -> Result<(), Failure>
        ensures { Puts (of_word place) 0 (seen self.old) (seen self.new) result }
    {
        self.make_room()?;
        self.add(Phrase::Word(place));
        Ok(())
    }

    pub fn put_name(&mut self, name: Name) -> Result<(), Failure>
        ensures { Puts (of_name (name_of name)) 0 (seen self.old) (seen self.new) result }
    {
        self.make_room()?;
        self.add(Phrase::Name(name));
        Ok(())
    }

    pub fn put_long(&mut self, long: LongIdent) -> Result<(), Failure>
        ensures { Puts (of_long (long_name_of long)) 0 (seen self.old) (seen self.new) result }
    {
        self.make_room()?;
        self.add(Phrase::Long(long));
        Ok(())
    }

    pub fn put_constant(&mut self, constant: Constant) -> Result<(), Failure>
        ensures { Puts (of_constant (constant_of constant)) 0 (seen self.old) (seen self.new) result }
    {
        self.make_room()?;
        self.add(Phrase::Constant(constant));
        Ok(())
    }

    pub fn put_names(&mut self, names: Vec<Name>) -> Result<(), Failure>
        ensures { Puts (of_names (map name_of (reverse names.items))) 0 (seen self.old) (seen self.new) result }
    {
        self.make_room()?;
        self.add(Phrase::Names(names));
        Ok(())
    }

    pub fn put_longs(&mut self, longs: Vec<LongIdent>) -> Result<(), Failure>
        ensures { Puts (of_longs (map long_name_of (reverse longs.items))) 0 (seen self.old) (seen self.new) result }
    {
        self.make_room()?;
        self.add(Phrase::Longs(longs));
        Ok(())
    }

    pub fn put_ty(&mut self, ty: LowTy) -> Result<(), Failure>
        ensures { Puts (of_ty (ty_of ty.tree)) 0 (seen self.old) (seen self.new) result }
    {
        self.make_room()?;
        self.add(Phrase::Types(TypePhrase::Ty(ty)));
        Ok(())
    }

    pub fn put_tys(&mut self, tys: LowTys) -> Result<(), Failure>
        ensures { Puts (of_tys (tys_of (map (λ t. ty_of t.tree) (reverse tys.trees.items)))) 0 (seen self.old) (seen self.new) result }
    {
        self.make_room()?;
        self.add(Phrase::Types(TypePhrase::Tys(tys)));
        Ok(())
    }

    pub fn put_pat(&mut self, pat: LowPat) -> Result<(), Failure>
        ensures { Puts (of_pat (pat_of pat.tree)) 0 (seen self.old) (seen self.new) result }
    {
        self.make_room()?;
        self.add(Phrase::Patterns(PatternPhrase::Pat(pat)));
        Ok(())
    }

    pub fn put_pats(&mut self, pats: LowPats) -> Result<(), Failure>
        ensures { Puts (of_pats (pats_of (map (λ q. pat_of q.tree) (reverse pats.trees.items)))) 0 (seen self.old) (seen self.new) result }
    {
        self.make_room()?;
        self.add(Phrase::Patterns(PatternPhrase::Pats(pats)));
        Ok(())
    }

    pub fn put_atoms(&mut self, atoms: LowPats, tys: LowTys) -> Result<(), Failure>
        ensures { Puts (of_atoms (pats_of (map (λ q. pat_of q.tree) (reverse atoms.trees.items))) (tys_of (map (λ t. ty_of t.tree) (reverse tys.trees.items)))) 0 (seen self.old) (seen self.new) result }
    {
        self.make_room()?;
        self.add(Phrase::Patterns(PatternPhrase::Atoms(atoms, tys)));
        Ok(())
    }

    pub fn put_layer(&mut self, ty: Option<LowTy>, pat: Option<LowPat>) -> Result<(), Failure>
        ensures { Puts (of_layer (option_map (λ t. ty_of t.tree) ty) (option_map (λ q. pat_of q.tree) pat)) 0 (seen self.old) (seen self.new) result }
    {
        let layer = Box::new(self.alloc, Layer { ty, pat })?;
        self.put(Phrase::Patterns(PatternPhrase::Layer(layer)))
    }

    pub fn put_op_layer(
        &mut self,
        name: Name,
        ty: Option<LowTy>,
        pat: Option<LowPat>,
    ) -> Result<(), Failure>
        ensures { Puts (of_op_layer (name_of name) (option_map (λ t. ty_of t.tree) ty) (option_map (λ q. pat_of q.tree) pat)) 0 (seen self.old) (seen self.new) result }
    {
        let layer = Box::new(self.alloc, Layer { ty, pat })?;
        self.put(Phrase::Patterns(PatternPhrase::OpLayer(name, layer)))
    }

    pub fn put_exp(&mut self, exp: LowExp) -> Result<(), Failure>
        ensures { Puts (of_exp (exp_of exp.tree)) 0 (seen self.old) (seen self.new) result }
    {
        self.make_room()?;
        self.add(Phrase::Expressions(ExpressionPhrase::Exp(exp)));
        Ok(())
    }

    pub fn put_exps(&mut self, exps: LowExps) -> Result<(), Failure>
        ensures { Puts (of_exps (exps_of (map (λ e. exp_of e.tree) (reverse exps.trees.items)))) 0 (seen self.old) (seen self.new) result }
    {
        self.make_room()?;
        self.add(Phrase::Expressions(ExpressionPhrase::Exps(exps)));
        Ok(())
    }

    pub fn put_rest(&mut self, rest: Box<Rest>) -> Result<(), Failure>
        ensures { Puts (rest_of rest.value) 0 (seen self.old) (seen self.new) result }
    {
        self.make_room()?;
        self.add(Phrase::Expressions(ExpressionPhrase::Rest(rest)));
        Ok(())
    }

    pub fn put_dec(&mut self, dec: LowDec) -> Result<(), Failure>
        ensures { Puts (of_dec (dec_of dec.tree)) 0 (seen self.old) (seen self.new) result }
    {
        self.make_room()?;
        self.add(Phrase::Declarations(DeclarationPhrase::Dec(dec)));
        Ok(())
    }

    pub fn put_values(
        &mut self,
        variables: Vec<Name>,
        plain: LowBinds,
        recursive: LowBinds,
    ) -> Result<(), Failure>
        ensures { Puts (of_values (map name_of (reverse variables.items)) (binds_of (map bind_of (reverse plain.trees.items))) (binds_of (map bind_of (reverse recursive.trees.items)))) 0 (seen self.old) (seen self.new) result }
    {
        self.make_room()?;
        self.add(Phrase::Declarations(DeclarationPhrase::Values(variables, plain, recursive)));
        Ok(())
    }

    pub fn put_round_values(
        &mut self,
        inner: LowPats,
        pats: LowPats,
        tys: LowTys,
        exp: LowExp,
        plain: LowBinds,
        recursive: LowBinds,
    ) -> Result<(), Failure>
        ensures { Puts (of_round_values (pats_of (map (λ q. pat_of q.tree) (reverse inner.trees.items))) (pats_of (map (λ q. pat_of q.tree) (reverse pats.trees.items))) (tys_of (map (λ t. ty_of t.tree) (reverse tys.trees.items))) (exp_of exp.tree) (binds_of (map bind_of (reverse plain.trees.items))) (binds_of (map bind_of (reverse recursive.trees.items)))) 0 (seen self.old) (seen self.new) result }
    {
        let values = RoundValues {
            inner,
            pats,
            tys,
            exp,
            plain,
            recursive,
        };
        let values = Box::new(self.alloc, values)?;
        self.put(Phrase::Declarations(DeclarationPhrase::RoundValues(values)))
    }

    pub fn put_functions(&mut self, variables: Vec<Name>, binds: LowBinds) -> Result<(), Failure>
        ensures { Puts (of_functions (map name_of (reverse variables.items)) (binds_of (map bind_of (reverse binds.trees.items)))) 0 (seen self.old) (seen self.new) result }
    {
        self.make_room()?;
        self.add(Phrase::Declarations(DeclarationPhrase::Functions(variables, binds)));
        Ok(())
    }

    pub fn put_right_side(
        &mut self,
        pats: LowPats,
        ty: Option<LowTy>,
        body: LowExp,
    ) -> Result<(), Failure>
        ensures { Puts (of_right_side (pats_of (map (λ q. pat_of q.tree) (reverse pats.trees.items))) (option_map (λ t. ty_of t.tree) ty) (exp_of body.tree)) 0 (seen self.old) (seen self.new) result }
    {
        let right = RightSide {
            pats,
            result: ty,
            body,
        };
        let right = Box::new(self.alloc, right)?;
        self.put(Phrase::Declarations(DeclarationPhrase::RightSide(right)))
    }

    pub fn put_round_functions(
        &mut self,
        inner: LowPats,
        right: RightSide,
        clauses: LowClauses,
        binds: LowBinds,
    ) -> Result<(), Failure>
        ensures { Puts (of_round_functions (pats_of (map (λ q. pat_of q.tree) (reverse inner.trees.items))) (pats_of (map (λ q. pat_of q.tree) (reverse right.pats.trees.items))) (option_map (λ t. ty_of t.tree) right.result) (exp_of right.body.tree) (map clause_of (reverse clauses.trees.items)) (binds_of (map bind_of (reverse binds.trees.items)))) 0 (seen self.old) (seen self.new) result }
    {
        let right = Box::new(self.alloc, right)?;
        self.put(Phrase::Declarations(DeclarationPhrase::RoundFunctions(
            inner, right, clauses, binds,
        )))
    }

    pub fn put_con_binds(&mut self, binds: LowConBinds) -> Result<(), Failure>
        ensures { Puts (of_con_binds (map con_bind_of (reverse binds.trees.items))) 0 (seen self.old) (seen self.new) result }
    {
        self.make_room()?;
        self.add(Phrase::Declarations(DeclarationPhrase::ConBinds(binds)));
        Ok(())
    }

    pub fn put_datatypes(
        &mut self,
        datatypes: LowDatBinds,
        types: LowTypBinds,
    ) -> Result<(), Failure>
        ensures { Puts (of_datatypes (map dat_bind_of (reverse datatypes.trees.items)) (map typ_bind_of (reverse types.trees.items))) 0 (seen self.old) (seen self.new) result }
    {
        self.make_room()?;
        self.add(Phrase::Declarations(DeclarationPhrase::Datatypes(datatypes, types)));
        Ok(())
    }

    pub fn put_sig(&mut self, signature: LowSig) -> Result<(), Failure>
        ensures { Puts (of_sig (sig_of signature.tree)) 0 (seen self.old) (seen self.new) result }
    {
        self.make_room()?;
        self.add(Phrase::Signatures(SignaturePhrase::Sig(signature)));
        Ok(())
    }

    pub fn put_where(
        &mut self,
        variables: Vec<Name>,
        constructor: LongIdent,
        ty: LowTy,
    ) -> Result<(), Failure>
        ensures { Puts (of_where (map name_of (reverse variables.items)) (long_name_of constructor) (ty_of ty.tree)) 0 (seen self.old) (seen self.new) result }
    {
        let ty = Box::new(self.alloc, ty)?;
        self.put(Phrase::Signatures(SignaturePhrase::Where(variables, constructor, ty)))
    }

    pub fn put_specs(&mut self, specs: LowSpecs) -> Result<(), Failure>
        ensures { Puts (of_specs (specs_of (map spec_of (reverse specs.trees.items)))) 0 (seen self.old) (seen self.new) result }
    {
        self.make_room()?;
        self.add(Phrase::Signatures(SignaturePhrase::Specs(specs)));
        Ok(())
    }

    pub fn put_str(&mut self, structure: LowStr) -> Result<(), Failure>
        ensures { Puts (of_str (str_of structure.tree)) 0 (seen self.old) (seen self.new) result }
    {
        self.make_room()?;
        self.add(Phrase::Structures(StructurePhrase::Str(structure)));
        Ok(())
    }

    pub fn put_constraints(
        &mut self,
        equations: Vec<LowWhere>,
        constraints: Vec<LowConstraint>,
    ) -> Result<(), Failure>
        ensures { Puts (of_constraints (map low_where_of (reverse equations.items)) (map low_constraint_of (reverse constraints.items))) 0 (seen self.old) (seen self.new) result }
    {
        self.make_room()?;
        self.add(Phrase::Structures(StructurePhrase::Constraints(equations, constraints)));
        Ok(())
    }

    pub fn put_str_binds(
        &mut self,
        equations: Vec<LowWhere>,
        constraints: Vec<LowConstraint>,
        binds: LowStrBinds,
    ) -> Result<(), Failure>
        ensures { Puts (of_str_binds (map low_where_of (reverse equations.items)) (map low_constraint_of (reverse constraints.items)) (str_binds_of (map str_bind_of (reverse binds.trees.items)))) 0 (seen self.old) (seen self.new) result }
    {
        self.make_room()?;
        self.add(Phrase::Structures(StructurePhrase::StrBinds(equations, constraints, binds)));
        Ok(())
    }

    pub fn put_fun_binds(
        &mut self,
        equations: Vec<LowWhere>,
        constraints: Vec<LowConstraint>,
        binds: LowFunBinds,
    ) -> Result<(), Failure>
        ensures { Puts (of_fun_binds (map low_where_of (reverse equations.items)) (map low_constraint_of (reverse constraints.items)) (map fun_bind_of (reverse binds.trees.items))) 0 (seen self.old) (seen self.new) result }
    {
        self.make_room()?;
        self.add(Phrase::Structures(StructurePhrase::FunBinds(equations, constraints, binds)));
        Ok(())
    }

    pub fn put_begun_fun_bind(
        &mut self,
        name: Name,
        argument: Name,
        signature: LowSig,
        own: Vec<LowConstraint>,
        body: LowStr,
    ) -> Result<(), Failure>
        ensures { Puts (of_begun_fun_bind (name_of name) (name_of argument) (sig_of signature.tree) (map low_constraint_of (reverse own.items)) (str_of body.tree)) 0 (seen self.old) (seen self.new) result }
    {
        let signature = Box::new(self.alloc, signature)?;
        self.put(Phrase::Structures(StructurePhrase::BegunFunBind(
            name, argument, signature, own, body,
        )))
    }
}
