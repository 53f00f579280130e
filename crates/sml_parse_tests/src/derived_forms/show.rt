//! Bare trees as text: the column of each phrase, and then its form. Forms that no derived form makes are not shown.

use sml_lex::fault::{Memory, Place};
use sml_lex::lexer::lex;
use sml_parse::parse::parse;
use sml_tree::bare::{Ident, LongIdent};
use sml_tree::expressions::{DatBind, Dec, Exp, Rule, TypBind, ValBind};
use sml_tree::patterns::Pat;
use sml_tree::signatures::{SigExp, Spec, WhereType};
use sml_tree::structures::{Ascription, FunBind, StrDec, StrExp, TopDec};
use sml_tree::types::Ty;
use std::alloc::Global;
use std::fmt::Write;
use std::process::Abort;
use std::test::Fail;

/// A text that grows, and whether all of it was put.
#[derive(Drop)]
pub struct Shown {
    text: String,
    is_whole: bool,
}

impl Shown {
    pub fn new(alloc: Global) -> Shown {
        Shown {
            text: String::new(alloc),
            is_whole: true,
        }
    }

    /// The text, unless memory was refused.
    pub fn whole(self) -> Result<String, Memory> {
        if !self.is_whole {
            return Err(Memory);
        }
        Ok(self.text)
    }

    fn put(&mut self, text: &str) {
        if self.text.push_str(text).is_err() {
            self.is_whole = false;
        }
    }

    fn place(&mut self, place: Place) {
        let column = place.column;
        if write!(self.text, "{column}").is_err() {
            self.is_whole = false;
        }
    }

    fn ident(&mut self, ident: &Ident) {
        for byte in ident.as_slice() {
            if self.text.push(char::from(*byte)).is_err() {
                self.is_whole = false;
            }
        }
    }

    /// An identifier, with its own column where that isn't the phrase's.
    fn long(&mut self, phrase: Place, long: &LongIdent) {
        if long.place.column != phrase.column {
            self.put("@");
            self.place(long.place);
        }
        for ident in &long.path {
            self.ident(ident);
            self.put(".");
        }
        self.ident(&long.last)
    }
}

#[cycle(show_ty)]
fn show_ty(shown: &mut Shown, ty: &Ty) {
    match ty {
        Ty::Variable(place, variable) => {
            shown.place(*place);
            shown.ident(variable)
        }
        Ty::Tuple(place, tys) => {
            shown.place(*place);
            show_tys(shown, tys)
        }
        Ty::Constructor(place, tys, long) => {
            shown.place(*place);
            show_tys(shown, tys);
            shown.long(*place, long)
        }
        Ty::Misapplied(place, tys, long) => {
            shown.place(*place);
            shown.put("!");
            show_tys(shown, tys);
            shown.long(*place, long)
        }
        Ty::Arrow(place, from, to) => {
            shown.place(*place);
            shown.put("<");
            show_ty(shown, from);
            shown.put("->");
            show_ty(shown, to);
            shown.put(">")
        }
        _ => shown.put("?"),
    }
}

#[cycle(show_ty)]
fn show_tys(shown: &mut Shown, tys: &[Ty]) {
    shown.put("(");
    for ty in tys {
        show_ty(shown, ty);
        shown.put(",");
    }
    shown.put(")")
}

pub fn show_pat(shown: &mut Shown, pat: &Pat) {
    match pat {
        Pat::Wildcard(place) => {
            shown.place(*place);
            shown.put("_")
        }
        Pat::Identifier(place, long) => {
            shown.place(*place);
            shown.long(*place, long)
        }
        Pat::Row(place, fields, flexible) => {
            shown.place(*place);
            shown.put("{");
            for field in fields {
                shown.ident(&field.label.ident);
                shown.put("=");
                show_pat(shown, &field.pat);
                shown.put(",");
            }
            shown.put(if *flexible { "...}" } else { "}" })
        }
        Pat::Tuple(place, pats) => {
            shown.place(*place);
            shown.put("(");
            for pat in pats {
                show_pat(shown, pat);
                shown.put(",");
            }
            shown.put(")")
        }
        Pat::Applied(place, long, pat) => {
            shown.place(*place);
            shown.put("<");
            shown.long(*place, long);
            shown.put(" ");
            show_pat(shown, pat);
            shown.put(">")
        }
        Pat::Typed(place, pat, ty) => {
            shown.place(*place);
            show_pat(shown, pat);
            shown.put(":");
            show_ty(shown, ty)
        }
        Pat::As(place, name, ty, pat) => {
            shown.place(*place);
            shown.ident(&name.ident);
            if let Some(ty) = ty {
                shown.put(":");
                show_ty(shown, ty);
            }
            shown.put(" as ");
            show_pat(shown, pat)
        }
        _ => shown.put("?"),
    }
}

#[cycle(show_exp)]
fn show_exp(shown: &mut Shown, exp: &Exp) {
    match exp {
        Exp::Identifier(place, long) => {
            shown.place(*place);
            shown.long(*place, long)
        }
        Exp::Tuple(place, exps) => {
            shown.place(*place);
            shown.put("(");
            for exp in exps {
                show_exp(shown, exp);
                shown.put(",");
            }
            shown.put(")")
        }
        Exp::Let(place, decs, exp) => {
            shown.place(*place);
            shown.put("let ");
            for dec in decs {
                show_dec(shown, dec);
            }
            shown.put("in ");
            show_exp(shown, exp)
        }
        Exp::Bracket(place, exp) => {
            shown.place(*place);
            shown.put("[");
            show_exp(shown, exp);
            shown.put("]")
        }
        Exp::Application(place, function, argument) => {
            shown.place(*place);
            shown.put("<");
            show_exp(shown, function);
            shown.put(" ");
            show_exp(shown, argument);
            shown.put(">")
        }
        Exp::Typed(place, exp, ty) => {
            shown.place(*place);
            show_exp(shown, exp);
            shown.put(":");
            show_ty(shown, ty)
        }
        Exp::Function(place, rules) => {
            shown.place(*place);
            shown.put("fn");
            show_rules(shown, rules)
        }
        _ => shown.put("?"),
    }
}

#[cycle(show_exp)]
fn show_rules(shown: &mut Shown, rules: &[Rule]) {
    for rule in rules {
        shown.put("|");
        shown.place(rule.place);
        shown.put(" ");
        show_pat(shown, &rule.pat);
        shown.put("=>");
        show_exp(shown, &rule.exp);
    }
}

#[cycle(show_exp)]
fn show_bind(shown: &mut Shown, bind: &ValBind) {
    show_pat(shown, &bind.pat);
    shown.put("=");
    show_exp(shown, &bind.exp)
}

#[cycle(show_exp)]
pub fn show_dec(shown: &mut Shown, dec: &Dec) {
    match dec {
        Dec::Value(place, _, binds, recursive) => {
            shown.place(*place);
            shown.put("val ");
            for bind in binds {
                show_bind(shown, bind);
                shown.put("; ");
            }
            for bind in recursive {
                shown.put("rec ");
                show_bind(shown, bind);
                shown.put("; ");
            }
        }
        Dec::Type(place, binds) => {
            shown.place(*place);
            shown.put("type ");
            for bind in binds {
                show_typ_bind(shown, bind);
            }
        }
        Dec::Datatype(place, binds) => {
            shown.place(*place);
            shown.put("datatype ");
            for bind in binds {
                show_dat_bind(shown, bind);
            }
        }
        Dec::Sequence(place, decs) => {
            shown.place(*place);
            shown.put("{");
            for dec in decs {
                show_dec(shown, dec);
            }
            shown.put("}")
        }
        Dec::Open(place, longs) => {
            shown.place(*place);
            shown.put("open");
            for long in longs {
                shown.put(" ");
                shown.long(*place, long);
            }
            shown.put("; ")
        }
        _ => shown.put("?"),
    }
}

fn show_typ_bind(shown: &mut Shown, bind: &TypBind) {
    for variable in &bind.variables {
        shown.ident(&variable.ident);
        shown.put(" ");
    }
    shown.ident(&bind.name.ident);
    shown.put("=");
    show_ty(shown, &bind.ty);
    shown.put("; ")
}

fn show_dat_bind(shown: &mut Shown, bind: &DatBind) {
    shown.ident(&bind.name.ident);
    for constructor in &bind.constructors {
        shown.put("|");
        shown.ident(&constructor.name.ident);
        if let Some(ty) = &constructor.argument {
            shown.put(" of ");
            show_ty(shown, ty);
        }
    }
    shown.put("; ");
}

fn show_equation(shown: &mut Shown, equation: &WhereType) {
    shown.put(" where ");
    for variable in &equation.variables {
        shown.ident(&variable.ident);
        shown.put(" ");
    }
    shown.long(equation.constructor.place, &equation.constructor);
    shown.put("=");
    show_ty(shown, &equation.ty)
}

#[cycle(show_sig)]
pub fn show_sig(shown: &mut Shown, signature: &SigExp) {
    match signature {
        SigExp::Specs(place, specs) => {
            shown.place(*place);
            shown.put("sig ");
            for spec in specs {
                show_spec(shown, spec);
            }
            shown.put("end")
        }
        SigExp::Identifier(place, ident) => {
            shown.place(*place);
            shown.ident(ident)
        }
        SigExp::WhereType(place, signature, equation) => {
            shown.place(*place);
            show_sig(shown, signature);
            show_equation(shown, equation)
        }
    }
}

#[cycle(show_sig)]
fn show_spec(shown: &mut Shown, spec: &Spec) {
    match spec {
        Spec::Type(place, descs) => {
            shown.place(*place);
            shown.put("type ");
            for desc in descs {
                for variable in &desc.variables {
                    shown.ident(&variable.ident);
                    shown.put(" ");
                }
                shown.ident(&desc.name.ident);
                shown.put("; ");
            }
        }
        Spec::Include(place, signature) => {
            shown.place(*place);
            shown.put("include ");
            show_sig(shown, signature);
            shown.put("; ")
        }
        _ => shown.put("?"),
    }
}

#[cycle(show_str)]
pub fn show_str(shown: &mut Shown, structure: &StrExp) {
    match structure {
        StrExp::Decs(place, decs) => {
            shown.place(*place);
            shown.put("struct ");
            for dec in decs {
                show_str_dec(shown, dec);
            }
            shown.put("end")
        }
        StrExp::Identifier(long) => shown.long(long.place, long),
        StrExp::Ascribed(place, structure, ascription, signature) => {
            shown.place(*place);
            show_str(shown, structure);
            shown.put(match ascription {
                Ascription::Transparent => ":",
                Ascription::Opaque => ":>",
            });
            show_sig(shown, signature)
        }
        StrExp::Application(functor, argument) => {
            shown.place(functor.place);
            shown.ident(&functor.ident);
            shown.put("(");
            show_str(shown, argument);
            shown.put(")")
        }
        StrExp::Let(place, decs, structure) => {
            shown.place(*place);
            shown.put("let ");
            for dec in decs {
                show_str_dec(shown, dec);
            }
            shown.put("in ");
            show_str(shown, structure)
        }
    }
}

#[cycle(show_str)]
fn show_str_dec(shown: &mut Shown, dec: &StrDec) {
    match dec {
        StrDec::Core(dec) => show_dec(shown, dec),
        StrDec::Structure(place, binds) => {
            shown.place(*place);
            shown.put("structure ");
            for bind in binds {
                shown.ident(&bind.name.ident);
                shown.put("=");
                show_str(shown, &bind.body);
                shown.put("; ");
            }
        }
        StrDec::Local(_, _, _) => shown.put("?"),
    }
}

fn show_top(shown: &mut Shown, top: &TopDec) {
    match top {
        TopDec::Structure(dec) => show_str_dec(shown, dec),
        TopDec::Signature(place, binds) => {
            shown.place(*place);
            shown.put("signature ");
            for bind in binds {
                shown.ident(&bind.name.ident);
                shown.put("=");
                show_sig(shown, &bind.signature);
                shown.put("; ");
            }
        }
        TopDec::Functor(place, binds) => {
            shown.place(*place);
            shown.put("functor ");
            for bind in binds {
                show_fun_bind(shown, bind);
            }
        }
    }
}

fn show_fun_bind(shown: &mut Shown, bind: &FunBind) {
    shown.ident(&bind.name.ident);
    shown.put("(");
    shown.ident(&bind.argument.ident);
    shown.put(":");
    show_sig(shown, &bind.signature);
    shown.put(")=");
    show_str(shown, &bind.body);
    shown.put("; ");
}

/// The whole declarations of a unit, as text.
fn shown_of(alloc: Global, unit: &[u8]) -> Result<String, Memory> {
    let parsed = parse(alloc, &lex(alloc, unit)?)?;
    let mut shown = Shown::new(alloc);
    for top in &parsed.declarations {
        show_top(&mut shown, top);
    }
    shown.whole()
}

/// Units, each with its whole declarations.
pub fn expect_all(rt: &(impl Abort + AllocGlobal), rows: &[(&str, &str)]) -> Result<(), Fail> {
    for (unit, expected) in rows {
        let text = shown_of(rt.alloc(), unit.as_bytes())?;
        assert_eq!(rt; text.as_str(), *expected, "{unit}");
    }
    Ok(())
}
