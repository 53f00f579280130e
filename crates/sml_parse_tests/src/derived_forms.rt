//! Each derived form with its bare tree as text, worked out by hand from the table of derived forms (the Definition,
//! appendix A). A hidden variable is shown as it is: a space, then its number. A form that stands on a line of its own
//! has its columns there. The forms that the parser doesn't make by a call of their own are made by the calls too.

pub mod show;

use show::{Shown, expect_all, show_dec, show_pat, show_sig, show_str};
use sml_derived::expander::Expander;
use sml_derived::laws::{hidden_differ, no_source_spells_hidden};
use sml_lex::fault::{Memory, Place};
use sml_lex::lexer::lex;
use sml_parse::parse::parse;
use sml_tree::bare::{Ident, LongIdent};
use sml_tree::expressions::Dec;
use sml_tree::names::Name;
use sml_tree::patterns::Pat;
use sml_tree::signatures::{SigExp, WhereType};
use sml_tree::structures::{Ascription, FunBind, StrDec, StrExp, TopDec};
use sml_tree::types::Ty;
use sml_tree::withtype::WithTypes;
use std::alloc::Global;
use std::process::Abort;
use std::rc::Rc;
use std::test::Fail;

#[test]
fn laws_run() {
    no_source_spells_hidden();
    hidden_differ();
}

#[test]
fn expressions(rt: HostRuntime) -> Result<(), Fail> {
    expect_all(
        &rt,
        &[
            ("()", "1val 1it=1(); "),
            ("#l", "1val 1it=1fn|1 1{l=1 0,...}=>1 0; "),
            ("case e of x => y", "1val 1it=1<1[1fn|11 11x=>16y] 6e>; "),
            (
                "if e then a else b",
                "1val 1it=1<1[1fn|1 1true=>11a|1 1false=>18b] 4e>; ",
            ),
            (
                "a orelse b",
                "1val 1it=1<1[1fn|1 1true=>1true|1 1false=>10b] 1a>; ",
            ),
            (
                "a andalso b",
                "1val 1it=1<1[1fn|1 1true=>11b|1 1false=>1false] 1a>; ",
            ),
            ("(a; b)", "1val 1it=1<1[1fn|1 1_=>5b] 2a>; "),
            (
                "while a do b",
                "1val 1it=1let 1val rec 1 0=1fn|1 1()=>1<1[1fn|1 1true=>1<1[1fn|1 1_=>1<1 0 1()>] 12b>|1 1false=>1()] 7a>; in 1<1 0 1()>; ",
            ),
            ("[a, b]", "1val 1it=1<1:: 1(2a,1<1:: 1(5b,1nil,)>,)>; "),
            ("val x =\na + b", "1val 5x=1<3+ 1(1a,5b,)>; "),
            ("a + b", "1val 1it=1<3+ 1(1a,5b,)>; "),
        ],
    )
}

#[test]
fn patterns(rt: HostRuntime) -> Result<(), Fail> {
    expect_all(
        &rt,
        &[
            (
                "val\n[a, b] = x",
                "1val 1<:: 1(2a,1<:: 1(5b,1nil,)>,)>=10x; ",
            ),
            ("val\na + () = x", "1val 1<@3+ 1(1a,5(),)>=10x; "),
            ("val\n{x} = y", "1val 1{x=2x,}=7y; "),
            ("val\n{x : t} = y", "1val 1{x=22x:6()t,}=11y; "),
            ("val\n{x as p} = y", "1val 1{x=2x as 7p,}=12y; "),
            ("val\n{x : t as p} = y", "1val 1{x=2x:6()t as 11p,}=16y; "),
        ],
    )
}

#[test]
fn functions(rt: HostRuntime) -> Result<(), Fail> {
    expect_all(
        &rt,
        &[
            (
                "fun f p = a\n    | f q = b",
                "1val rec 5f=5fn|5 5 1=>5<5[5fn|5 7p=>11a|7 9q=>13b] 5 1>; ",
            ),
            (
                "fun f p q : t = a | f r s = b",
                "1val rec 5f=5fn|5 5 1=>5fn|5 5 2=>5<5[5fn|5 5(7p,9q,)=>517a:13()t|21 21(23r,25s,)=>29b] 5(5 1,5 2,)>; ",
            ),
        ],
    )
}

#[test]
fn modules(rt: HostRuntime) -> Result<(), Fail> {
    expect_all(
        &rt,
        &[
            ("structure\n  A :> S = E", "1structure A=3E:>8S; "),
            (
                "structure B =\n  F (open A)",
                "1structure B=3F(3struct 6open @11A; end); ",
            ),
            ("functor\n  F (X : S) : R = E", "1functor F(X:10S)=3E:15R; "),
            (
                "functor\n  F (include S) = E",
                "1functor F( 0:3sig 6include 14S; end)=3let 3open  0; in E; ",
            ),
            (
                "signature T =\nS where type t = a and type u = a",
                "1signature T=111S where t=18()a where u=33()a; ",
            ),
            (
                "signature S = sig\n type t = a and 'a u = b\nend",
                "1signature S=15sig 2include 22sig 2type t; end where t=11()a; 2include 22sig 2type 'a u; end where 'a u=24()b; end; ",
            ),
        ],
    )
}

fn at(column: u32) -> Place {
    Place { line: 1, column }
}

fn ident(alloc: Global, text: &str) -> Result<Ident, Memory> {
    Ok(Rc::new(alloc, Vec::from_slice(alloc, text.as_bytes())?)?)
}

fn name(alloc: Global, column: u32, text: &str) -> Result<Name, Memory> {
    Ok(Name {
        place: at(column),
        ident: ident(alloc, text)?,
    })
}

fn long(alloc: Global, column: u32, text: &str) -> Result<LongIdent, Memory> {
    Ok(LongIdent {
        place: at(column),
        path: Vec::new(alloc),
        last: ident(alloc, text)?,
    })
}

fn ty(alloc: Global, column: u32, text: &str) -> Result<Ty, Memory> {
    Ok(Ty::Constructor(at(column), Vec::new(alloc), long(alloc, column, text)?))
}

fn sig(alloc: Global, column: u32, text: &str) -> Result<SigExp, Memory> {
    Ok(SigExp::Identifier(at(column), ident(alloc, text)?))
}

fn structure_exp(alloc: Global) -> Result<StrExp, Memory> {
    Ok(StrExp::Identifier(long(alloc, 20, "E")?))
}

/// The type `t` at a column, or none at 0.
fn some_ty(alloc: Global, column: u32) -> Result<Option<Ty>, Memory> {
    if column == 0 {
        return Ok(None);
    }
    Ok(Some(ty(alloc, column, "t")?))
}

/// The pattern `p` at a column, or none at 0.
fn some_pat(alloc: Global, column: u32) -> Result<Option<Pat>, Memory> {
    if column == 0 {
        return Ok(None);
    }
    Ok(Some(Pat::Identifier(at(column), long(alloc, column, "p")?)))
}

/// `x` at 2 in a row, with a type and a pattern.
fn pun_of(alloc: Global, ty_column: u32, pat_column: u32) -> Result<String, Memory> {
    let forms = Expander::new(alloc)?;
    let ty = some_ty(alloc, ty_column)?;
    let pat = some_pat(alloc, pat_column)?;
    let field = forms.pun(name(alloc, 2, "x")?, ty, pat)?;
    let mut shown = Shown::new(alloc);
    show_pat(&mut shown, &field.pat);
    shown.whole()
}

fn expect_puns(
    rt: &(impl Abort + AllocGlobal),
    rows: &[(&str, u32, u32, &str)],
) -> Result<(), Fail> {
    for (form, ty_column, pat_column, expected) in rows {
        let text = pun_of(rt.alloc(), *ty_column, *pat_column)?;
        assert_eq!(rt; text.as_str(), *expected, "{form}");
    }
    Ok(())
}

// each with the columns of `t` and `p`
#[test]
fn puns_by_call(rt: HostRuntime) -> Result<(), Fail> {
    expect_puns(
        &rt,
        &[
            ("{x}", 0, 0, "2x"),
            ("{x : t}", 6, 0, "22x:6()t"),
            ("{x as p}", 0, 7, "2x as 7p"),
            ("{x : t as p}", 6, 11, "2x:6()t as 11p"),
        ],
    )
}

fn structure_of(alloc: Global) -> Result<String, Memory> {
    let forms = Expander::new(alloc)?;
    let bind = forms.structure(
        name(alloc, 3, "A")?,
        Ascription::Opaque,
        sig(alloc, 8, "S")?,
        structure_exp(alloc)?,
    )?;
    let mut shown = Shown::new(alloc);
    show_str(&mut shown, &bind.body);
    shown.whole()
}

/// The functor `F (X : S) : R` with a body.
fn functor_with(alloc: Global, body: StrExp) -> Result<FunBind, Memory> {
    let parameter = name(alloc, 6, "X")?;
    let argument = sig(alloc, 8, "S")?;
    let result = sig(alloc, 12, "R")?;
    let functor = name(alloc, 3, "F")?;
    let forms = Expander::new(alloc)?;
    forms.functor(
        functor,
        parameter,
        argument,
        Ascription::Transparent,
        result,
        body,
    )
}

fn functor_of(alloc: Global) -> Result<String, Memory> {
    let bind = functor_with(alloc, structure_exp(alloc)?)?;
    let mut shown = Shown::new(alloc);
    show_str(&mut shown, &bind.body);
    shown.whole()
}

// `A :> S = E` and `F (X : S) : R = E`
#[test]
fn seals_by_call(rt: HostRuntime) -> Result<(), Fail> {
    let text = structure_of(rt.alloc())?;
    assert_eq!(rt; text.as_str(), "3E:>8S");
    let text = functor_of(rt.alloc())?;
    assert_eq!(rt; text.as_str(), "3E:12R");
    Ok(())
}

/// A type constructor with the type `a`, four columns after it.
fn equation(alloc: Global, column: u32, text: &str) -> Result<WhereType, Memory> {
    Ok(WhereType {
        variables: Vec::new(alloc),
        constructor: long(alloc, column, text)?,
        ty: ty(alloc, column.saturating_add(4), "a")?,
    })
}

fn equations_of(alloc: Global) -> Result<String, Memory> {
    let forms = Expander::new(alloc)?;
    let mut equations = Vec::new(alloc);
    equations.push(equation(alloc, 14, "t")?)?;
    equations.push(equation(alloc, 29, "u")?)?;
    let whole = forms.where_types(at(1), sig(alloc, 1, "S")?, equations)?;
    let mut shown = Shown::new(alloc);
    show_sig(&mut shown, &whole);
    shown.whole()
}

// `S where type t = a and type u = a`
#[test]
fn type_equations_by_call(rt: HostRuntime) -> Result<(), Fail> {
    let text = equations_of(rt.alloc())?;
    assert_eq!(rt; text.as_str(), "111S where t=18()a where u=33()a");
    Ok(())
}

/// A declaration of datatypes and types, as the derived form has it.
fn expanded(alloc: Global, top: TopDec) -> Result<Option<Dec>, Memory> {
    let forms = Expander::new(alloc)?;
    match top {
        TopDec::Structure(StrDec::Core(Dec::DatatypeWith(place, with))) => {
            let WithTypes {
                datatypes,
                types,
                ..
            } = with;
            Ok(Some(forms.datatypes_with_types(place, datatypes, types)?))
        }
        _ => Ok(None),
    }
}

fn after_datatypes(alloc: Global, unit: &str) -> Result<String, Memory> {
    let mut declarations = parse(alloc, &lex(alloc, unit.as_bytes())?)?.declarations;
    let mut shown = Shown::new(alloc);
    if let Some(top) = declarations.pop() {
        if let Some(dec) = expanded(alloc, top)? {
            show_dec(&mut shown, &dec);
        }
    }
    shown.whole()
}

#[test]
fn types_after_datatypes(rt: HostRuntime) -> Result<(), Fail> {
    let unit = "datatype d = A of u t | B of t withtype 'a t = 'a -> u and u = d";
    let text = after_datatypes(rt.alloc(), unit)?;
    let expected =
        "1{1datatype d|A of 48<64()d->54()u>|B of 30!()t; 1type 'a t=48<48'a->54()u>; u=64()d; }";
    assert_eq!(rt; text.as_str(), expected);
    Ok(())
}
