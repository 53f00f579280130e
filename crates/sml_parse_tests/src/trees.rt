//! The trees and faults of whole units.

use sml_lex::fault::{Memory, Place};
use sml_lex::lexer::lex;
use sml_parse::parse::{Parsed, parse};
use sml_tree::bare::{BareDec, CoreDec, CoreForm, Exp, Ident, LongIdent, Spec, SpecForm, Ty};
use std::alloc::Global;
use std::fmt::Write;
use std::process::Abort;
use std::test::Fail;

/// Trees as text, each place before what it is the place of.
#[derive(Drop)]
struct Shown {
    text: String,
}

impl Shown {
    fn put(&mut self, text: &str) -> Result<(), Memory> {
        self.text.push_str(text)?;
        Ok(())
    }

    fn place(&mut self, place: Place) -> Result<(), Memory> {
        let line = place.line;
        let column = place.column;
        write!(self.text, "{line}.{column} ")?;
        Ok(())
    }

    fn put_so_often(&mut self, text: &str, times: u32) -> Result<(), Memory> {
        for _time in 0..times {
            self.put(text)?;
        }
        Ok(())
    }

    fn ident(&mut self, ident: &Ident) -> Result<(), Memory> {
        for byte in ident.as_slice() {
            self.text.push(char::from(*byte))?;
        }
        Ok(())
    }

    fn long(&mut self, long: &LongIdent) -> Result<(), Memory> {
        self.place(long.place)?;
        for ident in &long.path {
            self.ident(ident)?;
            self.put("/")?;
        }
        self.ident(&long.last)
    }
}

#[cycle(show_exp)]
fn show_exp(shown: &mut Shown, exp: &Exp) -> Result<(), Memory> {
    match exp {
        Exp::Number => shown.put("n"),
        Exp::Identifier(long) => shown.long(long),
        Exp::Tuple(exps) => show_exps(shown, exps),
        Exp::Brackets(exp, pairs) => {
            shown.put_so_often("[", *pairs)?;
            show_exp(shown, exp)?;
            shown.put_so_often("]", *pairs)
        }
        Exp::Function(ident, exp) => {
            shown.put("fn ")?;
            shown.ident(ident)?;
            shown.put(" ")?;
            show_exp(shown, exp)
        }
    }
}

#[cycle(show_exp)]
fn show_exps(shown: &mut Shown, exps: &[Exp]) -> Result<(), Memory> {
    shown.put("(")?;
    for exp in exps {
        show_exp(shown, exp)?;
        shown.put(",")?;
    }
    shown.put(")")
}

#[cycle(show_ty)]
fn show_ty(shown: &mut Shown, ty: &Ty) -> Result<(), Memory> {
    match ty {
        Ty::Constructor(long) => shown.long(long),
        Ty::Tuple(tys) => show_tys(shown, tys),
        Ty::Bracket(ty) => {
            shown.put("[")?;
            show_ty(shown, ty)?;
            shown.put("]")
        }
        Ty::Arrow(left, right) => {
            shown.put("<")?;
            show_ty(shown, left)?;
            shown.put("->")?;
            show_ty(shown, right)?;
            shown.put(">")
        }
    }
}

#[cycle(show_ty)]
fn show_tys(shown: &mut Shown, tys: &[Ty]) -> Result<(), Memory> {
    shown.put("(")?;
    for ty in tys {
        show_ty(shown, ty)?;
        shown.put("*")?;
    }
    shown.put(")")
}

fn show_core(shown: &mut Shown, core: &CoreDec) -> Result<(), Memory> {
    shown.place(core.place)?;
    match &core.form {
        CoreForm::Value(ident, exp) => {
            shown.put("val ")?;
            shown.ident(ident)?;
            shown.put(" ")?;
            show_exp(shown, exp)?;
        }
        CoreForm::Type(ident, ty) => {
            shown.put("type ")?;
            shown.ident(ident)?;
            shown.put(" ")?;
            show_ty(shown, ty)?;
        }
    }
    shown.put(";")
}

fn show_spec(shown: &mut Shown, spec: &Spec) -> Result<(), Memory> {
    shown.place(spec.place)?;
    match &spec.form {
        SpecForm::Type(ident) => {
            shown.put("type ")?;
            shown.ident(ident)?;
        }
        SpecForm::Value(ident, ty) => {
            shown.put("val ")?;
            shown.ident(ident)?;
            shown.put(" ")?;
            show_ty(shown, ty)?;
        }
    }
    shown.put(";")
}

fn show_dec(shown: &mut Shown, dec: &BareDec) -> Result<(), Memory> {
    match dec {
        BareDec::Core(core) => show_core(shown, core),
        BareDec::Structure(structure) => {
            shown.put("structure ")?;
            shown.ident(&structure.name)?;
            shown.put(" ")?;
            shown.place(structure.signature.place)?;
            shown.put("sig ")?;
            for spec in &structure.signature.specs {
                show_spec(shown, spec)?;
            }
            shown.put(" struct ")?;
            for core in &structure.body {
                show_core(shown, core)?;
            }
            Ok(())
        }
        BareDec::Other(place) => {
            shown.place(*place)?;
            shown.put("other")
        }
    }
}

fn show_parsed(alloc: Global, parsed: &Parsed) -> Result<String, Memory> {
    let mut shown = Shown {
        text: String::new(alloc),
    };
    for dec in &parsed.piece {
        show_dec(&mut shown, dec)?;
        shown.put("\n")?;
    }
    if let Some(fault) = &parsed.fault {
        shown.place(fault.place)?;
        let code = fault.code;
        write!(shown.text, "{code:?}")?;
    }
    Ok(shown.text)
}

/// What is read of a unit.
fn read_as(alloc: Global, unit: &[u8]) -> Result<String, Memory> {
    show_parsed(alloc, &parse(alloc, &lex(alloc, unit)?)?)
}

/// Units, each with what is read of it.
fn expect_all(rt: &(impl Abort + AllocGlobal), rows: &[(&str, &str)]) -> Result<(), Fail> {
    for (unit, expected) in rows {
        let text = read_as(rt.alloc(), unit.as_bytes())?;
        assert_eq!(rt; text.as_str(), *expected, "{unit}");
    }
    Ok(())
}

#[test]
fn trees_and_places(rt: HostRuntime) -> Result<(), Fail> {
    expect_all(
        &rt,
        &[
            (
                "val f = fn x => x\nval g = fn y => (f,\n y, ())",
                "1.1 val f fn x 1.17 x;\n1.1 val g fn y (1.18 f,2.2 y,(),);\n",
            ),
            (
                "structure S :> sig type t; val x : t end = struct type t = int val x = 3 end\n val y = (S.x, 1)",
                "structure S 1.16 sig 1.20 type t;1.28 val x 1.36 t; struct 1.51 type t 1.60 int;1.64 val x n;\n1.1 val y (1.10 S/x,n,);\n",
            ),
            (
                ";; structure mod:>sig val h : int -> A.B.t * (u) -> v end = struct end;",
                "structure mod 1.16 sig 1.20 val h <1.28 int-><(1.35 A/B/t*[1.44 u]*)->1.50 v>>; struct \n",
            ),
        ],
    )
}

#[test]
fn faults(rt: HostRuntime) -> Result<(), Fail> {
    expect_all(
        &rt,
        &[
            ("val x = (1, )", "1.13 S1"),
            ("val x = 1 )", "1.1 val x n;\n1.1 S1"),
            ("val x = 1\nval y = (\n z w", "1.1 val x n;\n2.4 S2"),
            ("val mod 1", "1.9 S2"),
            ("x y )", "1.5 S1"),
            ("x val y = 1", "1.3 S1"),
            ("val x = 1 abstype t = A with end", "1.1 val x n;\n1.1 S1"),
            ("val a = 1; b\n c where", "1.1 val a n;\n2.4 S1"),
            ("fun f x = 1 | f", "1.15 S2"),
            ("case x of A => case y of B => 1 | C", "1.35 S2"),
            ("structure A = struct val x = 1", "1.30 S2"),
            ("f x \"y", "1.5 L2"),
            ("val a = 1 fun f x = x \"y", "1.1 val a n;\n1.13 L2"),
            ("val", "1.1 S2"),
            ("val a", "1.5 S2"),
            ("val a = 1 val b = (a,", "1.1 val a n;\n1.11 S2"),
            ("", ""),
            ("; ;", ""),
            ("val a = 1 val b = 2 \"x", "1.1 val a n;\n1.11 L2"),
            ("val a = 1; .", "1.1 val a n;\n1.1 L4"),
            ("val a = ) .", "1.9 S1"),
            ("(* (* x *) val y = 1", "1.1 L1"),
        ],
    )
}

#[test]
fn fixities(rt: HostRuntime) -> Result<(), Fail> {
    expect_all(
        &rt,
        &[
            ("val x = = 3", "1.9 F1"),
            ("val mod = 1", "1.5 F1"),
            ("val x = o", "1.9 F1"),
            ("val x = f +", "1.11 F1"),
            ("val x = 1 + + 2", "1.13 F1"),
            ("val x = f (1 +) +", "1.14 F1"),
            ("val x = + (1 +)", "1.9 F1"),
            ("val x as + = 1", "1.10 F1"),
            ("val x = = 3 )", "1.9 F1"),
            ("val a = 1 val b =\n (a * * 2", "1.1 val a n;\n2.9 S2"),
            (
                "val a = 1 val b =\n (a * * 2) val c = +",
                "1.1 val a n;\n2.7 F1",
            ),
            ("infixr 6 ++ val x = 1 + 2 ++ 3", "1.1 other\n1.15 F2"),
            ("infixr 6 ++ val x ++ y + z = 1", "1.1 other\n1.12 F2"),
            ("infix 12 ##", "1.7 F3"),
            ("infix 03 ##", "1.7 F3"),
            ("val 1 x = 2", "1.5 F4"),
            ("fn 1 2 => 3", "1.4 F4"),
            ("val x y z = 1", "1.5 F4"),
            ("val op x y z = 1", "1.5 F4"),
            ("val (x) y = 1", "1.5 F4"),
            ("fun :: x = 1", "1.5 F4"),
            ("fun f = 1", "1.5 F4"),
            ("fun f 1 = 2 | + x = 3", "1.15 F4"),
            ("fun f 1 = 2 and (g) x = 3", "1.17 F4"),
            ("infix ## fun a ## b c = 1", "1.1 other\n1.5 F4"),
            ("infix ## fun (a ## b : int) c = 1", "1.1 other\n1.5 F4"),
            ("nonfix + val x = +", "1.1 other\n1.1 other\n"),
            ("val x = 1 - 2 - 3 * 4", "1.1 other\n"),
            ("val op + = op *", "1.1 other\n"),
            ("val {+, ...} = r", "1.1 other\n"),
            ("infix ## fun (a ## b) c = a", "1.1 other\n1.1 other\n"),
            // a directive doesn't leave what encloses it
            ("structure A = struct infix 5 ## val a = ## end", "1.41 F1"),
            (
                "structure A = struct infix 5 ## fun a ## b = a end val z = ##",
                "1.1 other\n1.1 other\n",
            ),
            (
                "local infix ## in val x = 1 ## 2 end val y = ##",
                "1.1 other\n1.1 other\n",
            ),
            ("local infix ## in val x = ## end", "1.27 F1"),
            (
                "val x = let infix ## in 1 ## 2 end val y = ##",
                "1.1 other\n1.1 other\n",
            ),
            (
                "structure A = F (infix ##) val y = ##",
                "1.1 other\n1.1 other\n",
            ),
            (
                "infix ## structure A = struct nonfix ## end val y = ##",
                "1.1 other\n1.1 other\n1.9 F1",
            ),
        ],
    )
}

/// Units of a declaration each that isn't of the piece, with one after it that is.
fn expect_outside(rt: &(impl Abort + AllocGlobal), units: &[&str]) -> Result<(), Fail> {
    for unit in units {
        let text = read_as(rt.alloc(), unit.as_bytes())?;
        assert_eq!(rt; text.as_str(), "1.1 other\n1.1 val a n;\n", "{unit}");
    }
    Ok(())
}

#[test]
fn outside_the_piece(rt: HostRuntime) -> Result<(), Fail> {
    expect_outside(
        &rt,
        &[
            "val x = nil; val a = 1",
            "val ++ = 1; val a = 1",
            "val x = f y; val a = 1",
            "val x = 1 + 2; val a = 1",
            "val x = (1; 2); val a = 1",
            "val x = (1 + 2); val a = 1",
            "val x = 1 : int; val a = 1",
            "val x = 0w1; val a = 1",
            "val x = fn y => y | z => z; val a = 1",
            "val x = fn (y) => y; val a = 1",
            "val x = fn ref => 1; val a = 1",
            "val x = 1 and y = 2; val a = 1",
            "val 'a x = 1; val a = 1",
            "val rec x = fn y => y; val a = 1",
            "fun f x = x; val a = 1",
            "type t = int; val a = 1",
            "structure A = B; val a = 1",
            "structure A = struct end; val a = 1",
            "structure A : sig end = struct end; val a = 1",
            "structure A :> S = struct end; val a = 1",
            "structure A :> sig end = B; val a = 1",
            "structure A :> sig end = struct end and B :> sig end = struct end; val a = 1",
            "structure A :> sig end = struct structure B :> sig end = struct end end; val a = 1",
            "structure A :> sig end = struct type 'a t = 'a end; val a = 1",
            "structure A :> sig end = struct type t = int list end; val a = 1",
            "structure A :> sig end = struct type t = {} end; val a = 1",
            "structure A :> sig end = struct val x = 1 val y = x x end; val a = 1",
            "structure A :> sig eqtype t end = struct end; val a = 1",
            "structure A :> sig type t = int end = struct end; val a = 1",
            "structure A :> sig type t and u end = struct end; val a = 1",
            "structure A :> sig val x : 'a end = struct end; val a = 1",
            "structure A :> sig end where type t = int = struct end; val a = 1",
            "signature S = sig end; val a = 1",
            "functor F () = struct end; val a = 1",
            "local val x = 1 in val y = 2 end; val a = 1",
            "infix 5 ++; val a = 1",
        ],
    )
}

#[test]
fn of_the_piece(rt: HostRuntime) -> Result<(), Fail> {
    expect_all(
        &rt,
        &[
            ("val x = S.nil", "1.1 val x 1.9 S/nil;\n"),
            ("v", "1.1 val it 1.1 v;\n"),
            ("val x = op y", "1.1 val x 1.12 y;\n"),
            ("val x = fn op y => y", "1.1 val x fn y 1.20 y;\n"),
            (
                "structure A = struct end :> sig val x : t end",
                "structure A 1.29 sig 1.33 val x 1.41 t; struct \n",
            ),
            (
                "structure ref :> sig type o end = struct type o = nil val x = 01 end",
                "structure ref 1.18 sig 1.22 type o; struct 1.42 type o 1.51 nil;1.55 val x n;\n",
            ),
        ],
    )
}
