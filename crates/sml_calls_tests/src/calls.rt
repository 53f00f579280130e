//! Each public call of elaboration that the program reaches only within a declaration: what it gives, in a few words, or its
//! fault.

use sml_bases::objects::{Basis, Env, Sig};
use sml_core::declarations::core;
use sml_graph::demand::Halt;
use sml_initial::initial::initial;
use sml_lex::fault::{Code, Fault, Memory};
use sml_lex::lexer::lex;
use sml_match::enrich::enriches;
use sml_match::mismatch::Mismatch;
use sml_match::realise::realise;
use sml_objects::objects::MlType;
use sml_parse::parse::parse;
use sml_sigs::sigs::signature;
use sml_solve::solver::Solver;
use sml_tree::expressions::{DatBind, Dec, TypBind};
use sml_tree::signatures::SigExp;
use sml_tree::structures::{StrDec, TopDec};
use sml_types::datatypes::datatypes;
use sml_types::fault::CoreFault;
use sml_types::types::type_of;
use std::alloc::Global;
use std::fmt::Write;
use std::process::Abort;
use std::test::Fail;

/// What is said of the calls for a unit, the last signature that was accepted, and what the last declaration of the core binds.
#[derive(Drop)]
struct Said<'a> {
    alloc: Global,
    basis: &'a Basis,
    text: String,
    sig: Option<Sig>,
    env: Option<Env>,
}

/// A code, where there is no match.
fn code_of<T: Drop>(answer: Result<T, Mismatch>) -> Result<Option<Code>, Memory> {
    match answer {
        Ok(_) => Ok(None),
        Err(Mismatch::Memory) => Err(Memory),
        Err(Mismatch::Fault(code, _)) => Ok(Some(code)),
    }
}

impl Said<'_> {
    fn fault(&mut self, fault: &CoreFault) -> Result<(), Memory> {
        match fault {
            CoreFault::Memory => Err(Memory),
            CoreFault::Fault(Fault { code, place, .. }) => {
                write!(self.text, "{code:?} {}.{};", place.line, place.column)?;
                Ok(())
            }
        }
    }

    fn env(&mut self, types: usize, values: usize) -> Result<(), Memory> {
        write!(self.text, "{types} types {values} values;")?;
        Ok(())
    }

    fn ty(&mut self, ty: &MlType) -> Result<(), Memory> {
        match ty {
            MlType::Bound(variable) => write!(self.text, "variable {variable};")?,
            MlType::Free(unknown) => write!(self.text, "unknown {unknown};")?,
            MlType::Row(_, parts) => write!(self.text, "row of {};", parts.len())?,
            MlType::Arrow(_, _) => self.text.push_str("arrow;")?,
            MlType::Name(_, parts) => write!(self.text, "name of {};", parts.len())?,
        }
        Ok(())
    }

    /// `type_of`, over the right side of a binding.
    fn right_side(&mut self, bind: &TypBind) -> Result<(), Memory> {
        match type_of(self.alloc, self.basis, &bind.variables, &bind.ty) {
            Ok(ty) => self.ty(&ty),
            Err(fault) => self.fault(&fault),
        }
    }

    fn datatypes(&mut self, binds: &[DatBind]) -> Result<(), Memory> {
        match datatypes(self.alloc, self.basis, binds) {
            Ok(env) => self.env(env.types.len(), env.values.len()),
            Err(fault) => self.fault(&fault),
        }
    }

    fn binds(&mut self, env: Env, warnings: usize) -> Result<(), Memory> {
        let (types, values) = (env.types.len(), env.values.len());
        self.env = Some(env);
        self.env(types, values)?;
        write!(self.text, "{warnings} warnings;")?;
        Ok(())
    }

    /// `core`; after a fault the solver is spent.
    fn core(&mut self, dec: &Dec) -> Result<(), Memory> {
        let mut solver = Solver::new(self.alloc, self.basis.unit);
        let said = match core(self.alloc, self.basis, dec, &mut solver) {
            Ok((env, warnings)) => self.binds(env, warnings.len()),
            Err(fault) => self.fault(&fault),
        };
        let next = match solver.fresh() {
            Ok(_) => Ok(""),
            Err(Halt::Spent) => Ok("spent;"),
            Err(Halt::Memory) => Err(Memory),
        };
        self.both(said, next)
    }

    fn both(&mut self, said: Result<(), Memory>, next: Result<&str, Memory>) -> Result<(), Memory> {
        said?;
        self.text.push_str(next?)?;
        Ok(())
    }

    fn dec(&mut self, dec: &Dec) -> Result<(), Memory> {
        self.env = None;
        match dec {
            Dec::Type(_, binds) => {
                for bind in binds {
                    self.right_side(bind)?;
                }
            }
            Dec::Datatype(_, binds) => self.datatypes(binds)?,
            _ => {}
        }
        self.core(dec)?;
        self.matching()
    }

    fn verdict(&mut self, code: Option<Code>, accepted: &str) -> Result<(), Memory> {
        match code {
            None => self.text.push_str(accepted)?,
            Some(code) => write!(self.text, "{code:?};")?,
        }
        Ok(())
    }

    /// `enriches`, of what a declaration binds against a signature.
    fn enriched(&self, sig: &Sig, env: &Env) -> Result<Option<Code>, Memory> {
        let mut solver = Solver::new(self.alloc, self.basis.unit);
        code_of(enriches(self.alloc, env, &sig.env, &mut solver))
    }

    /// `realise` and `enriches`, of what the last declaration binds against the last signature.
    fn matching(&mut self) -> Result<(), Memory> {
        let (realised, enriched) = match (&self.sig, &self.env) {
            (Some(sig), Some(env)) => (
                code_of(realise(self.alloc, sig, env))?,
                self.enriched(sig, env)?,
            ),
            _ => return Ok(()),
        };
        self.verdict(realised, "realised;")?;
        self.verdict(enriched, "enriches;")
    }

    fn signature(&mut self, expression: &SigExp) -> Result<(), Memory> {
        match signature(self.alloc, self.basis, expression) {
            Ok(sig) => {
                let names = sig.names.len();
                self.sig = Some(sig);
                write!(self.text, "{names} names;")?;
                Ok(())
            }
            Err(fault) => self.fault(&fault),
        }
    }

    /// Each declaration by itself; what the core binds is held against the last signature before it.
    fn declarations(&mut self, declarations: &[TopDec]) -> Result<(), Memory> {
        for declaration in declarations {
            match declaration {
                TopDec::Structure(StrDec::Core(dec)) => self.dec(dec)?,
                TopDec::Signature(_, binds) => {
                    for bind in binds {
                        self.signature(&bind.signature)?;
                    }
                }
                _ => self.text.push_str("other;")?,
            }
        }
        Ok(())
    }
}

/// What is said of the calls for a unit over the initial basis.
fn answers(alloc: Global, unit: &str) -> Result<String, Memory> {
    let basis = initial(alloc)?;
    let parsed = parse(alloc, &lex(alloc, unit.as_bytes())?)?;
    let mut said = Said {
        alloc,
        basis: &basis,
        text: String::new(alloc),
        sig: None,
        env: None,
    };
    let done = said.declarations(&parsed.declarations);
    let Said { text, .. } = said;
    match done {
        Ok(()) => Ok(text),
        Err(memory) => Err(memory),
    }
}

const ROWS: [(&str, &str); 14] = [
    ("val x = 3", "0 types 1 values;0 warnings;"),
    ("fun f 2 = 3", "0 types 1 values;1 warnings;"),
    ("val x = y", "E1 1.9;spent;"),
    ("val x = 1 2", "U1 1.9;spent;"),
    ("type t = int", "name of 0;1 types 0 values;0 warnings;"),
    (
        "type ('a, 'b) t = 'b",
        "variable 1;1 types 0 values;0 warnings;",
    ),
    (
        "type 'a t = 'a * int * 'a",
        "row of 3;1 types 0 values;0 warnings;",
    ),
    ("type t = u", "E2 1.10;E2 1.10;spent;"),
    (
        "datatype t = A | B of u and u = C",
        "2 types 3 values;2 types 3 values;0 warnings;",
    ),
    ("datatype t = A of u", "E2 1.19;E2 1.19;spent;"),
    ("signature S = sig type t val x : t end", "1 names;"),
    ("signature S = T", "N1 1.15;"),
    (
        "signature S = sig val x : int end val x = 3 val x = true val y = 3",
        "0 names;0 types 1 values;0 warnings;realised;enriches;0 types 1 values;0 warnings;realised;M6;0 types 1 values;0 warnings;realised;M1;",
    ),
    (
        "signature S = sig type t end val x = 3",
        "1 names;0 types 1 values;0 warnings;M1;M1;",
    ),
];

#[test]
fn each_call(rt: HostRuntime) -> Result<(), Fail> {
    let alloc = rt.alloc();
    for (unit, expected) in ROWS {
        assert_eq!(rt; answers(alloc, unit)?.as_str(), expected);
    }
    Ok(())
}
