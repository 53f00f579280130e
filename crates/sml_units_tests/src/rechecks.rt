//! Projects that are checked again after an edit.

use sml_projects::project::Project;
use sml_projects::project_file::manifest;
use sml_reply::form::{Form, Version};
use sml_reply::sink::VecOut;
use sml_units::project::{Checked, check};
use sml_units::recheck::recheck;
use std::alloc::Global;
use std::fmt::Write;
use std::process::Abort;
use std::test::Fail;

/// A project of a file and the texts of its units.
fn project_of(alloc: Global, file: &str, texts: &[&str]) -> Result<Project, Fail> {
    let listed = manifest(alloc, file.as_bytes())?;
    let mut units = Vec::new(alloc);
    for text in texts {
        units.push(Vec::from_slice(alloc, text.as_bytes())?)?;
    }
    Ok(Project::new(alloc, listed, units)?)
}

const FORMS: [Form; 2] = [
    Form {
        version: Version::One,
        warnings: false,
    },
    Form {
        version: Version::Two,
        warnings: true,
    },
];

/// Demands that two checked projects have the same replies, in both versions.
fn expect_same(rt: &impl Abort, alloc: Global, one: &Checked, other: &Checked) -> Result<(), Fail> {
    for form in FORMS {
        let mut first = VecOut::new(alloc);
        let mut second = VecOut::new(alloc);
        let summary = one.write_to(form, &mut first)?;
        assert_eq!(rt; other.write_to(form, &mut second)?, summary);
        assert_eq!(rt; second.bytes(), first.bytes());
    }
    Ok(())
}

/// The project files of the rows.
const FILES: [&str; 4] = [
    "unit a a.sml\nunit b b.sml a\nunit c c.sml b\n",
    "unit n c.sml\nunit c c.sml b\nunit b b.sml a\nunit a a.sml\n",
    "unit d a.sml\nunit b b.sml d\nunit c c.sml b\n",
    "unit a a.sml\nunit b b.sml a\n",
];

/// The texts of their units, each after the letter that it has in a row.
const LETTERS: [&str; 18] = [
    "a structure S :> sig type t val a : t val f : t -> t end = struct type t = int val a = 3 fun f x = x end",
    "b structure S :> sig type t val a : t val f : t -> t end = struct datatype p = P datatype q = Q type t = int * bool val a = (3, true) fun f (x, b) = (x, b) end",
    "c structure S :> sig type t val a : t val f : t -> t val b : int end = struct type t = int val a = 3 fun f x = x val b = 1 end",
    "d structure S :> sig eqtype t val a : t val f : t -> t end = struct type t = int val a = 3 fun f x = x end",
    "e val y = S.f S.a",
    "f val y = S.a",
    "g val z = y",
    "h val n = 1",
    "i signature G = sig type t type u val f : t -> u end",
    "j signature G = sig type u type t val f : t -> u end",
    "k signature G = sig type u type t val f : u -> t end",
    "l signature G = sig type u eqtype t val f : t -> u end",
    "m signature G = sig type t type u val f : t -> u end val n = 1",
    "n structure S : sig type t val x : t end = struct datatype t = A val x = A end",
    "o structure S : sig type t val x : t end = struct datatype t = B val x = B end",
    "p val y = S.x",
    "q structure T = S",
    "r val z = T.x",
];

/// The user of the signatures.
const FUNCTOR: &str = "functor F (X : G) = struct val g = X.f end";

/// A row has the number of a project file and the letters of its units' texts, the same of the project that is checked
/// after it, which of its units are kept, and how many declarations are answered. `x` is the functor's letter.
///
/// A body may change, but not what a signature lists, nor whether a type admits equality; the order of the lines alone
/// changes nothing, but another name, or other needs, are another unit; and signatures whose types are listed in another
/// order are equal. A name carries its constructors' identifiers, also where no path shows them.
const ROWS: [&str; 13] = [
    "0 aeg 0 aeg kkk 0",
    "0 aeg 0 beg -kk 1",
    "0 aeg 0 afg k-k 1",
    "0 aeg 0 ceg --k 2",
    "0 aeg 0 deg --- 3",
    "0 aeg 1 hgea -kkk 1",
    "3 ix 3 jx -k 1",
    "3 ix 3 kx -- 2",
    "3 ix 3 lx -- 2",
    "3 ix 3 mx -- 3",
    "3 np 3 np kk 0",
    "3 np 3 op -- 2",
    "0 nqr 0 oqr --- 3",
];

/// The text of a letter.
fn text_of(letter: char) -> &'static str {
    for text in LETTERS {
        if text.starts_with(letter) {
            if let Some((_, text)) = text.split_once(" ") {
                return text;
            }
        }
    }
    FUNCTOR
}

/// The project of a number and letters.
fn project_by(alloc: Global, number: &str, letters: &str) -> Result<Project, Fail> {
    let number = number.parse::<usize>().unwrap_or(0);
    let mut texts = Vec::new(alloc);
    for letter in letters.chars() {
        texts.push(text_of(letter))?;
    }
    project_of(alloc, FILES[number.min(3)], &texts)
}

/// What a row says of the units kept and the declarations answered.
fn found_of(alloc: Global, checked: &Checked) -> Result<String, Fail> {
    let mut text = String::new(alloc);
    for is_kept in checked.kept() {
        text.push_str(if *is_kept { "k" } else { "-" })?;
    }
    let readings = checked.readings();
    write!(text, " {readings}")?;
    Ok(text)
}

/// What is found where a project is checked again after another, which has to give what a check from nothing gives.
fn found_after(
    rt: &impl Abort,
    alloc: Global,
    old: &Checked,
    project: &Project,
) -> Result<String, Fail> {
    let again = recheck(alloc, old, project)?;
    expect_same(rt, alloc, &check(alloc, project)?, &again)?;
    found_of(alloc, &again)
}

/// The first project of a row, checked.
fn checked_by(alloc: Global, number: &str, letters: &str) -> Result<Checked, Fail> {
    let project = project_by(alloc, number, letters)?;
    Ok(check(alloc, &project)?)
}

/// What is found of the other project of a row.
fn found_by(
    rt: &impl Abort,
    alloc: Global,
    old: &Checked,
    number: &str,
    letters: &str,
) -> Result<String, Fail> {
    let project = project_by(alloc, number, letters)?;
    found_after(rt, alloc, old, &project)
}

#[test]
fn kept_units(rt: HostRuntime) -> Result<(), Fail> {
    let alloc = rt.alloc();
    for row in ROWS {
        let mut words = row.splitn(5, " ");
        let number = words.next().unwrap_or("");
        let old = checked_by(alloc, number, words.next().unwrap_or(""))?;
        assert!(rt; !old.kept().contains(&true), "{row}");
        let number = words.next().unwrap_or("");
        let found = found_by(&rt, alloc, &old, number, words.next().unwrap_or(""))?;
        assert_eq!(rt; found.as_str(), words.next().unwrap_or(""), "{row}");
    }
    Ok(())
}

/// A project that was checked again after another, and what was found of that one.
fn moved(alloc: Global) -> Result<(Checked, String), Fail> {
    let old = checked_by(alloc, "0", "aeg")?;
    let found = found_of(alloc, &old)?;
    let second = project_by(alloc, "1", "hgea")?;
    Ok((recheck(alloc, &old, &second)?, found))
}

/// A project is checked again after one that was checked again.
#[test]
fn units_that_move(rt: HostRuntime) -> Result<(), Fail> {
    let alloc = rt.alloc();
    let (again, found) = moved(alloc)?;
    assert_eq!(rt; found.as_str(), "--- 3");
    let found = found_by(&rt, alloc, &again, "2", "aeg")?;
    assert_eq!(rt; found.as_str(), "--- 3");
    Ok(())
}

/// The texts that units may have.
const TEXTS: [&str; 14] = [
    "structure S :> sig type t val a : t end = struct type t = int val a = 1 end",
    "structure S :> sig type t val a : t end = struct type t = bool val a = true end",
    "structure S :> sig eqtype t val a : t end = struct type t = int val a = 1 end",
    "structure S :> sig type t val a : t val b : int end = struct type t = int val a = 1 val b = 2 end",
    "val y = S.a val z = (S.a, y)",
    "val y = S.b",
    "structure T = S val y = T.a",
    "datatype d = A | B of S.t val y = A",
    "datatype d = A | C of S.t val y = A exception E of d",
    "signature G = sig type u val f : u -> S.t end functor F (X : G) = struct val g = X.f datatype e = E end",
    "structure R = F (struct type u = S.t fun f x = x end) val y = R.g",
    "structure S = struct end val w = y",
    "val w = y val v = S.a = S.a fun f A = 1",
    "val x = (",
];

/// A unit of a generated project: its name, its text, and the numbers of the units that it needs.
#[derive(Drop)]
struct Unit {
    name: u32,
    text: usize,
    needs: [bool; 6],
}

/// A generated project: its units by number, of which each needs earlier ones alone, and the order of their lines.
#[derive(Drop)]
struct Generated {
    units: [Unit; 6],
    is_there: [bool; 6],
    is_reversed: bool,
    seed: u64,
    names: u32,
}

impl Generated {
    fn new() -> Generated {
        Generated {
            units: [
                Unit {
                    name: 0,
                    text: 0,
                    needs: [false; 6],
                },
                Unit {
                    name: 1,
                    text: 4,
                    needs: [true, false, false, false, false, false],
                },
                Unit {
                    name: 2,
                    text: 9,
                    needs: [true, true, false, false, false, false],
                },
                Unit {
                    name: 3,
                    text: 10,
                    needs: [true, false, true, false, false, false],
                },
                Unit {
                    name: 4,
                    text: 7,
                    needs: [true, false, false, true, false, false],
                },
                Unit {
                    name: 5,
                    text: 12,
                    needs: [false, false, false, true, true, false],
                },
            ],
            is_there: [true; 6],
            is_reversed: false,
            seed: 1,
            names: 6,
        }
    }

    /// The next number below a bound, drawn by a linear congruence.
    fn draw(&mut self, bound: u64) -> usize {
        self.seed = self
            .seed
            .wrapping_mul(6_364_136_223_846_793_005)
            .wrapping_add(1_442_695_040_888_963_407);
        ((self.seed >> 33) % bound.max(1)) as usize
    }

    /// An edit: of a text, of a need, of the order of lines, a unit taken away or put back, or a name.
    fn edit(&mut self) {
        let unit = self.draw(6).min(5);
        match self.draw(6) {
            0 | 1 => self.units[unit].text = self.draw(14).min(13),
            2 => {
                let need = self.draw(6).min(5);
                if need < unit {
                    self.units[unit].needs[need] = !self.units[unit].needs[need];
                }
            }
            3 => self.is_reversed = !self.is_reversed,
            4 => self.is_there[unit] = !self.is_there[unit],
            _ => {
                self.units[unit].name = self.names;
                self.names = self.names.saturating_add(1);
            }
        }
    }

    fn line(&self, file: &mut String, unit: usize) -> Result<(), Fail> {
        let unit = unit.min(5);
        write!(file, "unit u{} f", self.units[unit].name)?;
        for need in 0..6 {
            if self.units[unit].needs[need] && self.is_there[need] {
                write!(file, " u{}", self.units[need].name)?;
            }
        }
        file.push_str("\n")?;
        Ok(())
    }

    fn project(&self, alloc: Global) -> Result<Project, Fail> {
        let mut file = String::new(alloc);
        let mut texts = Vec::new(alloc);
        for index in 0..6 {
            let unit = if self.is_reversed { 5 - index } else { index };
            if self.is_there[unit] {
                self.line(&mut file, unit)?;
                texts.push(TEXTS[self.units[unit].text.min(13)])?;
            }
        }
        project_of(alloc, &file, &texts)
    }
}

/// Each project is checked again after the one before it, with an edit or two between them.
#[test]
fn generated_edits(rt: HostRuntime) -> Result<(), Fail> {
    let alloc = rt.alloc();
    let mut generated = Generated::new();
    let mut old = check(alloc, &generated.project(alloc)?)?;
    for step in 0..150 {
        generated.edit();
        if step % 3 == 0 {
            generated.edit();
        }
        let project = generated.project(alloc)?;
        let again = recheck(alloc, &old, &project)?;
        expect_same(&rt, alloc, &check(alloc, &project)?, &again)?;
        let same = recheck(alloc, &again, &project)?;
        assert_eq!(rt; same.readings(), 0);
        assert!(rt; !same.kept().contains(&false));
        expect_same(&rt, alloc, &again, &same)?;
        old = same;
    }
    Ok(())
}
