//! The command line: its switches, its help, and what it asks for.

use clap::builder::ValueParser;
use clap::error::ErrorKind;
use clap::{Arg, ArgAction, ArgMatches, Command, Error};
use std::alloc::{AllocError, Global};

/// What is shown, beside faults.
#[derive(Clone, Copy)]
pub struct Wish {
    pub types: bool,
    pub warnings: bool,
    pub json: bool,
    pub is_colored: bool,
}

/// What is to be done about the words of a command line.
#[derive(Drop)]
pub enum Asked {
    /// Show this of the project.
    Show(String, Wish),
    /// Print the section of this code.
    Explain(String),
    /// Print this text, the help or the version.
    Answer(String),
    /// Print this text, which says what is wrong with the words.
    Refused(String),
    /// Memory was refused.
    Memory,
}

/// What the help says after the switches.
const AFTER_HELP: &str =
    "Of each fault its place in the file, its code and its text are printed, the line with a
caret, and the types that don't fit:
  main.sml:2:13: U1 types clash
    | val total = firsts + 1
    |             ^ declaration 2
    the function takes _a * _a
    its argument has type (int * int) list * int
--explain CODE says what a code means, with an example and a cure.

Status: 0, no declaration was refused; 1, some was; 2, the command line or the
project file has a fault; 3, a file, the output or memory failed.";

/// What is printed for `--version`.
const VERSION: &str = "1";

/// When colors are used.
const COLORS: [&str; 2] = ["always", "never"];

fn flag<'a>(alloc: Global, name: &'a str, help: &'a str) -> Arg<'a> {
    Arg::new(alloc, name)
        .long(name)
        .help(help)
        .action(ArgAction::SetTrue)
}

fn color_switch<'a>(alloc: Global) -> Arg<'a> {
    Arg::new(alloc, "color")
        .long("color")
        .value_name("WHEN")
        .help("Prints codes and carets in color")
        .value_parser(ValueParser::Names(COLORS.as_slice()))
        .default_value("never")
        .action(ArgAction::Set)
}

fn explain_switch<'a>(alloc: Global) -> Arg<'a> {
    Arg::new(alloc, "explain")
        .long("explain")
        .value_name("CODE")
        .help("Prints what a code means, with an example and a cure")
        .action(ArgAction::Set)
}

fn project_word<'a>(alloc: Global) -> Result<Arg<'a>, AllocError> {
    Arg::new(alloc, "PROJECT")
        .help("A project file: a line `unit NAME FILE NEED ..` for each unit")
        .action(ArgAction::Set)
        .required_unless_present("explain")
}

fn command<'a>(alloc: Global) -> Result<Command<'a>, AllocError> {
    Command::new(alloc, "smlshow")
        .version(VERSION)
        .about("Shows where the faults of Standard ML units are")
        .after_help(AFTER_HELP)
        .arg(flag(alloc, "types", "Prints what accepted declarations bind"))?
        .arg(flag(
            alloc,
            "warnings",
            "Prints the warnings of accepted declarations",
        ))?
        .arg(flag(
            alloc,
            "json",
            "Prints an object of JSON a line (docs/SHOW.md)",
        ))?
        .arg(color_switch(alloc))?
        .arg(explain_switch(alloc))?
        .arg(project_word(alloc)?)
}

/// What the words of a command line ask for. The first word is the program's own name.
pub fn asked_by(alloc: Global, words: &[String]) -> Asked {
    match requested(alloc, words) {
        Ok(asked) => asked,
        Err(error) => answered(alloc, &error),
    }
}

/// The command line, as `clap` reads it.
fn requested(alloc: Global, words: &[String]) -> Result<Asked, Error> {
    let matches = command(alloc)?.try_get_matches_from(words)?;
    Ok(asked_of(alloc, &matches)?)
}

fn asked_of(alloc: Global, matches: &ArgMatches) -> Result<Asked, AllocError> {
    if let Some(code) = matches.get_str("explain") {
        return Ok(Asked::Explain(String::from_str(alloc, code)?));
    }
    let wish = Wish {
        types: matches.get_flag("types"),
        warnings: matches.get_flag("warnings"),
        json: matches.get_flag("json"),
        is_colored: matches.get_str("color") == Some("always"),
    };
    let path = matches.get_str("PROJECT").unwrap_or("");
    Ok(Asked::Show(String::from_str(alloc, path)?, wish))
}

/// What `clap` says of the command line: its help, its version, or its fault.
fn answered(alloc: Global, error: &Error) -> Asked {
    if error.kind() == ErrorKind::OutOfMemory {
        return Asked::Memory;
    }
    match error.to_string(alloc) {
        Err(_) => Asked::Memory,
        Ok(text) if error.use_stderr() => Asked::Refused(text),
        Ok(text) => Asked::Answer(text),
    }
}
