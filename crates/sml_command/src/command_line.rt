//! The command line: its switches, its help, and what it asks for.

ghost use Rattle.std.specs.Prelude.{◌≡◌, ◌⊎◌, IfErr, IfOk, false, map};
ghost use Rattle.std.specs.String.{string_bytes};
ghost use Rattle.clap.specs.Simple.{app_of};
ghost use Rattle.clap.specs.Values.{kind_of};
ghost use Rattle.clap.specs.declared.error.kind.ErrorKind.TheVariants.{OutOfMemory};
ghost use Rattle.sml_command.specs.declared.command_line.Asked.TheVariants as Asked;
ghost use Rattle.clap.specs.Walk.{rule_of};
ghost use Rattle.clap.specs.declared.builder.value_parser.ValueParser.{ValueParser};
ghost use Rattle.sml_command.specs.CommandLine.{AreVersions, Ask, HaveFault, IsFound, IsRequestOf, IsSaid, IsSmlcheck, project_rule, reply_rule, then_rule, warnings_rule};

use clap::builder::ValueParser;
use clap::error::ErrorKind;
use clap::{Arg, ArgAction, ArgMatches, Command, Error};
use sml_reply::form::{Form, Version};
use std::alloc::{AllocError, Global};

/// What a command line asks for: a form of replies, a project, and another one that is checked again after it.
#[derive(Drop)]
pub struct Request {
    pub form: Form,
    pub project: String,
    pub then: Option<String>,
}

/// What is to be done about the words of a command line.
#[derive(Drop)]
pub enum Asked {
    /// Check this.
    Check(Request),
    /// Print this text, the help.
    Help(String),
    /// Print this text, which says what is wrong with the words.
    Refused(String),
    /// Memory was refused.
    Memory,
}

/// What the help says after the switches.
const AFTER_HELP: &str =
    "Each unit NAME is the text of FILE, which lies beside the project file, and sees what
the units NEED .. declare:
  unit tools tools.sml
  unit main main.sml tools

The reply to a declaration is what it binds, or one fault:
  1 ok
    val x : int
  2 fault U1 1.9 types clash
A fault has a code, and a line and a column counted from the declaration's first
token. docs/CODES.md has an example and a cure for each code.

Status: 0, no declaration was refused; 1, some was; 2, the command line or the
project file has a fault (docs/PROJECT.md); 3, a file, the output or memory
failed.";

/// The versions of replies by their numbers.
const VERSIONS: [&str; 2] = ["1", "2"];

fn warnings_switch<'a>(alloc: Global) -> Arg<'a>
    ensures rule { rule_of result ≡ warnings_rule }
    ensures local { result.global ≡ false }
{
    Arg::new(alloc, "warnings")
        .long("warnings")
        .help("Prints the warnings of accepted declarations")
        .action(ArgAction::SetTrue)
}

fn reply_switch<'a>(alloc: Global) -> Arg<'a>
    ensures rule { (versions : ValueParser) × AreVersions versions × (rule_of result ≡ reply_rule versions) }
    ensures local { result.global ≡ false }
{
    Arg::new(alloc, "reply")
        .long("reply")
        .value_name("N")
        .help("The version of the replies: in 2, abstract types print as their paths")
        .value_parser(ValueParser::Names(VERSIONS.as_slice()))
        .default_value("1")
        .action(ArgAction::Set)
}

fn then_switch<'a>(alloc: Global) -> Arg<'a>
    ensures rule { rule_of result ≡ then_rule }
    ensures local { result.global ≡ false }
{
    Arg::new(alloc, "then")
        .long("then")
        .value_name("SECOND")
        .help(
            "A project file that is checked after PROJECT, with what didn't change; its replies alone are printed",
        )
        .action(ArgAction::Set)
}

fn project_word<'a>(alloc: Global) -> Arg<'a>
    ensures rule { rule_of result ≡ project_rule }
    ensures local { result.global ≡ false }
{
    Arg::new(alloc, "PROJECT")
        .help("A project file: a line `unit NAME FILE NEED ..` for each unit")
        .required(true)
        .action(ArgAction::Set)
}

fn command<'a>(alloc: Global) -> Result<Command<'a>, AllocError>
    ensures { IfOk result (λ c. IsSmlcheck (app_of c)) }
{
    Command::new(alloc, "smlcheck")
        .about("Checks the declarations of Standard ML units")
        .after_help(AFTER_HELP)
        .arg(warnings_switch(alloc))?
        .arg(reply_switch(alloc))?
        .arg(then_switch(alloc))?
        .arg(project_word(alloc))
}

/// What the words of a command line ask for. The first word is the program's own name.
pub fn asked_by(alloc: Global, words: &[String]) -> Asked
    ensures { Ask (map string_bytes words.now) result }
{
    match requested(alloc, words) {
        Ok(request) => Asked::Check(request),
        Err(error) => refused(alloc, &error),
    }
}

/// The command line, as `clap` reads it.
fn requested(alloc: Global, words: &[String]) -> Result<Request, Error>
    ensures request { IfOk result (IsRequestOf (map string_bytes words.now)) }
    ensures fault { IfErr result (λ e. (kind_of e ≡ OutOfMemory) ⊎ HaveFault (map string_bytes words.now) (kind_of e)) }
{
    let matches = command(alloc)?.try_get_matches_from(words)?;
    Ok(request_of(alloc, &matches)?)
}

fn request_of(alloc: Global, matches: &ArgMatches) -> Result<Request, AllocError>
    ensures { IfOk result (IsFound matches.now) }
{
    let version = if matches.get_str("reply") == Some("2") {
        Version::Two
    } else {
        Version::One
    };
    let then = match matches.get_str("then") {
        Some(path) => Some(String::from_str(alloc, path)?),
        None => None,
    };
    let path = matches.get_str("PROJECT").unwrap_or("");
    Ok(Request {
        form: Form {
            version,
            warnings: matches.get_flag("warnings"),
        },
        project: String::from_str(alloc, path)?,
        then,
    })
}

/// What `clap` says of the command line: its help, or its fault.
fn refused(alloc: Global, error: &Error) -> Asked
    ensures said { IsSaid (kind_of error.now) result }
    ensures memory { kind_of error.now ≡ OutOfMemory → result ≡ Asked.Memory }
{
    if error.kind() == ErrorKind::OutOfMemory {
        return Asked::Memory;
    }
    match error.to_string(alloc) {
        Err(_) => Asked::Memory,
        Ok(text) if error.use_stderr() => Asked::Refused(text),
        Ok(text) => Asked::Help(text),
    }
}
