//! The command line: what is asked for beside serving.

ghost use Rattle.std.specs.Prelude.{◌≡◌, drop, map, string_bytes};
ghost use Rattle.sml_client.specs.Commands.{IsAskedBy, IsAskedFor, asks_help, asks_version, other_word};

/// What the words of a command line ask for.
#[derive(Clone, Copy)]
pub enum Asked {
    /// Serve a client.
    Serve,
    /// Print this text, the help or the version.
    Answer(&'static [u8]),
    /// Print this text, which says what is wrong with the words.
    Refused(&'static [u8]),
}

/// What is printed for `--help`.
const HELP: &[u8] = b"Serves editors by the Language Server Protocol over standard input and output

Usage: smlserve [--stdio]

Options:
      --stdio    Changes nothing; some editors give it
  -h, --help     Print help
  -V, --version  Print version

The project is the file that the editor names in its option `project`, or the
only file *.project in the workspace's root; where there is none, each open
document is checked by itself.

Status: 0, the editor ended the session; 1, it did so without `shutdown`; 2,
the command line has a fault; 3, input ended, or input, output or memory failed.
";

/// What is printed for `--version`.
const VERSION: &[u8] = b"smlserve 1\n";

/// What is printed for other words.
const USAGE: &[u8] = b"usage: smlserve [--stdio]\n";

/// What the words of a command line ask for. The first word is the program's own name.
pub fn asked_by(words: &[String]) -> Asked
    ensures { IsAskedBy (other_word (map string_bytes (drop 1 words.now))) result }
{
    asked_in(words.get(1..).unwrap_or(&[]))
}

/// What these words ask for.
fn asked_in(words: &[String]) -> Asked
    ensures { IsAskedBy (other_word (map string_bytes words.now)) result }
{
    for word in words {
        if word.as_str() != "--stdio" {
            return asked_for(word.as_str());
        }
    }
    Asked::Serve
}

/// What a word asks for that is not `--stdio`.
fn asked_for(word: &str) -> Asked
    ensures { IsAskedFor word.now result }
{
    if asks_help(word) {
        Asked::Answer(HELP)
    } else if asks_version(word) {
        Asked::Answer(VERSION)
    } else {
        Asked::Refused(USAGE)
    }
}

/// Whether a word asks for the help.
fn asks_help(word: &str) -> bool
    ensures { result ≡ asks_help word.now }
{
    word == "-h" || word == "--help"
}

/// Whether a word asks for the version.
fn asks_version(word: &str) -> bool
    ensures { result ≡ asks_version word.now }
{
    word == "-V" || word == "--version"
}
