//! A command line without any word, which a system gives no program.

use crate::tests::fakes::{Files, ask};
use std::test::Fail;

const NO_PROJECT: &[u8] = b"error: the following required arguments were not provided:
  <PROJECT>

Usage: smlcheck <PROJECT>

For more information, try '--help'.
";

#[test]
fn no_words(rt: HostRuntime) -> Result<(), Fail> {
    let alloc = rt.alloc();
    let mut files = Files::new(alloc, b"", b"", None)?;
    ask(alloc, &[], &mut files)?.expect(&rt, 2, b"", NO_PROJECT);
    Ok(())
}
