//! Which files a session asks for, and sources that fail.

use crate::session::SourceFault;
use crate::tests::fakes::{Files, ask};
use std::test::Fail;

/// The path of a project, its line, and the paths that are asked for.
const PATHS: [(&str, &str, &str); 9] = [
    ("project", "unit a a.sml", "project\na.sml\n"),
    ("./project", "unit a a.sml", "./project\n./a.sml\n"),
    ("/project", "unit a a.sml", "/project\n/a.sml\n"),
    ("b/c/project", "unit a a.sml", "b/c/project\nb/c/a.sml\n"),
    (
        "b/c/project",
        "unit a d/a.sml",
        "b/c/project\nb/c/d/a.sml\n",
    ),
    (
        "b/c/project",
        "unit a ../a.sml",
        "b/c/project\nb/c/../a.sml\n",
    ),
    ("b/c/project", "unit a /a.sml", "b/c/project\n/a.sml\n"),
    ("b//project", "unit a a.sml", "b//project\nb//a.sml\n"),
    ("b/project", "unit a ~!\"#", "b/project\nb/~!\"#\n"),
];

#[test]
fn paths_of_units(rt: HostRuntime) -> Result<(), Fail> {
    let alloc = rt.alloc();
    for (project, line, paths) in PATHS {
        let mut files = Files::new(alloc, line.as_bytes(), b"", None)?;
        ask(alloc, &["smlcheck", project], &mut files)?.expect(&rt, 0, b"unit a\n", b"");
        assert_eq!(rt; files.paths.as_str(), paths);
    }
    Ok(())
}

/// The path of a project, its text, the fault of the files beside it, the status and the standard error that are wanted, and
/// the paths that are asked for. A file that can't be read is named as it was written, and a faulty project file is answered
/// before any unit is asked for.
const FAULTS: [(&str, &[u8], SourceFault, u8, &[u8], &str); 5] = [
    (
        "b/project",
        b"unit a c/a.sml\n",
        SourceFault::Unreadable,
        3,
        b"smlcheck: cannot read c/a.sml\n",
        "b/project\nb/c/a.sml\n",
    ),
    (
        "b/other",
        b"",
        SourceFault::Unreadable,
        3,
        b"smlcheck: cannot read b/other\n",
        "b/other\n",
    ),
    (
        "project",
        b"unit a a.sml\n",
        SourceFault::Memory,
        3,
        b"smlcheck: out of memory\n",
        "project\na.sml\n",
    ),
    (
        "other",
        b"",
        SourceFault::Memory,
        3,
        b"smlcheck: out of memory\n",
        "other\n",
    ),
    (
        "project",
        b"unit a a.sml\nunit\n",
        SourceFault::Unreadable,
        2,
        b"smlcheck: O4 line 2\n",
        "project\n",
    ),
];

#[test]
fn sources_that_fail(rt: HostRuntime) -> Result<(), Fail> {
    let alloc = rt.alloc();
    for (path, project, fault, status, err, paths) in FAULTS {
        let mut files = Files::new(alloc, project, b"", Some(fault))?;
        ask(alloc, &["smlcheck", path], &mut files)?.expect(&rt, status, b"", err);
        assert_eq!(rt; files.paths.as_str(), paths);
    }
    Ok(())
}

/// A source that gives more bytes than it was asked for.
#[test]
fn projects_longer_than_asked_for(rt: HostRuntime) -> Result<(), Fail> {
    let alloc = rt.alloc();
    let mut files = Files::new(alloc, b"unit a a.sml\n", b"", None)?;
    for _ in 0..2_000_000 {
        files.project.push(b'\n')?;
    }
    let err = b"smlcheck: O4 line 1\n";
    ask(alloc, &["smlcheck", "project"], &mut files)?.expect(&rt, 2, b"", err);
    Ok(())
}
