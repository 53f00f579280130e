//! What the client is told of what is checked.

ghost use Rattle.std.specs.Prelude.{OnOk};
ghost use Rattle.sml_client.specs.Answers.{OnlyTells};

use crate::board::{Board, View};
use crate::diagnostics::{Desk, address, trouble_text};
use crate::files::Overlay;
use crate::works::Work;
use sml_client::published::{Published, params_text};
use sml_lex::fault::Memory;
use sml_reply::sink::VecOut;
use sml_session::session::Source;

/// One byte more than the greatest project file has.
const MOST_BYTES: usize = 1_048_577;

/// What is told of: what the client said and has open, and the paths of which it is told in any case.
#[derive(Clone, Copy)]
pub struct Telling<'a> {
    pub view: View<'a>,
    pub touched: &'a [String],
}

impl Telling<'_> {
    /// Tells of all files that are checked.
    pub fn all<S: Source>(
        &self,
        board: &Board,
        files: &mut S,
        published: &mut Published,
        out: &mut VecOut,
    ) -> Result<(), Memory>
        ensures { OnOk result (OnlyTells out.old.bytes.items out.new.bytes.items) }
    {
        published.begin();
        self.work(&board.work, published, out)?;
        for work in board.singles.values() {
            self.work(work, published, out)?;
        }
        self.project(board, files, published, out)?;
        published.end(self.view.alloc, out)
    }

    /// Tells of the files of a project.
    fn work(&self, work: &Work, published: &mut Published, out: &mut VecOut) -> Result<(), Memory>
        ensures { OnOk result (OnlyTells out.old.bytes.items out.new.bytes.items) }
    {
        for (place, first) in work.firsts.iter().enumerate() {
            if *first == place {
                self.unit(work, place, published, out)?;
            }
        }
        Ok(())
    }

    /// Tells of the file of the unit at a place, the first one with it.
    pub fn unit(
        &self,
        work: &Work,
        place: usize,
        published: &mut Published,
        out: &mut VecOut,
    ) -> Result<(), Memory>
        ensures { OnOk result (OnlyTells out.old.bytes.items out.new.bytes.items) }
    {
        let desk = Desk {
            view: self.view,
            work,
        };
        let list = desk.list(place)?;
        self.file(desk.path(place), &list, published, out)
    }

    /// Tells of the diagnostics of a file.
    fn file(
        &self,
        path: &str,
        list: &[u8],
        published: &mut Published,
        out: &mut VecOut,
    ) -> Result<(), Memory>
        ensures { OnOk result (OnlyTells out.old.bytes.items out.new.bytes.items) }
    {
        let view = self.view;
        let version = match view.documents.get(path) {
            Some(document) => document.version,
            None => None,
        };
        let uri = address(view.alloc, view.documents, path)?;
        let params = params_text(view.alloc, &uri, version, list)?;
        let is_needed = self.is_touched(path);
        published.tell(view.alloc, uri, params, list.is_empty(), is_needed, out)
    }

    /// Whether something of a path changed.
    fn is_touched(&self, path: &str) -> bool {
        for other in self.touched {
            if other.as_str() == path {
                return true;
            }
        }
        false
    }

    /// Tells of the project file, if something is wrong with it or was.
    fn project<S: Source>(
        &self,
        board: &Board,
        files: &mut S,
        published: &mut Published,
        out: &mut VecOut,
    ) -> Result<(), Memory>
        ensures { OnOk result (OnlyTells out.old.bytes.items out.new.bytes.items) }
    {
        let (Some(path), Some(trouble)) = (&board.path, &board.trouble) else {
            return Ok(());
        };
        let view = self.view;
        let mut overlay = Overlay::new(view.documents, files);
        let text = match overlay.read(view.alloc, path, MOST_BYTES) {
            Ok(text) => trouble_text(view, &text, trouble)?,
            Err(_) => trouble_text(view, &[], trouble)?,
        };
        self.file(path, &text, published, out)
    }
}
