//! What each message does, and what is answered to it.

ghost use Rattle.std.specs.Prelude.{◌≤◌, OnOk};
ghost use Rattle.serde_json.specs.Data.{depth};
ghost use Rattle.serde_json.specs.Read.{max_depth};
ghost use Rattle.serde_json.specs.View.{view};
ghost use Rattle.sml_client.specs.Answers.{AnswersOnce, OnlyTells};

use crate::board::{Board, View};
use crate::files::Folders;
use crate::findings::Answered;
use crate::hover::{NOTHING, hover};
use crate::symbols::symbols;
use crate::telling::Telling;
use serde_json::Value;
use sml_client::documents::{Document, Documents};
use sml_client::frames::Frame;
use sml_client::messages::{Call, Wrong, call_of, send_error, send_result, send_watch};
use sml_client::paths::path_of;
use sml_client::positions::Position;
use sml_client::published::Published;
use sml_client::settings::{Settings, settings_of, welcome};
use sml_client::values::{list_at, number_at, text_at, value_at};
use sml_client::written::Text;
use sml_lex::fault::Memory;
use sml_reply::sink::VecOut;
use sml_session::session::Source;
use std::alloc::Global;

/// The status of `exit` after `shutdown`.
const ENDED: u8 = 0;

/// The status of `exit` without `shutdown`.
const BROKEN_OFF: u8 = 1;

/// How far a session has come.
#[derive(Clone, Copy)]
enum Phase {
    Fresh,
    Ready,
    Shut,
}

/// A server: what the client said, its documents, what is checked, and what the client was told.
pub struct Server {
    pub alloc: Global,
    folder: String,
    phase: Phase,
    settings: Settings,
    documents: Documents,
    board: Board,
    published: Published,
    /// Whether the project file was looked for.
    is_loaded: bool,
    /// Whether all has to be read again.
    is_stale: bool,
    /// The paths of which something changed.
    touched: Vec<String>,
    /// Whether what changed was taken over, and not all of it is checked yet.
    is_begun: bool,
}

impl Drop for Server {
    fn drop(self) {
        let Server {
            alloc: _,
            folder: _,
            phase: _,
            settings: _,
            documents: _,
            board: _,
            published: _,
            is_loaded: _,
            is_stale: _,
            touched: _,
            is_begun: _,
        } = self;
    }
}

impl Server {
    /// A server to which no message came yet. Relative paths lie in this folder where the client names no root.
    pub fn new(alloc: Global, folder: &str) -> Result<Server, Memory> {
        let board = Board::new(alloc)?;
        Ok(Server {
            alloc,
            folder: String::from_str(alloc, folder)?,
            phase: Phase::Fresh,
            settings: Settings::new(),
            documents: Documents::new(alloc),
            board,
            published: Published::new(alloc),
            is_loaded: false,
            is_stale: false,
            touched: Vec::new(alloc),
            is_begun: false,
        })
    }

    /// Takes a frame, and answers it. A status ends the session.
    pub fn take<S: Source + Folders>(
        &mut self,
        frame: &Frame,
        files: &mut S,
        out: &mut VecOut,
    ) -> Result<Option<u8>, Memory> {
        match frame {
            Frame::Body(body) => self.take_body(body, files, out),
            Frame::NoLength => self.refuse(Wrong::NoLength, out),
            Frame::TooLarge => self.refuse(Wrong::TooLarge, out),
            Frame::Ended | Frame::CutOff => Ok(Some(BROKEN_OFF)),
        }
    }

    /// Takes the body of a frame.
    fn take_body<S: Source + Folders>(
        &mut self,
        body: &[u8],
        files: &mut S,
        out: &mut VecOut,
    ) -> Result<Option<u8>, Memory> {
        match Value::from_slice(self.alloc, body) {
            Ok(message) => self.message(&message, files, out),
            Err(error) if error.is_memory() => Err(Memory),
            Err(_) => self.refuse(Wrong::NoJson, out),
        }
    }

    /// Answers what has no id.
    fn refuse(&self, wrong: Wrong, out: &mut VecOut) -> Result<Option<u8>, Memory> {
        send_error(self.alloc, &Value::Null, wrong, out)?;
        Ok(None)
    }

    /// Takes a message.
    fn message<S: Source + Folders>(
        &mut self,
        message: &Value,
        files: &mut S,
        out: &mut VecOut,
    ) -> Result<Option<u8>, Memory> {
        match call_of(message, &Value::Null) {
            Call::Request(id, method, params) => {
                self.request(id, method, params, files, out)?;
                Ok(None)
            }
            Call::Notification("exit", _) => Ok(Some(self.exit_status())),
            Call::Notification(method, params) => {
                self.notice(method, params, out)?;
                Ok(None)
            }
            Call::Answer => Ok(None),
            Call::Other => self.refuse(Wrong::NoRequest, out),
        }
    }

    /// The status with which the session ends.
    fn exit_status(&self) -> u8 {
        match self.phase {
            Phase::Shut => ENDED,
            Phase::Fresh | Phase::Ready => BROKEN_OFF,
        }
    }

    /// Answers a request, once.
    fn request<S: Source + Folders>(
        &mut self,
        id: &Value,
        method: &str,
        params: &Value,
        files: &mut S,
        out: &mut VecOut,
    ) -> Result<(), Memory>
        ensures { depth (view id.now) ≤ max_depth → OnOk result (AnswersOnce (view id.now) out.old.bytes.items out.new.bytes.items) }
    {
        if is_of_texts(method) {
            self.settle(files, out)?;
        }
        let mut text = Text::new(self.alloc);
        match self.answer_to(method, params, &mut text) {
            Ok(_) => send_result(self.alloc, id, &text.finish()?, out),
            Err(wrong) => send_error(self.alloc, id, wrong, out),
        }
    }

    /// Adds what a request is answered, as JSON, if that isn't an error.
    fn answer_to(&mut self, method: &str, params: &Value, text: &mut Text) -> Result<(), Wrong> {
        match self.phase {
            Phase::Fresh if method == "initialize" => self.initialize(params, text),
            Phase::Fresh => Err(Wrong::TooEarly),
            Phase::Shut => Err(Wrong::NoRequest),
            Phase::Ready => match method {
                "initialize" => Err(Wrong::NoRequest),
                "shutdown" => self.shut_down(text),
                "textDocument/hover" => self.hover(params, text),
                "textDocument/documentSymbol" => self.symbols(params, text),
                _ => Err(Wrong::NoMethod),
            },
        }
    }

    /// Answers `initialize`.
    fn initialize(&mut self, params: &Value, text: &mut Text) -> Result<(), Wrong> {
        match settings_of(self.alloc, params, &self.folder) {
            Ok(settings) => self.settings = settings,
            Err(_) => text.lose(),
        }
        self.phase = Phase::Ready;
        text.push(welcome(&self.settings));
        Ok(())
    }

    /// Answers `shutdown`.
    fn shut_down(&mut self, text: &mut Text) -> Result<(), Wrong> {
        self.phase = Phase::Shut;
        text.push(NOTHING);
        Ok(())
    }

    /// Adds what is shown at a position.
    fn hover(&self, params: &Value, text: &mut Text) -> Result<(), Wrong> {
        let Some((uri, position)) = position_in(params) else {
            return Err(Wrong::NoParams);
        };
        match self.answered(uri) {
            Ok(Some(answered)) => {
                if hover(self.alloc, answered, position, text).is_err() {
                    text.lose();
                }
            }
            Ok(None) => text.push(NOTHING),
            Err(_) => text.lose(),
        }
        Ok(())
    }

    /// Adds the symbols of a document.
    fn symbols(&self, params: &Value, text: &mut Text) -> Result<(), Wrong> {
        let Some(uri) = text_at(params, &["textDocument", "uri"]) else {
            return Err(Wrong::NoParams);
        };
        match self.answered(uri) {
            Ok(Some(answered)) => {
                if symbols(self.alloc, answered, uri, self.settings.is_nested, text).is_err() {
                    text.lose();
                }
            }
            Ok(None) => text.push(NOTHING),
            Err(_) => text.lose(),
        }
        Ok(())
    }

    /// The unit of a document with this address as it was answered.
    fn answered(&self, uri: &str) -> Result<Option<Answered<'_>>, Memory> {
        let path = path_of(self.alloc, uri)?;
        Ok(self.board.answered(&path, self.settings.encoding))
    }

    /// Takes a notification. Before `initialize` and after `shutdown` it is passed over.
    fn notice(&mut self, method: &str, params: &Value, out: &mut VecOut) -> Result<(), Memory> {
        match self.phase {
            Phase::Ready => self.take_notice(method, params, out),
            Phase::Fresh | Phase::Shut => Ok(()),
        }
    }

    fn take_notice(
        &mut self,
        method: &str,
        params: &Value,
        out: &mut VecOut,
    ) -> Result<(), Memory> {
        match method {
            "initialized" => {
                self.is_stale = true;
                if self.settings.is_watching {
                    send_watch(out)
                } else {
                    Ok(())
                }
            }
            "textDocument/didOpen" => self.did_open(params),
            "textDocument/didChange" => self.did_change(params),
            "textDocument/didClose" => self.did_close(params),
            "textDocument/didSave" | "workspace/didChangeWatchedFiles" => {
                self.is_stale = true;
                Ok(())
            }
            _ => Ok(()),
        }
    }

    /// Notes that something of a path changed.
    fn touch(&mut self, path: String) -> Result<(), Memory> {
        self.touched.push(path)?;
        Ok(())
    }

    /// Opens a document.
    fn did_open(&mut self, params: &Value) -> Result<(), Memory> {
        let Some(uri) = text_at(params, &["textDocument", "uri"]) else {
            return Ok(());
        };
        let Some(text) = text_at(params, &["textDocument", "text"]) else {
            return Ok(());
        };
        let document = Document::new(self.alloc, uri, version_of(params), text)?;
        self.documents.put(path_of(self.alloc, uri)?, document)?;
        self.touch(path_of(self.alloc, uri)?)
    }

    /// Takes over the whole text of a document.
    fn did_change(&mut self, params: &Value) -> Result<(), Memory> {
        let Some(uri) = text_at(params, &["textDocument", "uri"]) else {
            return Ok(());
        };
        let Some(text) = last_text(params) else {
            return Ok(());
        };
        let path = path_of(self.alloc, uri)?;
        if self.set_text(&path, version_of(params), text)? {
            self.touch(path)
        } else {
            Ok(())
        }
    }

    /// Gives an open document another text, and says whether it is open.
    fn set_text(&mut self, path: &str, version: Option<i64>, text: &str) -> Result<bool, Memory> {
        let text = Vec::from_slice(self.alloc, text.as_bytes())?;
        Ok(self.documents.set(path, version, text))
    }

    /// Closes a document.
    fn did_close(&mut self, params: &Value) -> Result<(), Memory> {
        let Some(uri) = text_at(params, &["textDocument", "uri"]) else {
            return Ok(());
        };
        let path = path_of(self.alloc, uri)?;
        self.documents.remove(&path);
        self.touch(path)
    }

    /// Whether something changed that isn't taken over yet.
    fn is_due(&self) -> bool {
        match self.phase {
            Phase::Ready => self.is_stale || !self.touched.is_empty(),
            Phase::Fresh | Phase::Shut => false,
        }
    }

    /// Takes over what changed. Where that is the text of one unit, the units up to it are checked, and the client is told of
    /// its file before the others are.
    pub fn begin<S: Source + Folders>(
        &mut self,
        files: &mut S,
        out: &mut VecOut,
    ) -> Result<(), Memory>
        ensures { OnOk result (OnlyTells out.old.bytes.items out.new.bytes.items) }
    {
        if self.is_begun || !self.is_due() {
            return Ok(());
        }
        self.take_over(files)?;
        self.is_begun = true;
        match self.only_unit() {
            Some(place) => self.tell_first(place, out),
            None => Ok(()),
        }
    }

    /// Takes over the texts that changed.
    fn take_over<S: Source + Folders>(&mut self, files: &mut S) -> Result<(), Memory> {
        if !self.is_loaded {
            self.is_loaded = true;
            self.is_stale = true;
        }
        let view = View {
            alloc: self.alloc,
            settings: &self.settings,
            documents: &self.documents,
        };
        if !self.is_stale {
            self.is_stale = self.board.touch_all(view, files, &self.touched)?;
        }
        if self.is_stale {
            self.board.reload(view, files)?;
        }
        Ok(())
    }

    /// The place of the first unit of the project's whose text changed, if nothing else did.
    fn only_unit(&self) -> Option<usize> {
        match self.touched.as_slice() {
            [path] if !self.is_stale => self.board.work.place_of(path),
            _ => None,
        }
    }

    /// Checks the units up to the last one with the file of the unit at a place, and tells the client of that file.
    fn tell_first(&mut self, place: usize, out: &mut VecOut) -> Result<(), Memory>
        ensures { OnOk result (OnlyTells out.old.bytes.items out.new.bytes.items) }
    {
        let work = &mut self.board.work;
        let end = work.end_of(place);
        work.renew_to(self.alloc, self.settings.encoding, end)?;
        let view = View {
            alloc: self.alloc,
            settings: &self.settings,
            documents: &self.documents,
        };
        let telling = Telling {
            view,
            touched: self.touched.as_slice(),
        };
        telling.unit(&self.board.work, place, &mut self.published, out)?;
        self.touched = Vec::new(self.alloc);
        Ok(())
    }

    /// Checks again what changed, and tells the client what is found.
    pub fn settle<S: Source + Folders>(
        &mut self,
        files: &mut S,
        out: &mut VecOut,
    ) -> Result<(), Memory>
        ensures { OnOk result (OnlyTells out.old.bytes.items out.new.bytes.items) }
    {
        self.begin(files, out)?;
        if !self.is_begun {
            return Ok(());
        }
        let view = View {
            alloc: self.alloc,
            settings: &self.settings,
            documents: &self.documents,
        };
        self.board.renew(view)?;
        let telling = Telling {
            view,
            touched: self.touched.as_slice(),
        };
        telling.all(&self.board, files, &mut self.published, out)?;
        self.is_begun = false;
        self.is_stale = false;
        self.touched = Vec::new(self.alloc);
        Ok(())
    }
}

/// Whether a request asks about a text, which is checked before.
fn is_of_texts(method: &str) -> bool {
    method == "textDocument/hover" || method == "textDocument/documentSymbol"
}

/// The document and the position that a request asks about.
fn position_in(params: &Value) -> Option<(&str, Position)> {
    let uri = text_at(params, &["textDocument", "uri"])?;
    let line = number_at(params, &["position", "line"])?;
    let character = number_at(params, &["position", "character"])?;
    Some((uri, Position { line, character }))
}

/// The version of a document.
fn version_of(params: &Value) -> Option<i64> {
    value_at(params, &["textDocument", "version"])?.as_i64()
}

/// The whole text of a document after its last change.
fn last_text(params: &Value) -> Option<&str> {
    let last = list_at(params, &["contentChanges"]).last()?;
    if last.get("range").is_some() {
        return None;
    }
    text_at(last, &["text"])
}
