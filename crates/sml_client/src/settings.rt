//! What the client says of itself in `initialize`, and what is answered.

ghost use Rattle.std.specs.Prelude.{◌≡◌, IfOk, option_map, string_bytes};
ghost use Rattle.serde_json.specs.View.{items_view, view};
ghost use Rattle.sml_client.specs.Settings.{ArePages, Says, encoding_in, folder_uri_in, names_utf8, project_in, root_in, says_utf8, unsaid, welcome_json};

use crate::paths::{is_file, joined, path_of};
use crate::positions::Encoding;
use crate::values::{is_true_at, list_at, text_at};
use serde_json::Value;
use sml_lex::fault::Memory;
use std::alloc::Global;

/// What the client says of itself.
pub struct Settings {
    pub encoding: Encoding,
    /// The workspace's root.
    pub root: Option<String>,
    /// The project file that the client names.
    pub project: Option<String>,
    /// The address of the folder with the pages of codes.
    pub pages: Option<String>,
    /// Whether symbols can be nested.
    pub is_nested: bool,
    /// Whether the client can be asked to tell of files that change.
    pub is_watching: bool,
}

impl Drop for Settings {
    fn drop(self) {
        let Settings {
            encoding: _,
            root: _,
            project: _,
            pages: _,
            is_nested: _,
            is_watching: _,
        } = self;
    }
}

impl Settings {
    /// What holds before the client said anything.
    pub fn new() -> Settings
        ensures { result ≡ unsaid }
    {
        Settings {
            encoding: Encoding::Utf16,
            root: None,
            project: None,
            pages: None,
            is_nested: false,
            is_watching: false,
        }
    }
}

/// What the parameters of `initialize` say. A project that is named by a relative path lies in the root, or in this folder.
pub fn settings_of(alloc: Global, params: &Value, folder: &str) -> Result<Settings, Memory>
    ensures { IfOk result (λ s. Says (view params.now) folder.now s) }
{
    let root = root_of(alloc, params)?;
    let project = project_of(alloc, params, &root, folder)?;
    let pages = pages_of(alloc, params)?;
    let symbols: [&str; 4] = [
        "capabilities",
        "textDocument",
        "documentSymbol",
        "hierarchicalDocumentSymbolSupport",
    ];
    let watching: [&str; 4] = [
        "capabilities",
        "workspace",
        "didChangeWatchedFiles",
        "dynamicRegistration",
    ];
    Ok(Settings {
        encoding: encoding_of(params),
        root,
        project,
        pages,
        is_nested: is_true_at(params, &symbols),
        is_watching: is_true_at(params, &watching),
    })
}

/// UTF-8 where the client offers it.
fn encoding_of(params: &Value) -> Encoding
    ensures { result ≡ encoding_in (view params.now) }
{
    let offered = list_at(params, &["capabilities", "general", "positionEncodings"]);
    if offers_utf8(offered) {
        Encoding::Utf8
    } else {
        Encoding::Utf16
    }
}

/// Whether one of these is `utf-8`.
fn offers_utf8(list: &[Value]) -> bool
    ensures { result ≡ names_utf8 (items_view list.now) }
{
    for offered in list {
        if is_utf8(offered) {
            return true;
        }
    }
    false
}

/// Whether a value is the text `utf-8`.
fn is_utf8(value: &Value) -> bool
    ensures { result ≡ says_utf8 (view value.now) }
{
    match value.as_str() {
        Some(text) => text == "utf-8",
        None => false,
    }
}

/// The path of the workspace's root.
fn root_of(alloc: Global, params: &Value) -> Result<Option<String>, Memory>
    ensures { IfOk result (λ r. option_map string_bytes r ≡ root_in (view params.now)) }
{
    if let Some(uri) = folder_uri(params) {
        return Ok(Some(path_of(alloc, uri)?));
    }
    if let Some(uri) = text_at(params, &["rootUri"]) {
        return Ok(Some(path_of(alloc, uri)?));
    }
    match text_at(params, &["rootPath"]) {
        Some(path) => Ok(Some(joined(alloc, "", path)?)),
        None => Ok(None),
    }
}

/// The address of the first folder of the workspace.
fn folder_uri(params: &Value) -> Option<&str>
    ensures { option_map (λ t. t.now) result ≡ folder_uri_in (view params.now) }
{
    match list_at(params, &["workspaceFolders"]).first() {
        Some(first) => text_at(first, &["uri"]),
        None => None,
    }
}

/// The path of the project file that the client names.
fn project_of(
    alloc: Global,
    params: &Value,
    root: &Option<String>,
    folder: &str,
) -> Result<Option<String>, Memory>
    ensures { IfOk result (λ p. option_map string_bytes p ≡ project_in (option_map string_bytes root.now) folder.now (view params.now)) }
{
    let Some(named) = text_at(params, &["initializationOptions", "project"]) else {
        return Ok(None);
    };
    if is_file(named) {
        return Ok(Some(path_of(alloc, named)?));
    }
    let folder = match root {
        Some(root) => root.as_str(),
        None => folder,
    };
    Ok(Some(joined(alloc, folder, named)?))
}

/// The address of the folder with the pages of codes.
fn pages_of(alloc: Global, params: &Value) -> Result<Option<String>, Memory>
    ensures { IfOk result (λ p. ArePages (view params.now) (option_map string_bytes p)) }
{
    match text_at(params, &["initializationOptions", "pages"]) {
        Some(pages) => Ok(Some(String::from_str(alloc, pages.trim_end_matches('/'))?)),
        None => Ok(None),
    }
}

/// What is answered to `initialize`: what the server can do, and its name. Documents are told of when they are opened,
/// closed and saved, and whole after a change.
pub fn welcome(settings: &Settings) -> &'static [u8]
    ensures { result.now ≡ welcome_json settings.now.encoding }
{
    match settings.encoding {
        Encoding::Utf8 =>
            b"{\"capabilities\":{\"positionEncoding\":\"utf-8\",\"textDocumentSync\":{\"openClose\":true,\"change\":1,\"save\":true},\"hoverProvider\":true,\"documentSymbolProvider\":true},\"serverInfo\":{\"name\":\"smlserve\",\"version\":\"1\"}}",
        Encoding::Utf16 =>
            b"{\"capabilities\":{\"positionEncoding\":\"utf-16\",\"textDocumentSync\":{\"openClose\":true,\"change\":1,\"save\":true},\"hoverProvider\":true,\"documentSymbolProvider\":true},\"serverInfo\":{\"name\":\"smlserve\",\"version\":\"1\"}}",
    }
}
