//! The documents that the client has open.

ghost use Rattle.std.specs.Prelude.{◌≡◌, ℕ, IfOk, List, None, OnErr, OnOk, Some, is_some, option_copied, option_map, string_bytes};
ghost use Rattle.sml_client.specs.Documents.{IsSetAt, at_path, renewed};

use sml_lex::fault::Memory;
use std::alloc::Global;
use std::collections::BTreeMap;

/// An open document: its address as the client writes it, its version where it has one, and its text.
#[derive(Drop)]
pub struct Document {
    pub uri: String,
    pub version: Option<i64>,
    pub text: Vec<u8>,
}

impl Document {
    /// A document that is opened.
    pub fn new(
        alloc: Global,
        uri: &str,
        version: Option<i64>,
        text: &str,
    ) -> Result<Document, Memory>
        ensures uri { IfOk result (λ d. string_bytes d.uri ≡ uri.now) }
        ensures version { IfOk result (λ d. d.version ≡ version) }
        ensures text { IfOk result (λ d. d.text.items ≡ text.now) }
    {
        Ok(Document {
            uri: String::from_str(alloc, uri)?,
            version,
            text: Vec::from_slice(alloc, text.as_bytes())?,
        })
    }
}

/// The open documents, by the paths of their files.
#[derive(Drop)]
pub struct Documents {
    pub open: BTreeMap<String, Document>,
}

impl Documents {
    pub fn new(alloc: Global) -> Documents
        ensures { (path : List ℕ) → at_path result path ≡ None }
    {
        Documents {
            open: BTreeMap::new(alloc),
        }
    }

    /// Opens a document.
    pub fn put(&mut self, path: String, document: Document) -> Result<(), Memory>
        ensures set { OnOk result (IsSetAt (string_bytes path) (Some document) self.old self.new) }
        ensures kept { OnErr result ((path : List ℕ) → at_path self.new path ≡ at_path self.old path) }
    {
        self.open.insert(path, document)?;
        Ok(())
    }

    /// Closes a document.
    pub fn remove(&mut self, path: &str)
        ensures { IsSetAt path.now None self.old self.new }
    {
        let _ = self.open.remove(path);
    }

    /// The document at a path, if it is open.
    pub fn get(&self, path: &str) -> Option<&Document>
        ensures { option_copied result ≡ at_path self.now path.now }
    {
        self.open.get(path)
    }

    /// Gives an open document another text, and says whether it is open.
    pub fn set(&mut self, path: &str, version: Option<i64>, text: Vec<u8>) -> bool
        ensures found { result ≡ is_some (at_path self.old path.now) }
        ensures set { IsSetAt path.now (option_map (λ d. renewed version text d) (at_path self.old path.now)) self.old self.new }
    {
        match self.open.get_mut(path) {
            Some(document) => {
                document.version = version;
                document.text = text;
                true
            }
            None => false,
        }
    }
}
