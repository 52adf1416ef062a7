//! What a session keeps between messages, and what a message does to it.

ghost use Rattle.std.specs.Prelude.{◌<◌, IfSome, length};

use crate::failure::Failure;
use crate::grouping::systems_of;
use crate::opening::{OpenText, changed, opened, version_in};
use crate::parameters::{document_in, elements_in, member, text_in};
use crate::requests::{Request, answer_request};
use crate::systems::{CheckedSystem, are_names_known};
use crate::uris::path_of;
use crate::workspace::push_found;
use sc_explain_text::Lines;
use sc_source::files::Files;
use serde_json::Value;
use std::alloc::{AllocError, Global};

/// What the server can do.
const CAPABILITIES: [&str; 9] = [
    r#"{"capabilities":{"codeActionProvider":{"codeActionKinds":["quickfix"]},"completionProvider":{"triggerCharacters":["."]},"#,
    r#""definitionProvider":true,"#,
    r#""documentFormattingProvider":true,"documentSymbolProvider":true,"foldingRangeProvider":true,"hoverProvider":true,"#,
    r#""inlayHintProvider":true,"#,
    r#""positionEncoding":"utf-16","referencesProvider":true,"renameProvider":{"prepareProvider":true},"#,
    r#""semanticTokensProvider":{"full":true,"legend":{"tokenModifiers":[],"tokenTypes":["class","property","method","parameter","#,
    r#""variable","keyword","string","number","comment","operator"]}},"#,
    r#""signatureHelpProvider":{"triggerCharacters":["(",","]},"#,
    r#""textDocumentSync":{"change":2,"openClose":true},"workspaceSymbolProvider":true},"serverInfo":{"name":"scoop","version":"0.1.0"}}"#,
];

/// How far a session is.
#[derive(Clone, Copy)]
enum Phase {
    /// Before `initialize`.
    New,
    Ready,
    /// After `shutdown`.
    Down,
}

/// What a session keeps.
#[derive(Drop)]
pub struct Server {
    phase: Phase,
    /// What the editor has open.
    texts: Vec<OpenText>,
    /// The paths of the files that are one system; none if that isn't known.
    paths: Vec<String>,
    /// The systems of the open documents, as they were checked last.
    pub systems: Vec<CheckedSystem>,
}

/// What a notification leads to.
#[derive(Drop)]
pub enum Effect {
    Nothing,
    /// What is found is shown anew.
    Checked,
    /// The document with this URI is shown no more, and what is found in the others is shown anew.
    Closed(String),
    /// The session ends.
    Exit,
}

impl Server {
    /// A session before its first message.
    pub fn new(alloc: Global) -> Self {
        Server {
            phase: Phase::New,
            texts: Vec::new(alloc),
            paths: Vec::new(alloc),
            systems: Vec::new(alloc),
        }
    }

    /// Whether it was shut down.
    pub fn is_down(&self) -> bool {
        matches!(self.phase, Phase::Down)
    }

    /// Adds the result of a request.
    pub fn respond(
        &mut self,
        alloc: Global,
        lines: &mut Lines,
        method: &str,
        params: Option<&Value>,
    ) -> Result<(), Failure> {
        match self.phase {
            Phase::New if method == "initialize" => self.initialize(alloc, lines, params),
            Phase::New => Err(Failure::NotInitialized),
            Phase::Down => Err(Failure::InvalidRequest),
            Phase::Ready => self.respond_ready(alloc, lines, method, params),
        }
    }

    /// Adds the result of a request after the first one.
    fn respond_ready(
        &mut self,
        alloc: Global,
        lines: &mut Lines,
        method: &str,
        params: Option<&Value>,
    ) -> Result<(), Failure> {
        if method == "initialize" {
            return Err(Failure::InvalidRequest);
        }
        if method == "shutdown" {
            self.phase = Phase::Down;
            lines.push("null");
            return Ok(());
        }
        if method == "workspace/symbol" {
            let query = text_in(params, "query").unwrap_or("");
            push_found(alloc, lines, self.systems.as_slice(), query);
            return Ok(());
        }
        match Request::named(method) {
            Some(request) => {
                let (systems, texts) = (self.systems.as_slice(), self.texts.as_slice());
                answer_request(alloc, lines, systems, texts, request, params)
            }
            None => Err(Failure::MethodNotFound),
        }
    }

    /// Begins, and adds what the server can do.
    fn initialize(
        &mut self,
        alloc: Global,
        lines: &mut Lines,
        params: Option<&Value>,
    ) -> Result<(), Failure> {
        match paths_in(alloc, params) {
            Ok(paths) => {
                self.paths = paths;
                self.phase = Phase::Ready;
                lines.push_all(&CAPABILITIES);
                Ok(())
            }
            Err(_) => Err(Failure::OutOfMemory),
        }
    }

    /// Does what a notification says. If memory runs out, nothing is known of the open documents until the next one; and a
    /// document that couldn't be changed is open no more.
    pub fn take_notice<F: Files>(
        &mut self,
        alloc: Global,
        files: &F,
        method: &str,
        params: Option<&Value>,
    ) -> Result<Effect, AllocError> {
        if method == "exit" {
            return Ok(Effect::Exit);
        }
        let Phase::Ready = self.phase else {
            return Ok(Effect::Nothing);
        };
        let effect = match method {
            "textDocument/didOpen" => self.open(alloc, params),
            "textDocument/didChange" => self.change(alloc, params),
            "textDocument/didClose" => self.close(alloc, params),
            _ => Ok(Effect::Nothing),
        };
        if let Ok(Effect::Nothing) = &effect {
            return effect;
        }
        self.systems.clear();
        let effect = effect?;
        self.systems = systems_of(alloc, files, self.paths.as_slice(), self.texts.as_slice())?;
        Ok(effect)
    }

    /// Opens a document.
    fn open(&mut self, alloc: Global, params: Option<&Value>) -> Result<Effect, AllocError> {
        match opened(alloc, params)? {
            Some(text) => {
                self.forget(text.uri.as_str());
                self.texts.push(text)?;
                Ok(Effect::Checked)
            }
            None => Ok(Effect::Nothing),
        }
    }

    /// Changes a document.
    fn change(&mut self, alloc: Global, params: Option<&Value>) -> Result<Effect, AllocError> {
        let Some(uri) = document_in(params) else {
            return Ok(Effect::Nothing);
        };
        let changes = elements_in(params, "contentChanges");
        let Some(index) = index_of(self.texts.as_slice(), uri) else {
            return Ok(Effect::Nothing);
        };
        match changed(alloc, self.texts[index].text.as_str(), changes) {
            Ok(Some(text)) => {
                let has_known_names = are_names_known(self.systems.as_slice(), uri);
                let version = version_in(member(params, "textDocument"));
                self.texts[index].change(text, version, has_known_names);
                Ok(Effect::Checked)
            }
            Ok(None) => Ok(Effect::Nothing),
            Err(error) => {
                drop(self.texts.remove(index));
                Err(error)
            }
        }
    }

    /// Closes a document.
    fn close(&mut self, alloc: Global, params: Option<&Value>) -> Result<Effect, AllocError> {
        let Some(uri) = document_in(params) else {
            return Ok(Effect::Nothing);
        };
        self.forget(uri);
        Ok(Effect::Closed(String::from_str(alloc, uri)?))
    }

    /// Forgets all documents.
    pub fn forget_all(&mut self) {
        self.texts.clear();
        self.systems.clear();
    }

    /// Forgets the document with this URI.
    fn forget(&mut self, uri: &str) {
        if let Some(index) = index_of(self.texts.as_slice(), uri) {
            drop(self.texts.remove(index))
        }
    }
}

/// Which of the open documents has this URI, if one has.
fn index_of(texts: &[OpenText], uri: &str) -> Option<usize>
    ensures { IfSome result (λ index. index < length texts.now) }
{
    for index in 0..texts.len() {
        if texts[index].uri.as_str() == uri {
            return Some(index);
        }
    }
    None
}

/// The paths of the files of the system, as the options of `initialize` name them: by URIs, or by paths, which may begin at the
/// root.
fn paths_in(alloc: Global, params: Option<&Value>) -> Result<Vec<String>, AllocError> {
    let root = match text_in(params, "rootUri") {
        Some(uri) => path_of(alloc, uri)?,
        None => None,
    };
    let mut paths = Vec::new(alloc);
    for file in elements_in(member(params, "initializationOptions"), "files") {
        if let Some(name) = file.as_str() {
            paths.push(path_named(alloc, root.as_ref(), name)?)?
        }
    }
    Ok(paths)
}

/// The path of a file that is named by its URI, or by a path, which may begin at the root.
fn path_named(alloc: Global, root: Option<&String>, name: &str) -> Result<String, AllocError> {
    if let Some(path) = path_of(alloc, name)? {
        return Ok(path);
    }
    match root {
        Some(root) if !name.starts_with("/") => {
            let folder = root.as_str().strip_suffix("/").unwrap_or(root.as_str());
            format!(in alloc; "{folder}/{name}")
        }
        _ => String::from_str(alloc, name),
    }
}
