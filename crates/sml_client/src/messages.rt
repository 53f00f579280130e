//! Messages of JSON-RPC: what comes, and what is answered.

ghost use Rattle.std.specs.Prelude.{◌≡◌, ◌≤◌, ◌++◌, ℕ, List, None, OnOk, codes, map};
ghost use Rattle.serde_json.specs.Data.{Data, depth};
ghost use Rattle.serde_json.specs.Find.{get};
ghost use Rattle.serde_json.specs.Read.{max_depth};
ghost use Rattle.serde_json.specs.View.{view};
ghost use Rattle.sml_reply.specs.Sinks.{in_turn};
ghost use Rattle.sml_client.specs.Answers.{IsAnswered, message, notice, watch_json};
ghost use Rattle.sml_client.specs.Values.{IsCallOf, can_be_id};

use crate::frames::write_frame;
use serde_json::Value;
use sml_lex::fault::Memory;
use sml_reply::sink::{VecOut, write_each};
use std::alloc::Global;

/// What is wrong with a message.
#[derive(Clone, Copy)]
pub enum Wrong {
    /// It is no JSON.
    NoJson,
    /// It is no message of JSON-RPC, or comes after `shutdown`.
    NoRequest,
    /// Its head tells no length.
    NoLength,
    /// It is over the limit.
    TooLarge,
    /// Nobody knows its method.
    NoMethod,
    /// Its parameters have another form.
    NoParams,
    /// It comes before `initialize`.
    TooEarly,
}

/// The error that is answered, as JSON.
fn error_text(wrong: Wrong) -> &'static [u8] {
    match wrong {
        Wrong::NoJson => b"{\"code\":-32700,\"message\":\"no JSON\"}",
        Wrong::NoLength => b"{\"code\":-32700,\"message\":\"a head without Content-Length\"}",
        Wrong::NoRequest => b"{\"code\":-32600,\"message\":\"no request that can be answered\"}",
        Wrong::TooLarge => b"{\"code\":-32600,\"message\":\"a message over 16 MiB\"}",
        Wrong::NoMethod => b"{\"code\":-32601,\"message\":\"no such method\"}",
        Wrong::NoParams => b"{\"code\":-32602,\"message\":\"parameters of another form\"}",
        Wrong::TooEarly => b"{\"code\":-32002,\"message\":\"not initialized\"}",
    }
}

/// What a message is.
#[derive(Clone, Copy)]
pub enum Call<'a> {
    /// A request: its id, its method, and its parameters.
    Request(&'a Value, &'a str, &'a Value),
    /// A notification: its method and its parameters.
    Notification(&'a str, &'a Value),
    /// An answer to a request of the server.
    Answer,
    /// Something else.
    Other,
}

/// What a message asks for. Where it has no parameters, these are none of the other's members.
pub fn call_of<'a>(message: &'a Value, none: &'a Value) -> Call<'a>
    ensures { IsCallOf (view message.now) (view none.now) result }
{
    let params = message.get("params").unwrap_or(none);
    let Some(method) = message.get("method") else {
        return other_call(message);
    };
    let Some(method) = method.as_str() else {
        return Call::Other;
    };
    match message.get("id") {
        None => Call::Notification(method, params),
        Some(id) if is_id(id) => Call::Request(id, method, params),
        Some(_) => Call::Other,
    }
}

/// A message without a method: an answer, or something else.
fn other_call<'a>(message: &Value) -> Call<'a>
    ensures { (none : Data) → get (codes "method") (view message.now) ≡ None → IsCallOf (view message.now) none result }
{
    if message.get("result").is_some() || message.get("error").is_some() {
        Call::Answer
    } else {
        Call::Other
    }
}

/// Whether a value can be the id of a request.
fn is_id(value: &Value) -> bool
    ensures { result ≡ can_be_id (view value.now) }
{
    value.is_string() || value.is_number() || value.is_null()
}

/// Writes a message.
fn send(alloc: Global, parts: &[&[u8]], out: &mut VecOut) -> Result<(), Memory>
    ensures { OnOk result (out.new.bytes.items ≡ out.old.bytes.items ++ message (in_turn (map (λ p. p.now) parts.now))) }
{
    let mut body = VecOut::new(alloc);
    match write_each(&mut body, parts) {
        Ok(_) => write(body.bytes(), out),
        Err(_) => Err(Memory),
    }
}

/// Writes a message with this body.
fn write(body: &[u8], out: &mut VecOut) -> Result<(), Memory>
    ensures { OnOk result (out.new.bytes.items ≡ out.old.bytes.items ++ message body.now) }
{
    match write_frame(out, body) {
        Ok(_) => Ok(()),
        Err(_) => Err(Memory),
    }
}

/// Answers a request with a result or an error, as its name is, which is JSON.
fn answer(
    alloc: Global,
    id: &Value,
    name: &[u8],
    given: &[u8],
    out: &mut VecOut,
) -> Result<(), Memory>
    ensures { depth (view id.now) ≤ max_depth → OnOk result (IsAnswered (view id.now) name.now given.now out.old.bytes.items out.new.bytes.items) }
{
    let id = id.to_vec(alloc)?;
    let parts: [&[u8]; 7] = [
        b"{\"jsonrpc\":\"2.0\",\"id\":",
        &id,
        b",\"",
        name,
        b"\":",
        given,
        b"}",
    ];
    send(alloc, &parts, out)
}

/// Answers a request with a result, which is JSON.
pub fn send_result(alloc: Global, id: &Value, given: &[u8], out: &mut VecOut) -> Result<(), Memory>
    ensures { depth (view id.now) ≤ max_depth → OnOk result (IsAnswered (view id.now) (codes "result") given.now out.old.bytes.items out.new.bytes.items) }
{
    answer(alloc, id, b"result", given, out)
}

/// Answers a request with an error.
pub fn send_error(alloc: Global, id: &Value, wrong: Wrong, out: &mut VecOut) -> Result<(), Memory>
    ensures { depth (view id.now) ≤ max_depth → OnOk result ((given : List ℕ) × IsAnswered (view id.now) (codes "error") given out.old.bytes.items out.new.bytes.items) }
{
    answer(alloc, id, b"error", error_text(wrong), out)
}

/// Tells of diagnostics, whose parameters these are, which are JSON.
pub fn send_diagnostics(alloc: Global, params: &[u8], out: &mut VecOut) -> Result<(), Memory>
    ensures { OnOk result (out.new.bytes.items ≡ out.old.bytes.items ++ notice params.now) }
{
    let head: &[u8] =
        b"{\"jsonrpc\":\"2.0\",\"method\":\"textDocument/publishDiagnostics\",\"params\":";
    send(alloc, &[head, params, b"}"], out)
}

/// Asks the client to tell of files that change on disk.
pub fn send_watch(out: &mut VecOut) -> Result<(), Memory>
    ensures { OnOk result (out.new.bytes.items ≡ out.old.bytes.items ++ message watch_json) }
{
    let body: &[u8] =
        b"{\"jsonrpc\":\"2.0\",\"id\":\"watch\",\"method\":\"client/registerCapability\",\"params\":{\"registrations\":[{\"id\":\"watch\",\"method\":\"workspace/didChangeWatchedFiles\",\"registerOptions\":{\"watchers\":[{\"globPattern\":\"**/*.{sml,sig,fun,project}\"}]}}]}}";
    write(body, out)
}
