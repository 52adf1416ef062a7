//! A session: messages are read and answered one after the other.

ghost use Rattle.std.specs.Prelude.{OnOk};
ghost use Rattle.sc_language_server.specs.Messages.{IsSession, WritesMessages};

use crate::diagnostics::{push_cleared, push_notification};
use crate::failure::Failure;
use crate::framing::{Incoming, read_message, write_message};
use crate::parameters::text_in;
use crate::server::{Effect, Server};
use crate::systems::CheckedSystem;
use sc_explain_text::Lines;
use sc_source::files::Files;
use serde_json::{Category, Value};
use std::alloc::Global;
use std::io::{self, Read, Write};

/// How a session ends.
#[derive(Clone, Copy)]
pub enum Ending {
    /// It was shut down before.
    Down,
    /// It wasn't.
    Cut,
    /// The output is closed or full.
    CannotWrite,
}

/// What is answered if there is no memory for an answer.
const LACKING: &[u8] =
    br#"{"error":{"code":-32603,"message":"memory ran out"},"id":null,"jsonrpc":"2.0"}"#;

/// Answers the messages of an editor, up to `exit` or the end of the input. Nothing is written but messages.
pub fn serve_editor<F: Files, R: Read, W: Write>(
    alloc: Global,
    files: &F,
    input: &mut R,
    out: &mut W,
) -> Ending
    ensures { IsSession result (W.contents out.old) (W.contents out.new) }
{
    let mut server = Server::new(alloc);
    match answer_all(alloc, files, &mut server, input, out) {
        Ok(()) if server.is_down() => Ending::Down,
        Ok(()) => Ending::Cut,
        Err(_) => Ending::CannotWrite,
    }
}

/// Answers messages one after the other, up to the last one.
#[tactic(auto, using(crate::proofs::Messages::writes_none, crate::proofs::Messages::writes_more))]
fn answer_all<F: Files, R: Read, W: Write>(
    alloc: Global,
    files: &F,
    server: &mut Server,
    input: &mut R,
    out: &mut W,
) -> io::Result<()>
    ensures { OnOk result (WritesMessages (W.contents out.old) (W.contents out.new)) }
{
    for _ in 0..u64::MAX {
        if !answer_next(alloc, files, server, input, out)? {
            return Ok(());
        }
    }
    Ok(())
}

/// Answers the next message. Whether the session goes on.
#[tactic(auto, using(crate::proofs::Messages::writes_none))]
fn answer_next<F: Files, R: Read, W: Write>(
    alloc: Global,
    files: &F,
    server: &mut Server,
    input: &mut R,
    out: &mut W,
) -> io::Result<bool>
    ensures { OnOk result (WritesMessages (W.contents out.old) (W.contents out.new)) }
{
    match read_message(alloc, input) {
        Incoming::Body(body) => answer_body(alloc, files, server, body.as_slice(), out),
        Incoming::Unreadable => answer_lost(alloc, server, out, Failure::ParseError),
        Incoming::OutOfMemory => answer_lost(alloc, server, out, Failure::OutOfMemory),
        Incoming::End => Ok(false),
    }
}

/// Answers the message that these bytes are. Whether the session goes on.
fn answer_body<F: Files, W: Write>(
    alloc: Global,
    files: &F,
    server: &mut Server,
    body: &[u8],
    out: &mut W,
) -> io::Result<bool>
    ensures { OnOk result (WritesMessages (W.contents out.old) (W.contents out.new)) }
{
    match Value::from_slice(alloc, body) {
        Ok(message) => answer_message(alloc, files, server, &message, out),
        Err(error) => match error.classify() {
            Category::Memory => answer_lost(alloc, server, out, Failure::OutOfMemory),
            _ => write_failure(alloc, out, "null", Failure::ParseError),
        },
    }
}

/// Answers a message that is lost for this reason. It may have been a change, so no document counts as open.
fn answer_lost<W: Write>(
    alloc: Global,
    server: &mut Server,
    out: &mut W,
    failure: Failure,
) -> io::Result<bool>
    ensures { OnOk result (WritesMessages (W.contents out.old) (W.contents out.new)) }
{
    server.forget_all();
    write_failure(alloc, out, "null", failure)
}

/// Answers a message: a request has an id, and a notification has none. Responses are left aside, as nothing is asked of the
/// editor.
#[tactic(auto, using(crate::proofs::Messages::writes_none))]
fn answer_message<F: Files, W: Write>(
    alloc: Global,
    files: &F,
    server: &mut Server,
    message: &Value,
    out: &mut W,
) -> io::Result<bool>
    ensures { OnOk result (WritesMessages (W.contents out.old) (W.contents out.new)) }
{
    let params = message.get("params");
    let Some(method) = text_in(Some(message), "method") else {
        if is_response(message) {
            return Ok(true);
        }
        return write_failure(alloc, out, "null", Failure::InvalidRequest);
    };
    match message.get("id") {
        None => answer_notice(alloc, files, server, method, params, out),
        Some(id) if id.is_string() || id.is_number() => {
            answer_request(alloc, server, id, method, params, out)
        }
        Some(_) => write_failure(alloc, out, "null", Failure::InvalidRequest),
    }
}

/// Whether a message is a response.
fn is_response(message: &Value) -> bool {
    message.get("result").is_some() || message.get("error").is_some()
}

/// Answers a request.
fn answer_request<W: Write>(
    alloc: Global,
    server: &mut Server,
    id: &Value,
    method: &str,
    params: Option<&Value>,
    out: &mut W,
) -> io::Result<bool>
    ensures { OnOk result (WritesMessages (W.contents out.old) (W.contents out.new)) }
{
    let Ok(id) = id.to_string(alloc) else {
        return write_failure(alloc, out, "null", Failure::OutOfMemory);
    };
    let mut lines = Lines::new(alloc);
    lines.fill_name(r#"{"id":~,"jsonrpc":"2.0","result":"#, id.as_str());
    match server.respond(alloc, &mut lines, method, params) {
        Ok(()) => {
            lines.push("}");
            match lines.finish() {
                Ok(body) => write_body(out, body.as_slice()),
                Err(_) => write_failure(alloc, out, id.as_str(), Failure::OutOfMemory),
            }
        }
        Err(failure) => write_failure(alloc, out, id.as_str(), failure),
    }
}

/// Does what a notification says, and shows what is found after it.
#[tactic(auto, using(crate::proofs::Messages::writes_none))]
fn answer_notice<F: Files, W: Write>(
    alloc: Global,
    files: &F,
    server: &mut Server,
    method: &str,
    params: Option<&Value>,
    out: &mut W,
) -> io::Result<bool>
    ensures { OnOk result (WritesMessages (W.contents out.old) (W.contents out.new)) }
{
    match server.take_notice(alloc, files, method, params) {
        Ok(Effect::Nothing) => Ok(true),
        Ok(Effect::Exit) => Ok(false),
        Ok(Effect::Checked) => publish(alloc, server, out),
        Ok(Effect::Closed(uri)) => {
            let mut lines = Lines::new(alloc);
            push_cleared(alloc, &mut lines, uri.as_str());
            write_lines(out, lines)?;
            publish(alloc, server, out)
        }
        Err(_) => write_failure(alloc, out, "null", Failure::OutOfMemory),
    }
}

/// Shows what is found in each document of each system.
#[tactic(auto, using(crate::proofs::Messages::writes_none))]
fn publish<W: Write>(alloc: Global, server: &Server, out: &mut W) -> io::Result<bool>
    ensures { OnOk result (WritesMessages (W.contents out.old) (W.contents out.new)) }
{
    for system in &server.systems {
        publish_system(alloc, system, out)?;
    }
    Ok(true)
}

/// Shows what is found in each document of a system.
#[tactic(auto, using(crate::proofs::Messages::writes_none))]
fn publish_system<W: Write>(alloc: Global, system: &CheckedSystem, out: &mut W) -> io::Result<()>
    ensures { OnOk result (WritesMessages (W.contents out.old) (W.contents out.new)) }
{
    for index in 0..system.joined.parts.len() {
        let part = &system.joined.parts[index];
        let mut lines = Lines::new(alloc);
        push_notification(alloc, &mut lines, system, index, part);
        write_lines(out, lines)?;
    }
    Ok(())
}

/// Writes the response to a request that has no result. The session goes on.
fn write_failure<W: Write>(
    alloc: Global,
    out: &mut W,
    id: &str,
    failure: Failure,
) -> io::Result<bool>
    ensures { OnOk result (WritesMessages (W.contents out.old) (W.contents out.new)) }
{
    let mut lines = Lines::new(alloc);
    lines.fill_name(r#"{"error":~,"id":"#, failure.text());
    lines.fill_name(r#"~,"jsonrpc":"2.0"}"#, id);
    write_lines(out, lines)
}

/// Writes a message, or if there was no memory for it, that there wasn't. The session goes on.
fn write_lines<W: Write>(out: &mut W, lines: Lines) -> io::Result<bool>
    ensures { OnOk result (WritesMessages (W.contents out.old) (W.contents out.new)) }
{
    match lines.finish() {
        Ok(body) => write_body(out, body.as_slice()),
        Err(_) => write_body(out, LACKING),
    }
}

/// Writes a message. The session goes on.
fn write_body<W: Write>(out: &mut W, body: &[u8]) -> io::Result<bool>
    ensures { OnOk result (WritesMessages (W.contents out.old) (W.contents out.new)) }
{
    write_message(out, body)?;
    Ok(true)
}
