//! The bytes of a reply.
ghost use Rattle.std.specs.Prelude.{◌≡◌, ◌++◌, ◌+◌, ◌≤◌, ◌<◌, true, false, length, IfOk, OnErr, OnOk};
ghost use Rattle.std.specs.Vec.{vec_capacity, vec_len};
ghost use Rattle.http.specs.StatusCode.{IsStatusCode};
ghost use Rattle.message_core.specs.Reply as form;
ghost use Rattle.message_core.specs.Reply.{IsReply};

use crate::reply_head::{add_text, end_head, start_head};
use std::alloc::{AllocError, Global};
use text_core::Sequence;

/// The methods that a path has.
#[derive(Clone, Copy)]
pub enum Allow {
    Get,
    Post,
    GetPost,
}

/// A reply.
#[derive(Drop)]
pub struct Reply {
    /// The code: 200, 201, 400, 403, 404, 405, 409 or 503.
    pub status: u16,
    /// The methods of the path, exactly where the code is 405.
    pub allow: Option<Allow>,
    /// The body, whose length is told.
    pub body: Sequence<u8>,
    /// Whether the body is left out, as in reply to a HEAD.
    pub head_only: bool,
}

/// The bytes of a reply: its status line, the type and the length of its body, `Allow` with 405,
/// `Connection: close`, an empty line, and the body.
pub fn answer_bytes(alloc: Global, reply: &Reply) -> Result<Vec<u8>, AllocError>
    requires { IsReply reply.now }
    ensures { IfOk result (λ out. out.items ≡ form.bytes_of reply.now) }
{
    let mut out = Vec::new(alloc);
    add_reply(&mut out, reply)?;
    Ok(out)
}

/// Puts the bytes of a reply at the end, where there is room for them. Takes no memory.
pub fn put_reply(reply: &Reply, out: &mut Vec<u8>)
    requires reply { IsReply reply.now }
    requires room { vec_len out.old + length (form.bytes_of reply.now) ≤ vec_capacity out.old }
    ensures { out.new.items ≡ out.old.items ++ form.bytes_of reply.now }
{
    add_reply(out, reply).unwrap();
}

/// Puts the bytes of a reply at the end. Where there is room, it takes no memory.
fn add_reply(out: &mut Vec<u8>, reply: &Reply) -> Result<(), AllocError>
    requires { IsReply reply.now }
    ensures added { OnOk result (out.new.items ≡ out.old.items ++ form.bytes_of reply.now) }
    ensures full { OnErr result (vec_capacity out.old
        < vec_len out.old + length (form.bytes_of reply.now)) }
{
    add_text_head(out, reply.status, reply.allow, reply.body.len() as u64)?;
    out.extend_from_slice(body_of(reply))
}

/// Puts the head of a reply with a text of so many bytes at the end.
#[tactic(auto, unfolding(crate::specs::Reply::head_of))]
fn add_text_head(
    out: &mut Vec<u8>,
    status: u16,
    allow: Option<Allow>,
    bytes: u64,
) -> Result<(), AllocError>
    requires { IsStatusCode status }
    ensures added { OnOk result (out.new.items
        ≡ out.old.items ++ form.head_of status allow bytes) }
    ensures full { OnErr result (vec_capacity out.old
        < vec_len out.old + length (form.head_of status allow bytes)) }
    ensures capacity { vec_capacity out.old ≤ vec_capacity out.new }
{
    start_head(out, status, text_kind(), bytes)?;
    add_text(out, methods_line(allow))?;
    end_head(out)
}

#[tactic(auto, unfolding(crate::specs::Reply::text_kind))]
fn text_kind() -> &'static str
    ensures { result.now ≡ form.text_kind }
{
    "text/plain; charset=utf-8"
}

/// The line of the methods, if there is one.
#[tactic(auto, unfolding(crate::specs::Reply::methods_line))]
fn methods_line(allow: Option<Allow>) -> &'static str
    ensures { result.now ≡ form.methods_line allow }
{
    match allow {
        None => "",
        Some(Allow::Get) => "Allow: GET\r\n",
        Some(Allow::Post) => "Allow: POST\r\n",
        Some(Allow::GetPost) => "Allow: GET, POST\r\n",
    }
}

/// The bytes of the reply `refused 16 Unavailable`, for which no memory is needed; without its body
/// in reply to a HEAD.
pub fn unavailable_reply(head_only: bool) -> &'static [u8]
    ensures { result.now ≡ form.bytes_of (form.unavailable head_only) }
{
    if head_only {
        unavailable_head()
    } else {
        unavailable_whole()
    }
}

fn unavailable_head() -> &'static [u8]
    ensures { result.now ≡ form.bytes_of (form.unavailable true) }
{
    b"HTTP/1.1 503 Service Unavailable\r\n\
      Content-Type: text/plain; charset=utf-8\r\n\
      Content-Length: 23\r\n\
      Connection: close\r\n\
      \r\n"
}

fn unavailable_whole() -> &'static [u8]
    ensures { result.now ≡ form.bytes_of (form.unavailable false) }
{
    b"HTTP/1.1 503 Service Unavailable\r\n\
      Content-Type: text/plain; charset=utf-8\r\n\
      Content-Length: 23\r\n\
      Connection: close\r\n\
      \r\n\
      refused 16 Unavailable\n"
}

/// What is written of the body.
fn body_of(reply: &Reply) -> &[u8]
    ensures { result.now ≡ form.body_of reply.now }
{
    if reply.head_only {
        &[]
    } else {
        reply.body.as_slice()
    }
}
