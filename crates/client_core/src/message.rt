//! The message that asks for a command.
ghost use Rattle.std.specs.Prelude.{◌≡◌, ◌≢◌, ◌<◌, ◌≤◌, ◌++◌, true, false, length, Err, IfOk, IfErr};
ghost use Rattle.std.specs.List.{list_all};
ghost use Rattle.settings_core.specs.Tokens as tokens;
ghost use Rattle.desk_forms.specs.Paths.{path_of};
ghost use Rattle.desk_forms.specs.Arguments.{values_of};
ghost use Rattle.desk_forms.specs.Table.{paths as table};
ghost use Rattle.client_core.specs.Message as spec;
ghost use Rattle.client_core.specs.Spelled as spelled;
ghost use Rattle.client_core.specs.Message.{Asks, AsksAt};

use crate::body::body_for;
use crate::fault::AskFault;
use crate::spelled::{many_of, route_and_arguments_of};
use crate::target::{add_number, add_target, add_text};
use desk_forms::arguments::Arguments;
use desk_forms::paths::{Method, Path};
use desk_forms::table::paths;
use desk_model::Command;
use std::alloc::{AllocError, Global};
use text_core::Text;

/// The most bytes of a body.
const MAX_BODY: usize = 65_536;

/// The most bytes of a server's name.
const MAX_HOST: usize = 255;

/// The fewest bytes of a token.
const MIN_TOKEN: usize = 16;

/// The most bytes of a token.
const MAX_TOKEN: usize = 64;

/// Whether a text is 1 to 255 printed bytes of ASCII, none a space.
pub fn is_host(text: &str) -> bool
    ensures { result ≡ spec.is_host text.now }
{
    1 <= text.len() && text.len() <= MAX_HOST && has_host_bytes(text.as_bytes())
}

fn has_host_bytes(bytes: &[u8]) -> bool
    ensures { result ≡ list_all spec.is_host_byte bytes.now }
{
    bytes.iter().all(|b| is_host_byte(*b))
}

fn is_host_byte(b: u8) -> bool
    ensures { result ≡ spec.is_host_byte b }
{
    32 < b && b < 127
}

/// Whether a text is a token as settings have them: 16 to 64 letters, digits, hyphens and
/// underscores.
pub fn is_token(text: &str) -> bool
    ensures { result ≡ tokens.is_token text.now }
{
    MIN_TOKEN <= text.len() && text.len() <= MAX_TOKEN && has_token_bytes(text.as_bytes())
}

fn has_token_bytes(bytes: &[u8]) -> bool
    ensures { result ≡ list_all tokens.is_token_byte bytes.now }
{
    bytes.iter().all(|b| is_token_byte(*b))
}

fn is_token_byte(b: u8) -> bool
    ensures { result ≡ tokens.is_token_byte b }
{
    b'a' <= b && b <= b'z'
        || b'A' <= b && b <= b'Z'
        || b'0' <= b && b <= b'9'
        || b == b'-'
        || b == b'_'
}

/// The bytes of the message that asks a server of this name for a command, as the person of a token.
///
/// `BadHost` where the name is none, `BadToken` where the token is none, and `TooLong` where the
/// body would have more than 65,536 bytes: the first of these that holds. `NoMemory` may stand in
/// place of any other answer.
pub fn message_bytes(
    alloc: Global,
    host: &str,
    token: &str,
    command: &Command,
) -> Result<Vec<u8>, AskFault>
    ensures bytes { IfOk result (λ out. Asks host.now token.now command.now out.items) }
    ensures host { IfOk result (λ _. spec.is_host host.now ≡ true) }
    ensures token { IfOk result (λ _. tokens.is_token token.now ≡ true) }
    ensures bad_host { result ≡ Err AskFault.BadHost → spec.is_host host.now ≡ false }
    ensures bad_token { result ≡ Err AskFault.BadToken → tokens.is_token token.now ≡ false }
{
    if !is_host(host) {
        return Err(AskFault::BadHost);
    }
    if !is_token(token) {
        return Err(AskFault::BadToken);
    }
    let (place, values) = route_and_arguments_of(command);
    bytes_to(alloc, host, token, row_at(place), &values, many_of(command))
}

/// The row at a place of the table.
#[tactic(auto, using(crate::proofs::Rows::row_is, crate::proofs::Rows::row_within))]
fn row_at(place: usize) -> &'static Path
    requires { place < length table }
    ensures { path_of result.now ≡ spelled.row_at place }
{
    &paths()[place]
}

/// The same to a row of the table, where host and token have their form.
fn bytes_to(
    alloc: Global,
    host: &str,
    token: &str,
    row: &Path,
    values: &Arguments<'_>,
    many: &[Text],
) -> Result<Vec<u8>, AskFault>
    ensures asks { IfOk result (λ out. AsksAt host.now token.now (path_of row.now)
        (values_of values.now) many.now out.items) }
    ensures kinds { IfErr result (λ fault. fault ≢ AskFault.TooLong
        → fault ≡ AskFault.NoMemory) }
{
    let content = body_for(alloc, row, values, many)?;
    if content.len() > MAX_BODY {
        return Err(AskFault::TooLong);
    }
    let mut out = Vec::new(alloc);
    add_text(&mut out, method_text(row.0))?;
    add_target(&mut out, row.1, values)?;
    add_names(&mut out, host, token)?;
    add_lengths(&mut out, content.len() as u64)?;
    out.extend_from_slice(content.as_slice())?;
    Ok(out)
}

fn method_text(method: Method) -> &'static str
    ensures { result.now ≡ spec.method_text method }
{
    match method {
        Method::Get => "GET ",
        Method::Post => "POST ",
    }
}

/// Puts the end of the first line, the server and the token at the end.
#[tactic(auto, unfolding(crate::specs::Message::names))]
fn add_names(out: &mut Vec<u8>, host: &str, token: &str) -> Result<(), AllocError>
    ensures { IfOk result (λ _. out.new.items
        ≡ out.old.items ++ spec.names host.now token.now) }
{
    add_text(out, host_name())?;
    add_text(out, host)?;
    add_text(out, token_name())?;
    add_text(out, token)
}

/// Puts the length of the body, the last line of the header and the empty line at the end.
#[tactic(auto, unfolding(crate::specs::Message::lengths))]
fn add_lengths(out: &mut Vec<u8>, bytes: u64) -> Result<(), AllocError>
    ensures { IfOk result (λ _. out.new.items ≡ out.old.items ++ spec.lengths bytes) }
{
    add_text(out, length_name())?;
    add_number(out, bytes)?;
    add_text(out, last_lines())
}

#[tactic(auto, unfolding(crate::specs::Message::host_name))]
fn host_name() -> &'static str
    ensures { result.now ≡ spec.host_name }
{
    " HTTP/1.1\r\nHost: "
}

#[tactic(auto, unfolding(crate::specs::Message::token_name))]
fn token_name() -> &'static str
    ensures { result.now ≡ spec.token_name }
{
    "\r\nDesk-Token: "
}

#[tactic(auto, unfolding(crate::specs::Message::length_name))]
fn length_name() -> &'static str
    ensures { result.now ≡ spec.length_name }
{
    "\r\nContent-Length: "
}

#[tactic(auto, unfolding(crate::specs::Message::last_lines))]
fn last_lines() -> &'static str
    ensures { result.now ≡ spec.last_lines }
{
    "\r\nConnection: close\r\n\r\n"
}
