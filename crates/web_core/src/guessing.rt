//! Wrong tokens on the page that signs in, by the addresses from which they come.
ghost use Rattle.std.specs.Prelude.{◌≡◌, ◌⊎◌, [], IfOk, OnErr, OnOk};
ghost use Rattle.httparse.specs.Grammar.{RequestHead};
ghost use Rattle.message_core.specs.Head.{StartsWith};
ghost use Rattle.guess_core.specs.Guesses.{begun};
ghost use Rattle.web_core.specs.Guessing as form;

use crate::note::forwarded_in;
use browser_core::cut;
use guess_core::Guesses;
use log_core::address_of;
use message_core::{Message, Request, WireFault};
use page_routes::is_wrong_token;
use settings_core::Settings;
use std::alloc::{AllocError, Global};

/// As many bytes of an address as the log has.
const ADDRESS: usize = 45;

/// Whether a message is let through to its step.
#[derive(Clone, Copy)]
pub(crate) enum Guard {
    /// It is: it sends no token, or its address isn't barred.
    Open,
    /// It sends a token from an address that is barred.
    Barred,
    /// It sends a token, and there is no memory to look at it.
    Unseen,
}

/// Whether a message sends a token to the page that signs in.
fn sends_token(message: &Message) -> bool
    ensures { result ≡ form.sends_token message.now }
{
    message.method.as_slice() == b"POST".as_slice()
        && cut(message.target.as_slice(), b'?').0 == b"/sign-in".as_slice()
}

/// Whether what was read is let through, behind a proxy that tells addresses. A wrong token from an
/// address that isn't barred is noted.
pub(crate) fn guarded(
    alloc: Global,
    proxied: bool,
    https: bool,
    settings: &Settings,
    guesses: &mut Guesses,
    at: u32,
    read: &Result<Request, WireFault>,
) -> Guard
    ensures { form.Guards proxied https settings.now at read.now guesses.old result guesses.new }
{
    match read {
        Ok(request) => guard_request(alloc, proxied, https, settings, guesses, at, request),
        Err(_) => Guard::Open,
    }
}

fn guard_request(
    alloc: Global,
    proxied: bool,
    https: bool,
    settings: &Settings,
    guesses: &mut Guesses,
    at: u32,
    request: &Request,
) -> Guard
    ensures { form.GuardsRequest proxied https settings.now at request.now guesses.old result
        guesses.new }
{
    if proxied && sends_token(&request.message) {
        guard_token(alloc, https, settings, guesses, at, request)
    } else {
        Guard::Open
    }
}

fn guard_token(
    alloc: Global,
    https: bool,
    settings: &Settings,
    guesses: &mut Guesses,
    at: u32,
    request: &Request,
) -> Guard
    ensures { form.GuardsToken https settings.now at request.now guesses.old result guesses.new }
{
    match bars_token(alloc, https, settings, guesses, at, request) {
        Ok(barred) => guard_by(barred),
        Err(_) => Guard::Unseen,
    }
}

fn guard_by(barred: bool) -> Guard
    ensures { result ≡ form.guard_by barred }
{
    if barred { Guard::Barred } else { Guard::Open }
}

/// Whether the address of a token is barred; where it isn't, and the token is wrong, it is noted.
/// `AllocError` where memory is refused: then at most the minute of what is noted has begun.
fn bars_token(
    alloc: Global,
    https: bool,
    settings: &Settings,
    guesses: &mut Guesses,
    at: u32,
    request: &Request,
) -> Result<bool, AllocError>
    ensures ok { (h : RequestHead) → StartsWith request.now.head h []
        → IfOk result (λ barred. (barred ≡ form.bars guesses.old at h)
        × (guesses.new ≡ form.after_token https settings.now at request.now.message h guesses.old)) }
    ensures err { OnErr result ((guesses.new ≡ guesses.old) ⊎ (guesses.new ≡ begun guesses.old at)) }
{
    let address = address_in(alloc, request.head.as_slice())?;
    let from = address.as_slice();
    if guesses.is_barred(from, at) {
        return Ok(true);
    }
    let wrong = is_wrong_token(alloc, settings, https, at, request)?;
    note_if(alloc, guesses, wrong, from, at)?;
    Ok(false)
}

/// Notes a token that is wrong. `AllocError` where memory is refused: then at most the minute of what
/// is noted has begun.
fn note_if(
    alloc: Global,
    guesses: &mut Guesses,
    wrong: bool,
    address: &[u8],
    at: u32,
) -> Result<(), AllocError>
    ensures ok { OnOk result (guesses.new ≡ form.noted_if wrong guesses.old address.now at) }
    ensures err { OnErr result (guesses.new ≡ begun guesses.old at) }
{
    if wrong {
        guesses.note_wrong(alloc, address, at)
    } else {
        Ok(())
    }
}

/// The address that a proxy tells, as the log has it.
fn address_in(alloc: Global, head: &[u8]) -> Result<Vec<u8>, AllocError>
    ensures { (h : RequestHead) → StartsWith head.now h []
        → IfOk result (λ address. address.items ≡ form.address_in h) }
{
    let mut address = address_of(alloc, forwarded_in(true, head))?;
    address.truncate(ADDRESS);
    Ok(address)
}
