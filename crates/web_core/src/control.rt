//! What a server does with a message: its step, or what who may do all asks of the server itself.
ghost use Rattle.std.specs.Prelude.{◌≡◌, ◌||◌, false};
ghost use Rattle.message_core.specs.Reply.{bytes_of};
ghost use Rattle.page_routes.specs.Places.{path_in};
ghost use Rattle.route_core.specs.Commands.{caller_of};
ghost use Rattle.web_core.specs.Control as form;
ghost use Rattle.web_core.specs.Guessing as guessing;
ghost use Rattle.web_core.specs.Control.{CopiesBy};

use crate::guessing::Guard;
use crate::system::System;
use browser_core::cut;
use message_core::{Message, Request, WireFault, unavailable_reply};
use rights_core::{Roles, right};
use settings_core::Settings;
use text_core::Text;

/// What a server does with a message.
#[derive(Clone, Copy)]
pub(crate) enum Control {
    /// Its step is done.
    Step,
    /// It is told that nothing is done for what it expects.
    Expect,
    /// It is refused: its token comes from an address that is barred.
    Bar,
    /// It is told that there is no memory to look at its token.
    Unseen,
    /// The server stops.
    Stop,
    /// The tables are copied.
    Copy,
}

/// What is done with what was read. A message that expects something isn't looked at yet, and then
/// the guard comes first. The server stops or copies where who sent it may: a POST of `/stop` or
/// `/copy` with the token of a person who holds `SuperUser` on all queues.
pub(crate) fn control_by(
    expects: bool,
    guard: Guard,
    settings: &Settings,
    read: &Result<Request, WireFault>,
) -> Control
    ensures { result ≡ form.control_by expects guard settings.now read.now }
{
    if expects {
        Control::Expect
    } else {
        control_past(guard, settings, read)
    }
}

fn control_past(guard: Guard, settings: &Settings, read: &Result<Request, WireFault>) -> Control
    ensures { result ≡ form.control_past guard settings.now read.now }
{
    match guard {
        Guard::Barred => Control::Bar,
        Guard::Unseen => Control::Unseen,
        Guard::Open => control_of(settings, read),
    }
}

fn control_of(settings: &Settings, read: &Result<Request, WireFault>) -> Control
    ensures { result ≡ form.control_of settings.now read.now }
{
    match read {
        Ok(request) => control_in(settings, &request.message),
        Err(_) => Control::Step,
    }
}

fn control_in(settings: &Settings, message: &Message) -> Control
    ensures { result ≡ form.control_in settings.now message.now }
{
    let path = cut(message.target.as_slice(), b'?').0;
    if path == b"/stop".as_slice() {
        if_may(may_control(settings, message), Control::Stop)
    } else if path == b"/copy".as_slice() {
        if_may(may_control(settings, message), Control::Copy)
    } else {
        Control::Step
    }
}

fn if_may(may: bool, control: Control) -> Control
    ensures { result ≡ form.if_may may control }
{
    if may { control } else { Control::Step }
}

/// Whether a message is a POST by a person who may.
fn may_control(settings: &Settings, message: &Message) -> bool
    ensures { result ≡ form.may_control settings.now message.now }
{
    message.method.as_slice() == b"POST".as_slice() && is_of_one_who_may(settings, &message.token)
}

/// Whether the token is that of a person who may.
fn is_of_one_who_may(settings: &Settings, token: &Option<Text>) -> bool
    ensures { result ≡ form.is_of_one_who_may settings.now (caller_of settings.now token.now) }
{
    let Some(token) = token else {
        return false;
    };
    match settings.person_of_token(token.as_str()) {
        Some(person) => holds_all(settings, person),
        None => false,
    }
}

/// Whether a person holds `SuperUser` on all queues: no queue has the empty name.
#[tactic(auto, unfolding(rights_core::specs::Right::super_user))]
fn holds_all(settings: &Settings, person: &str) -> bool
    ensures { result ≡ form.holds_all settings.now person.now }
{
    settings
        .people()
        .holds(person, right::SUPER_USER, "", Roles::none())
}

/// Whether the server is to stop now: it was to, or it is asked to.
pub(crate) fn stops_then(stops: bool, control: Control) -> bool
    ensures { result ≡ (stops || form.is_stop control) }
{
    stops || is_stop(control)
}

fn is_stop(control: Control) -> bool
    ensures { result ≡ form.is_stop control }
{
    match control {
        Control::Stop => true,
        _ => false,
    }
}

/// Copies the tables, where that is asked for. Whether a copy was made.
pub(crate) fn copy_if<C: System>(control: Control, system: &mut C) -> bool
    ensures { CopiesBy control result (C.made system.old) (C.made system.new) }
{
    match control {
        Control::Copy => system.copy(),
        _ => false,
    }
}

/// The reply to a token from an address that is barred, for which no memory is needed.
pub(crate) fn barred_reply() -> &'static [u8]
    ensures { result.now ≡ bytes_of guessing.barred_reply }
{
    b"HTTP/1.1 429 Too Many Requests\r\n\
      Content-Type: text/plain; charset=utf-8\r\n\
      Content-Length: 45\r\n\
      Connection: close\r\n\
      \r\n\
      too many wrong tokens: try again in a minute\n"
}

/// The reply that the server stops, for which no memory is needed.
pub(crate) fn stop_reply() -> &'static [u8]
    ensures { result.now ≡ bytes_of form.stop_reply }
{
    b"HTTP/1.1 200 OK\r\n\
      Content-Type: text/plain; charset=utf-8\r\n\
      Content-Length: 6\r\n\
      Connection: close\r\n\
      \r\n\
      stops\n"
}

/// The reply that a copy was made, or that nothing was done.
pub(crate) fn copy_reply(copied: bool) -> &'static [u8]
    ensures { result.now ≡ bytes_of (form.copy_told copied) }
{
    if copied {
        copied_reply()
    } else {
        unavailable_reply(false)
    }
}

fn copied_reply() -> &'static [u8]
    ensures { result.now ≡ bytes_of form.copied_reply }
{
    b"HTTP/1.1 200 OK\r\n\
      Content-Type: text/plain; charset=utf-8\r\n\
      Content-Length: 7\r\n\
      Connection: close\r\n\
      \r\n\
      copied\n"
}
