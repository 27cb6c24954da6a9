//! The caller and the command that a message asks for.

ghost use Rattle.std.specs.Prelude.{◌≡◌, ◌≢◌, Ok, Err, IfOk, IfErr};
ghost use Rattle.std.specs.Option.{option_map};
ghost use Rattle.serde_json.specs.View.{members_view};
ghost use Rattle.route_core.specs.Commands as commands;
ghost use Rattle.route_core.specs.Places.{place_in};

use crate::cuts::cut;
use crate::fault::{CommandFault, Unasked};
use crate::members::{Members, members_of};
use crate::places::{Place, method_named, place_at};
use crate::routes::{Routes, place_routed};
use crate::said::said_by;
use desk_forms::paths::Method;
use desk_forms::table::paths;
use desk_model::Command;
use message_core::{Allow, Message};
use serde_json::Map;
use settings_core::Settings;
use std::alloc::{AllocError, Global};
use text_core::Text;

/// The caller and the command that a message asks for.
///
/// `NoRoute` where its path leads nowhere, `BadMethod` where the place doesn't have its method,
/// `NoToken` where it has no token or one that the settings don't have, and `BadBody` where its
/// body doesn't say what the place needs: the first of these that holds. `NoMemory` may stand in
/// place of any other answer.
pub fn command_of(
    alloc: Global,
    settings: &Settings,
    message: &Message,
) -> Result<(Text, Command), CommandFault>
    ensures ok { IfOk result (λ asked.
        commands.command_of settings.now message.now ≡ Ok (asked.0, asked.1)) }
    ensures err { IfErr result (λ fault. fault ≢ CommandFault.NoMemory
        → commands.command_of settings.now message.now ≡ Err fault) }
{
    match command_by(alloc, None, settings, message)? {
        Ok(asked) => Ok(asked),
        Err(unasked) => Err(unasked.fault()),
    }
}

/// The same by a router, if there is one: the answers are those of `command_of`, whatever it finds.
/// `BadMethod` has the methods of the place with it. `AllocError` where memory was refused.
pub fn command_by(
    alloc: Global,
    routes: Option<&Routes>,
    settings: &Settings,
    message: &Message,
) -> Result<Result<(Text, Command), Unasked>, AllocError>
    ensures { IfOk result (λ asked. asked ≡ commands.asked_of settings.now message.now) }
{
    let path = path_in(message.target.as_slice());
    match place_named(routes, message.method.as_slice(), path) {
        Some(place) => asked_by(alloc, settings, message, place),
        None => Ok(Err(unasked_at(allow_of(path)))),
    }
}

/// Why nothing is asked for at a path with these methods, if it has any.
fn unasked_at(methods: Option<Allow>) -> Unasked
    ensures { result ≡ commands.unasked_at methods }
{
    match methods {
        Some(methods) => Unasked::BadMethod(methods),
        None => Unasked::NoRoute,
    }
}

/// The target up to the first question mark.
fn path_in(target: &[u8]) -> &[u8]
    ensures { result.now ≡ commands.path_in target.now }
{
    cut(target, b'?').0
}

/// The methods of a path, if it leads anywhere.
fn allow_of(path: &[u8]) -> Option<Allow>
    ensures { result ≡ commands.allow_of path.now }
{
    let gets = place_at(paths(), Method::Get, path).is_some();
    let posts = place_at(paths(), Method::Post, path).is_some();
    match (gets, posts) {
        (true, true) => Some(Allow::GetPost),
        (true, false) => Some(Allow::Get),
        (false, true) => Some(Allow::Post),
        (false, false) => None,
    }
}

/// What is asked for at a path by the method of this name.
fn place_named<'a>(routes: Option<&Routes>, name: &[u8], path: &'a [u8]) -> Option<Place<'a>>
    ensures { option_map place_in result
        ≡ commands.place_named name.now path.entry.now }
{
    match method_named(name) {
        Some(method) => place_by(routes, method, path),
        None => None,
    }
}

/// What a method asks for at a path: by the router, or else by all rows.
fn place_by<'a>(routes: Option<&Routes>, method: Method, path: &'a [u8]) -> Option<Place<'a>>
    ensures { option_map place_in result ≡ commands.asked_at method path.entry.now }
{
    if let Some(routes) = routes {
        if let Some(place) = place_routed(routes, method, path) {
            return Some(place);
        }
    }
    place_at(paths(), method, path)
}

/// The caller and what is asked for at a place; `NoToken`, and then `BadBody`, where there is none.
fn asked_by(
    alloc: Global,
    settings: &Settings,
    message: &Message,
    place: Place<'_>,
) -> Result<Result<(Text, Command), Unasked>, AllocError>
    ensures { IfOk result (λ asked. asked
        ≡ commands.asked_by (commands.caller_of settings.now message.now.token)
        (commands.said (place_in place.entry) message.now.body)) }
{
    let Some(caller) = caller_of(alloc, settings, message)? else {
        return Ok(Err(Unasked::NoToken));
    };
    match said(alloc, place, message.body.as_slice())? {
        Some(command) => Ok(Ok((caller, command))),
        None => Ok(Err(Unasked::BadBody)),
    }
}

/// The person of the token, if there is one.
fn caller_of(
    alloc: Global,
    settings: &Settings,
    message: &Message,
) -> Result<Option<Text>, AllocError>
    ensures { IfOk result (λ caller.
        caller ≡ commands.caller_of settings.now message.now.token) }
{
    let Some(token) = &message.token else {
        return Ok(None);
    };
    match settings.person_of_token(token.as_str()) {
        Some(person) => Ok(Some(Text::new(alloc, person)?)),
        None => Ok(None),
    }
}

/// The command of a body at a place.
fn said(alloc: Global, place: Place<'_>, body: &[u8]) -> Result<Option<Command>, AllocError>
    ensures { IfOk result (λ c. c ≡ commands.said (place_in place.entry) body.now) }
{
    match members_for(alloc, place.method, body)? {
        Some(members) => said_by(alloc, place.leads, place.bound, &members),
        None => Ok(None),
    }
}

/// The members of a body. A GET's isn't looked at.
fn members_for(alloc: Global, method: Method, body: &[u8]) -> Result<Option<Members>, AllocError>
    ensures { IfOk result (λ members.
        option_map (λ m. members_view m.entries) members ≡ commands.members_for method body.now) }
{
    match method {
        Method::Get => Ok(Some(Map::new(alloc))),
        Method::Post => members_of(alloc, body),
    }
}
