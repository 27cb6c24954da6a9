//! A desk that answers messages over HTTP.
ghost use Rattle.std.specs.Prelude.{◌≡◌, ◌≢◌, Err};
ghost use Rattle.connection_core.specs.Reply.{bytes_of};
ghost use Rattle.service_core.specs.Leaves.{LeavesDesk};
ghost use Rattle.service_core.specs.Seen.{settings_of, tables_of};
ghost use Rattle.web_core.specs.Messages.{IsTakenAs, TakenStepsOn};

use crate::control::{
    Control, barred_reply, control_by, copy_if, copy_reply, stop_reply, stops_then,
};
use crate::date::with_date;
use crate::desk::WebDesk;
use crate::guessing::guarded;
use crate::note::note_on;
use crate::shut::is_seen_shut;
use crate::system::System;
use connection_core::{Framing, Reply};
use http_rules::{by_rules, expectation_failed, is_expecting, stated_by_rules};
use message_core::{Request, WireFault, unavailable_reply};
use page_wire::{answer_sent, read_sent};
use server_core;
use server_core::Answer;
use service_core::Desk;
use std::alloc::Global;
use store_core::Backend;
use wire_core::Routes;

/// The reply to what was read of a message, after its step, or to what else is done with it. Where
/// memory is refused nothing is done, and the reply says so.
#[tactic(auto, using(service_core::proofs::LeftLemmas::left_same))]
fn answer_to<S: Backend>(
    alloc: Global,
    routes: Option<&Routes>,
    https: bool,
    minute: u32,
    read: &Result<Request, WireFault>,
    control: Control,
    copied: bool,
    desk: &mut Desk<S>,
) -> Reply
    ensures step { TakenStepsOn https (settings_of S.Store desk.old) minute copied read.now control
        (bytes_of result) (tables_of S.Store desk.old) (tables_of S.Store desk.new) }
    ensures left { LeavesDesk S.Store desk.old desk.new }
{
    match control {
        Control::Step => match answer_sent(alloc, routes, https, read, minute, desk) {
            Ok(reply) => Reply::Made(reply),
            Err(_) => Reply::Fixed(unavailable_reply(false)),
        },
        Control::Expect => Reply::Fixed(expectation_failed()),
        Control::Bar => Reply::Fixed(barred_reply()),
        Control::Unseen => Reply::Fixed(unavailable_reply(false)),
        Control::Stop => Reply::Fixed(stop_reply()),
        Control::Copy => Reply::Fixed(copy_reply(copied)),
    }
}

/// What the bytes of a message are read as, by HTTP's rules.
fn taken(alloc: Global, message: &[u8]) -> Result<Request, WireFault>
    ensures { result ≢ Err WireFault.NoMemory → IsTakenAs message.now result }
{
    by_rules(alloc, read_sent(alloc, message))
}

impl<S: Backend, C: System> Framing for WebDesk<S, C> {
    ghost use Rattle.http_rules.specs.Expectation.{StatesByRules};

    ghost States = { StatesByRules };

    ghost limit = { 262144 };

    fn stated(head: &[u8]) -> Option<u32> {
        stated_by_rules(head)
    }
}

impl<S: Backend, C: System> server_core::Desk for WebDesk<S, C> {
    ghost use Rattle.web_core.specs.Web as web;

    ghost Steps = { web.Steps S.Store C.made C.told };

    ghost shuts = { web.shuts S.Store };

    fn step(&mut self, alloc: Global, minute: u32, message: &[u8]) -> Answer {
        let expects = is_expecting(message);
        let read = taken(alloc, message);
        let guard = guarded(
            alloc,
            self.proxied,
            self.https,
            self.desk.settings(),
            &mut self.guesses,
            minute,
            &read,
        );
        let control = control_by(expects, guard, self.desk.settings(), &read);
        let copied = copy_if(control, &mut self.system);
        let routes = self.routes.as_ref();
        let whole = answer_to(
            alloc,
            routes,
            self.https,
            minute,
            &read,
            control,
            copied,
            &mut self.desk,
        );
        let note = note_on(
            alloc,
            self.proxied,
            self.https,
            self.desk.settings(),
            minute,
            &read,
            whole.bytes(),
        );
        let reply = with_date(alloc, self.system.second(), whole);
        drop(read);
        self.stops = stops_then(self.stops, control);
        self.is_shut = is_seen_shut(&mut self.desk);
        Answer { reply, note }
    }

    fn is_shut(&self) -> bool {
        self.is_shut || self.stops
    }
}
