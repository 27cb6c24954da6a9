//! What a form asks of the desk, and its reply.
ghost use Rattle.std.specs.Prelude.{◌≡◌, ◌≤◌, [], None, OnErr, OnOk, Some};
ghost use Rattle.std.specs.Option.{option_and_then};
ghost use Rattle.std.specs.Vec.{vec_capacity};
ghost use Rattle.desk_model.specs.Step.{refusal_beforehand};
ghost use Rattle.service_core.specs.Leaves.{LeavesDesk};
ghost use Rattle.service_core.specs.Seen.{settings_of, tables_of};
ghost use Rattle.page_wire.specs.Forms.{FormStepsOn, StepsOnceOn, StepsUnrefusedOn};
ghost use Rattle.page_wire.specs.Next as brought;
ghost use Rattle.page_wire.specs.Replies as form;
ghost use Rattle.page_wire.specs.Twice.{told_request as request_told};
ghost use Rattle.wire_core.specs.Steps.{StaysOn};

use crate::follow_up::run_follow_up;
use crate::next::{first_text, follow_up_command};
use crate::overtaken::told_before;
use crate::redirect::put_done;
use crate::twice::told_request;
use crate::unsent::refused_reply;
use desk_core::{Answer, Command, Refusal, refusal_without_facts};
use hours_core::Minute;
use page_routes::SubmittedForm;
use service_core::Desk;
use settings_core::Settings;
use std::alloc::{AllocError, Global};
use store_core::Backend;
use text_core::Text;

/// Does what a form asks for, its second command only where the first isn't refused, and puts its
/// reply into the room. A new request is filed with its first text. What the second would be refused
/// for on every desk is refused before the first, what was sent or filed already isn't done again, and a
/// reply that somebody overtook isn't sent yet. Out of memory nothing is done, and nothing is put.
#[tactic(auto, using(service_core::proofs::LeftLemmas::left_same))]
pub(crate) fn submit_form<S: Backend>(
    alloc: Global,
    caller: &str,
    command: &Command,
    sent: &SubmittedForm,
    moment: Minute,
    desk: &mut Desk<S>,
    room: &mut Vec<u8>,
) -> Result<(), AllocError>
    requires empty { room.old.items ≡ [] }
    requires room { 512 ≤ vec_capacity room.old }
    ensures ok { OnOk result (FormStepsOn (settings_of S.Store desk.old) moment caller.now
        command.now sent.now room.new.items (tables_of S.Store desk.old)
        (tables_of S.Store desk.new)) }
    ensures err { OnErr result ((room.new ≡ room.old) × StaysOn (settings_of S.Store desk.old)
        (tables_of S.Store desk.old) (tables_of S.Store desk.new)) }
    ensures left { LeavesDesk S.Store desk.old desk.new }
{
    match follow_up_command(alloc, sent) {
        Ok(second) => submit_with(alloc, caller, command, sent, second, moment, desk, room),
        Err(_) => Err(AllocError),
    }
}

/// The same, with a copy of the second command: it was had before the first is done.
#[tactic(auto, using(service_core::proofs::LeftLemmas::left_same))]
fn submit_with<S: Backend>(
    alloc: Global,
    caller: &str,
    command: &Command,
    sent: &SubmittedForm,
    second: Option<Command>,
    moment: Minute,
    desk: &mut Desk<S>,
    room: &mut Vec<u8>,
) -> Result<(), AllocError>
    requires second { second ≡ brought.follow_up_command sent.now }
    requires empty { room.old.items ≡ [] }
    requires room { 512 ≤ vec_capacity room.old }
    ensures ok { OnOk result (FormStepsOn (settings_of S.Store desk.old) moment caller.now
        command.now sent.now room.new.items (tables_of S.Store desk.old)
        (tables_of S.Store desk.new)) }
    ensures err { OnErr result ((room.new ≡ room.old) × StaysOn (settings_of S.Store desk.old)
        (tables_of S.Store desk.old) (tables_of S.Store desk.new)) }
    ensures left { LeavesDesk S.Store desk.old desk.new }
{
    match refusal_of(desk.settings(), caller, moment, &second) {
        None => submit_once(alloc, caller, command, sent, second, moment, desk, room),
        Some(refusal) => {
            drop(second);
            put_refused(alloc, caller, moment, sent, refusal, room)
        }
    }
}

/// What the second command is refused for whatever stands on the desk, if for anything.
fn refusal_of(
    settings: &Settings,
    caller: &str,
    moment: Minute,
    second: &Option<Command>,
) -> Option<Refusal>
    ensures { result
        ≡ option_and_then (refusal_beforehand settings.now moment caller.now) second.now }
{
    match second {
        Some(command) => refusal_without_facts(settings, moment.get(), caller, command),
        None => None,
    }
}

/// Does what a form asks for whose second command isn't refused beforehand, unless it sends a text
/// that is held back, or files what was filed already.
#[tactic(auto, using(service_core::proofs::LeftLemmas::left_same))]
fn submit_once<S: Backend>(
    alloc: Global,
    caller: &str,
    command: &Command,
    sent: &SubmittedForm,
    second: Option<Command>,
    moment: Minute,
    desk: &mut Desk<S>,
    room: &mut Vec<u8>,
) -> Result<(), AllocError>
    requires second { second ≡ brought.follow_up_command sent.now }
    requires empty { room.old.items ≡ [] }
    requires room { 512 ≤ vec_capacity room.old }
    ensures ok { OnOk result (StepsOnceOn (settings_of S.Store desk.old) moment caller.now
        command.now sent.now (request_told sent.now) room.new.items (tables_of S.Store desk.old)
        (tables_of S.Store desk.new)) }
    ensures err { OnErr result ((room.new ≡ room.old) × StaysOn (settings_of S.Store desk.old)
        (tables_of S.Store desk.old) (tables_of S.Store desk.new)) }
    ensures left { LeavesDesk S.Store desk.old desk.new }
{
    match told_request(sent) {
        Some(id) => submit_unless_told(
            alloc, caller, command, sent, second, id, moment, desk, room,
        ),
        None => submit_unless_filed(alloc, caller, command, sent, second, moment, desk, room),
    }
}

/// The same with a form that sends no text to a request that is there: where the request that it files
/// was filed already, it leads there, and nothing is done.
#[tactic(auto, using(service_core::proofs::LeftLemmas::left_same))]
fn submit_unless_filed<S: Backend>(
    alloc: Global,
    caller: &str,
    command: &Command,
    sent: &SubmittedForm,
    second: Option<Command>,
    moment: Minute,
    desk: &mut Desk<S>,
    room: &mut Vec<u8>,
) -> Result<(), AllocError>
    requires second { second ≡ brought.follow_up_command sent.now }
    requires empty { room.old.items ≡ [] }
    requires room { 512 ≤ vec_capacity room.old }
    ensures ok { OnOk result (StepsOnceOn (settings_of S.Store desk.old) moment caller.now
        command.now sent.now None room.new.items (tables_of S.Store desk.old)
        (tables_of S.Store desk.new)) }
    ensures err { OnErr result ((room.new ≡ room.old) × StaysOn (settings_of S.Store desk.old)
        (tables_of S.Store desk.old) (tables_of S.Store desk.new)) }
    ensures left { LeavesDesk S.Store desk.old desk.new }
{
    match first_text(alloc, sent) {
        Ok(text) => submit_new(
            alloc, caller, command, sent, second, text, moment, desk, room,
        ),
        Err(_) => {
            drop(second);
            Err(AllocError)
        }
    }
}

/// The same, with a copy of the first text of what is filed.
fn submit_new<S: Backend>(
    alloc: Global,
    caller: &str,
    command: &Command,
    sent: &SubmittedForm,
    second: Option<Command>,
    text: Option<Text>,
    moment: Minute,
    desk: &mut Desk<S>,
    room: &mut Vec<u8>,
) -> Result<(), AllocError>
    requires second { second ≡ brought.follow_up_command sent.now }
    requires text { text ≡ brought.first_text sent.now }
    requires empty { room.old.items ≡ [] }
    requires room { 512 ≤ vec_capacity room.old }
    ensures ok { OnOk result (StepsOnceOn (settings_of S.Store desk.old) moment caller.now
        command.now sent.now None room.new.items (tables_of S.Store desk.old)
        (tables_of S.Store desk.new)) }
    ensures err { OnErr result ((room.new ≡ room.old) × StaysOn (settings_of S.Store desk.old)
        (tables_of S.Store desk.old) (tables_of S.Store desk.new)) }
    ensures left { LeavesDesk S.Store desk.old desk.new }
{
    match desk.filed_lately(alloc, moment.get(), caller, command, &text) {
        Ok(None) => {
            let done = submit(
                alloc, caller, command, sent, second, &text, moment, desk, room,
            );
            drop(text);
            done
        }
        Ok(Some(id)) => {
            drop(second);
            drop(text);
            put_done(sent, &Answer::Created(id), room);
            Ok(())
        }
        Err(refusal) => {
            drop(second);
            drop(text);
            put_refused(alloc, caller, moment, sent, refusal, room)
        }
    }
}

/// The same with a text for this request: where it is held back, that is told, and nothing is done.
fn submit_unless_told<S: Backend>(
    alloc: Global,
    caller: &str,
    command: &Command,
    sent: &SubmittedForm,
    second: Option<Command>,
    id: u32,
    moment: Minute,
    desk: &mut Desk<S>,
    room: &mut Vec<u8>,
) -> Result<(), AllocError>
    requires second { second ≡ brought.follow_up_command sent.now }
    requires empty { room.old.items ≡ [] }
    requires room { 512 ≤ vec_capacity room.old }
    ensures ok { OnOk result (StepsOnceOn (settings_of S.Store desk.old) moment caller.now
        command.now sent.now (Some id) room.new.items (tables_of S.Store desk.old)
        (tables_of S.Store desk.new)) }
    ensures err { OnErr result ((room.new ≡ room.old) × StaysOn (settings_of S.Store desk.old)
        (tables_of S.Store desk.old) (tables_of S.Store desk.new)) }
    ensures left { LeavesDesk S.Store desk.old desk.new }
{
    let dossier = desk.dossier(alloc, moment.get(), caller, id);
    let told = told_before(alloc, caller, moment, sent, &dossier);
    drop(dossier);
    match told {
        Ok(Some(bytes)) => {
            drop(second);
            *room = bytes;
            Ok(())
        }
        Ok(None) => submit_both(alloc, caller, command, sent, second, moment, desk, room),
        Err(_) => {
            drop(second);
            Err(AllocError)
        }
    }
}

/// Does what a form asks for whose second command isn't refused beforehand.
#[tactic(auto, using(service_core::proofs::LeftLemmas::left_same))]
fn submit_both<S: Backend>(
    alloc: Global,
    caller: &str,
    command: &Command,
    sent: &SubmittedForm,
    second: Option<Command>,
    moment: Minute,
    desk: &mut Desk<S>,
    room: &mut Vec<u8>,
) -> Result<(), AllocError>
    requires second { second ≡ brought.follow_up_command sent.now }
    requires empty { room.old.items ≡ [] }
    requires room { 512 ≤ vec_capacity room.old }
    ensures ok { OnOk result (StepsUnrefusedOn (settings_of S.Store desk.old) moment caller.now
        command.now sent.now room.new.items (tables_of S.Store desk.old)
        (tables_of S.Store desk.new)) }
    ensures err { OnErr result ((room.new ≡ room.old) × StaysOn (settings_of S.Store desk.old)
        (tables_of S.Store desk.old) (tables_of S.Store desk.new)) }
    ensures left { LeavesDesk S.Store desk.old desk.new }
{
    match first_text(alloc, sent) {
        Ok(text) => {
            let done = submit(
                alloc, caller, command, sent, second, &text, moment, desk, room,
            );
            drop(text);
            done
        }
        Err(_) => {
            drop(second);
            Err(AllocError)
        }
    }
}

/// The same, with a copy of the first text of what is filed.
fn submit<S: Backend>(
    alloc: Global,
    caller: &str,
    command: &Command,
    sent: &SubmittedForm,
    second: Option<Command>,
    text: &Option<Text>,
    moment: Minute,
    desk: &mut Desk<S>,
    room: &mut Vec<u8>,
) -> Result<(), AllocError>
    requires second { second ≡ brought.follow_up_command sent.now }
    requires text { text.now ≡ brought.first_text sent.now }
    requires empty { room.old.items ≡ [] }
    requires room { 512 ≤ vec_capacity room.old }
    ensures ok { OnOk result (StepsUnrefusedOn (settings_of S.Store desk.old) moment caller.now
        command.now sent.now room.new.items (tables_of S.Store desk.old)
        (tables_of S.Store desk.new)) }
    ensures err { OnErr result ((room.new ≡ room.old) × StaysOn (settings_of S.Store desk.old)
        (tables_of S.Store desk.old) (tables_of S.Store desk.new)) }
    ensures left { LeavesDesk S.Store desk.old desk.new }
{
    match desk.file(alloc, moment.get(), caller, command, text) {
        Ok(answer) => {
            run_follow_up(alloc, caller, second, sent, &answer, moment, desk, room);
            drop(answer);
            Ok(())
        }
        Err(refusal) => {
            drop(second);
            put_refused(alloc, caller, moment, sent, refusal, room)
        }
    }
}

/// Puts the reply to a form that was refused; out of memory, nothing.
fn put_refused(
    alloc: Global,
    caller: &str,
    moment: Minute,
    sent: &SubmittedForm,
    refusal: Refusal,
    room: &mut Vec<u8>,
) -> Result<(), AllocError>
    ensures ok { OnOk result (room.new.items
        ≡ form.refused_reply caller.now moment sent.now refusal) }
    ensures err { OnErr result (room.new ≡ room.old) }
{
    match refused_reply(alloc, caller, moment, sent, refusal) {
        Ok(bytes) => {
            *room = bytes;
            Ok(())
        }
        Err(_) => Err(AllocError),
    }
}
