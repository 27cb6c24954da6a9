//! What is told of a form that is done.
ghost use Rattle.std.specs.Prelude.{◌≡◌, ◌≤◌, [], true, Some, IfOk};
ghost use Rattle.std.specs.Vec.{vec_capacity};
ghost use Rattle.service_core.specs.Leaves.{LeavesDesk};
ghost use Rattle.service_core.specs.Seen.{settings_of, tables_of};
ghost use Rattle.page_wire.specs.Forms.{DoneStepsOn, TellsFiled};
ghost use Rattle.page_wire.specs.Forms as steps;
ghost use Rattle.page_wire.specs.Replies as form;

use crate::redirect::put_done;
use crate::replies::with_page;
use desk_core::{Answer, Dossier, Refusal};
use desk_pages::filed_page;
use hours_core::Minute;
use page_routes::SubmittedForm;
use service_core::Desk;
use std::alloc::{AllocError, Global};
use store_core::Backend;

/// Puts the reply to a form that is done, after this answer to its command. Who filed a request and may
/// not see it is told its number.
#[tactic(auto, using(service_core::proofs::LeftLemmas::left_same))]
pub(crate) fn tell_done<S: Backend>(
    alloc: Global,
    caller: &str,
    sent: &SubmittedForm,
    answer: &Answer,
    moment: Minute,
    desk: &mut Desk<S>,
    room: &mut Vec<u8>,
)
    requires empty { room.old.items ≡ [] }
    requires room { 512 ≤ vec_capacity room.old }
    ensures step { DoneStepsOn (settings_of S.Store desk.old) moment caller.now sent.now answer.now
        (steps.new_request sent.now answer.now) room.new.items (tables_of S.Store desk.old)
        (tables_of S.Store desk.new) }
    ensures left { LeavesDesk S.Store desk.old desk.new }
{
    match new_request(sent, answer) {
        Some(id) => tell_filed(alloc, caller, sent, answer, id, moment, desk, room),
        None => put_done(sent, answer, room),
    }
}

/// The request that a form has filed, if it has filed one.
fn new_request(sent: &SubmittedForm, answer: &Answer) -> Option<u32>
    ensures { result ≡ steps.new_request sent.now answer.now }
{
    match (sent, answer) {
        (SubmittedForm::New { .. }, Answer::Created(id)) => Some(*id),
        _ => None,
    }
}

/// The same of the request with this number, which the form has filed.
fn tell_filed<S: Backend>(
    alloc: Global,
    caller: &str,
    sent: &SubmittedForm,
    answer: &Answer,
    id: u32,
    moment: Minute,
    desk: &mut Desk<S>,
    room: &mut Vec<u8>,
)
    requires empty { room.old.items ≡ [] }
    requires room { 512 ≤ vec_capacity room.old }
    ensures step { DoneStepsOn (settings_of S.Store desk.old) moment caller.now sent.now answer.now
        (Some id) room.new.items (tables_of S.Store desk.old) (tables_of S.Store desk.new) }
    ensures left { LeavesDesk S.Store desk.old desk.new }
{
    let dossier = desk.dossier(alloc, moment.get(), caller, id);
    let hidden = is_hidden(&dossier);
    drop(dossier);
    put_told(alloc, caller, moment, sent, id, hidden, room);
}

fn is_hidden(dossier: &Result<Dossier, Refusal>) -> bool
    ensures { result ≡ steps.is_hidden dossier.now }
{
    match dossier {
        Err(Refusal::NotFound) => true,
        _ => false,
    }
}

/// Puts the way to the request that was filed, or where it is hidden from its filer, the page that tells
/// its number.
fn put_told(
    alloc: Global,
    caller: &str,
    moment: Minute,
    sent: &SubmittedForm,
    id: u32,
    hidden: bool,
    room: &mut Vec<u8>,
)
    requires empty { room.old.items ≡ [] }
    requires room { 512 ≤ vec_capacity room.old }
    ensures { TellsFiled caller.now moment sent.now id hidden room.new.items }
{
    if hidden {
        put_number(alloc, caller, moment, sent, id, room);
    } else {
        put_done(sent, &Answer::Created(id), room);
    }
}

fn put_number(
    alloc: Global,
    caller: &str,
    moment: Minute,
    sent: &SubmittedForm,
    id: u32,
    room: &mut Vec<u8>,
)
    requires empty { room.old.items ≡ [] }
    requires room { 512 ≤ vec_capacity room.old }
    ensures { TellsFiled caller.now moment sent.now id true room.new.items }
{
    match filed_reply(alloc, caller, moment, id) {
        Ok(bytes) => *room = bytes,
        Err(_) => put_done(sent, &Answer::Created(id), room),
    }
}

fn filed_reply(alloc: Global, caller: &str, moment: Minute, id: u32) -> Result<Vec<u8>, AllocError>
    ensures { IfOk result (λ out. out.items ≡ form.filed_reply caller.now moment id) }
{
    let page = filed_page(alloc, caller, moment, id)?;
    with_page(alloc, 200, page)
}
