//! The second command of a form, after the first was done.
ghost use Rattle.std.specs.Prelude.{◌≡◌, ◌≤◌, [], IfOk, Some};
ghost use Rattle.std.specs.Vec.{vec_capacity};
ghost use Rattle.page_core.specs.Page.{page_bytes};
ghost use Rattle.service_core.specs.Leaves.{LeavesDesk};
ghost use Rattle.service_core.specs.Seen.{settings_of, tables_of};
ghost use Rattle.page_wire.specs.Forms.{TellsPartlyDone, SecondStepsOn};
ghost use Rattle.page_wire.specs.Replies as form;

use crate::done::tell_done;
use crate::redirect::put_done;
use crate::replies::with_page;
use crate::sign_in::chosen;
use desk_core::{Answer, Command, Refusal};
use desk_pages::{refusal_page, replied_page};
use hours_core::Minute;
use page_routes::SubmittedForm;
use service_core::Desk;
use std::alloc::{AllocError, Global};
use store_core::Backend;
use wire_core::code_of_refusal;

/// Does the second command of a form, if there is one, after this answer to the first, and puts the
/// reply into the room.
#[tactic(auto, using(service_core::proofs::LeftLemmas::left_same))]
pub(crate) fn run_follow_up<S: Backend>(
    alloc: Global,
    caller: &str,
    second: Option<Command>,
    sent: &SubmittedForm,
    answer: &Answer,
    moment: Minute,
    desk: &mut Desk<S>,
    room: &mut Vec<u8>,
)
    requires empty { room.old.items ≡ [] }
    requires room { 512 ≤ vec_capacity room.old }
    ensures step { SecondStepsOn (settings_of S.Store desk.old) moment caller.now sent.now
        answer.now second room.new.items (tables_of S.Store desk.old)
        (tables_of S.Store desk.new) }
    ensures left { LeavesDesk S.Store desk.old desk.new }
{
    match second {
        Some(command) => {
            run_command(alloc, caller, &command, sent, answer, moment, desk, room);
            drop(command);
        }
        None => tell_done(alloc, caller, sent, answer, moment, desk, room),
    }
}

fn run_command<S: Backend>(
    alloc: Global,
    caller: &str,
    command: &Command,
    sent: &SubmittedForm,
    answer: &Answer,
    moment: Minute,
    desk: &mut Desk<S>,
    room: &mut Vec<u8>,
)
    requires empty { room.old.items ≡ [] }
    requires room { 512 ≤ vec_capacity room.old }
    ensures step { SecondStepsOn (settings_of S.Store desk.old) moment caller.now sent.now
        answer.now (Some command.now) room.new.items (tables_of S.Store desk.old)
        (tables_of S.Store desk.new) }
    ensures left { LeavesDesk S.Store desk.old desk.new }
{
    match desk.execute(alloc, moment.get(), caller, command) {
        Ok(told) => {
            put_done(sent, answer, room);
            drop(told);
        }
        Err(refusal) => put_half(alloc, caller, moment, sent, answer, &refusal, room),
    }
}

/// Puts the reply to a form whose second command was refused. Out of memory it leads on as after the
/// first, since something was done.
fn put_half(
    alloc: Global,
    caller: &str,
    moment: Minute,
    sent: &SubmittedForm,
    answer: &Answer,
    refusal: &Refusal,
    room: &mut Vec<u8>,
)
    requires empty { room.old.items ≡ [] }
    requires room { 512 ≤ vec_capacity room.old }
    ensures { TellsPartlyDone caller.now moment sent.now answer.now refusal.now room.new.items }
{
    match half_reply(alloc, caller, moment, sent, refusal) {
        Ok(bytes) => *room = bytes,
        Err(_) => put_done(sent, answer, room),
    }
}

fn half_reply(
    alloc: Global,
    caller: &str,
    moment: Minute,
    sent: &SubmittedForm,
    refusal: &Refusal,
) -> Result<Vec<u8>, AllocError>
    ensures { IfOk result (λ out. out.items
        ≡ form.half_reply caller.now moment sent.now refusal.now) }
{
    let page = half_page(alloc, caller, moment, sent, refusal)?;
    with_page(alloc, code_of_refusal(refusal), page)
}

/// The page that says what was done and what wasn't.
fn half_page(
    alloc: Global,
    caller: &str,
    moment: Minute,
    sent: &SubmittedForm,
    refusal: &Refusal,
) -> Result<Vec<u8>, AllocError>
    ensures { IfOk result (λ page. page.items ≡ page_bytes
        (form.half_form caller.now moment sent.now refusal.now)) }
{
    match sent {
        SubmittedForm::Reply { id, status, .. } => {
            replied_page(alloc, refusal, caller, moment, *id, chosen(status))
        }
        _ => refusal_page(alloc, refusal, caller, moment),
    }
}
