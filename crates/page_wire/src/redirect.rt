//! Where one is led once something was done. These replies are put into room that was had before,
//! so that nothing is done of which no reply can tell.
ghost use Rattle.std.specs.Prelude.{◌≡◌, ◌≤◌, []};
ghost use Rattle.std.specs.Vec.{vec_capacity};
ghost use Rattle.page_wire.specs.Redirect as form;
ghost use Rattle.page_wire.specs.Replies.{done_reply};

use desk_core::Answer;
use itoa::Buffer;
use page_reply::put_way;
use page_routes::SubmittedForm;

/// Room for any of these replies, in bytes.
pub(crate) const ROOM: usize = 512;

/// Puts the reply to a form that was done.
pub(crate) fn put_done(sent: &SubmittedForm, answer: &Answer, room: &mut Vec<u8>)
    requires empty { room.old.items ≡ [] }
    requires room { 512 ≤ vec_capacity room.old }
    ensures { room.new.items ≡ done_reply sent.now answer.now }
{
    match answer {
        Answer::Created(id) => put_redirect(*id, room),
        _ => put_redirect_by(sent, room),
    }
}

/// Puts the reply that leads where a form leads.
pub(crate) fn put_redirect_by(sent: &SubmittedForm, room: &mut Vec<u8>)
    requires empty { room.old.items ≡ [] }
    requires room { 512 ≤ vec_capacity room.old }
    ensures { room.new.items ≡ form.led_by sent.now }
{
    match sent {
        SubmittedForm::Queue | SubmittedForm::New { .. } => put_home(room),
        SubmittedForm::Reply { id, .. }
        | SubmittedForm::Comment { id, .. }
        | SubmittedForm::Change { id } => { put_redirect(*id, room) }
    }
}

/// The reply that leads to the end of the history of a request.
fn put_redirect(id: u32, room: &mut Vec<u8>)
    requires empty { room.old.items ≡ [] }
    requires room { 512 ≤ vec_capacity room.old }
    ensures { room.new.items ≡ form.led_to id }
{
    let mut number = Buffer::new();
    put_way(room, "/desk/requests/", number.format(id), "#reply");
}

/// The reply that leads to the first page.
fn put_home(room: &mut Vec<u8>)
    requires empty { room.old.items ≡ [] }
    requires room { 512 ≤ vec_capacity room.old }
    ensures { room.new.items ≡ form.led_home }
{
    put_way(room, "/", "", "");
}
