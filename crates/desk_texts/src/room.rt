//! The text of what came of a command, once there is room for a short one.
ghost use Rattle.std.specs.Prelude.{◌≡◌, ◌≤◌, ◌+◌, [], true, false, is_ok, length, string_bytes};
ghost use Rattle.std.specs.Prelude.{IfOk, OnErr};
ghost use Rattle.std.specs.Vec.{vec_capacity, vec_len};
ghost use Rattle.desk_texts.specs.Short.{is_short};
ghost use Rattle.desk_texts.specs.Texts.{outcome_text};

use crate::short::{is_short, put_short};
use crate::texts::outcome_text;
use desk_model::{Answer, Refusal};
use std::alloc::{AllocError, Global};

/// The text of what came of a command. A short one, of at most 64 bytes, is put into the room,
/// and one that shows something takes memory: `AllocError` where that is refused. So a command
/// that changes the desk always has its text, if the room was had before it.
pub fn text_in_room(
    alloc: Global,
    outcome: &Result<Answer, Refusal>,
    mut room: Vec<u8>,
) -> Result<Vec<u8>, AllocError>
    requires empty { room.items ≡ [] }
    requires room { vec_len room + 64 ≤ vec_capacity room }
    ensures ok { IfOk result (λ text. text.items ≡ outcome_text outcome.now) }
    ensures short { IfOk result (λ text. is_short outcome.now ≡ true → length text.items ≤ 64) }
    ensures err { OnErr result (is_short outcome.now ≡ false) }
{
    if is_short(outcome) {
        put_short(outcome, &mut room);
        Ok(room)
    } else {
        bytes_of(outcome_text(alloc, outcome))
    }
}

/// The bytes of a text, if there was memory for it.
fn bytes_of(text: Result<String, AllocError>) -> Result<Vec<u8>, AllocError>
    ensures ok { IfOk result (λ bytes. IfOk text (λ t. bytes.items ≡ string_bytes t)) }
    ensures same { is_ok result ≡ is_ok text }
{
    match text {
        Ok(text) => Ok(text.into_bytes()),
        Err(_) => Err(AllocError),
    }
}
