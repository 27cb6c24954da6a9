//! Short answers, put after other bytes without taking memory.
ghost use Rattle.std.specs.Prelude.{◌≡◌, ◌++◌, ◌+◌, ◌≤◌, [], true, length, decimal};
ghost use Rattle.std.specs.Vec.{vec_capacity, vec_len};
ghost use Rattle.desk_texts.specs.Short.{is_short};
ghost use Rattle.desk_texts.specs.Texts as text;

use desk_model::{Answer, Refusal};
use itoa::Buffer;
use text_core::RightName;

/// Room for any short answer, in bytes.
pub const SHORT_TEXT: usize = 64;

/// Whether the text of what came of a command is a short one: of `Done`, of `Created` or of a
/// refusal.
pub fn is_short(outcome: &Result<Answer, Refusal>) -> bool
    ensures { result ≡ is_short outcome.now }
{
    match outcome {
        Ok(Answer::Done) => true,
        Ok(Answer::Created(_)) => true,
        Ok(_) => false,
        Err(_) => true,
    }
}

/// Puts the text of `Done`, of `Created` or of a refusal at the end, where there is room for 64
/// bytes. Takes no memory.
pub fn put_short(outcome: &Result<Answer, Refusal>, out: &mut Vec<u8>)
    requires short { is_short outcome.now ≡ true }
    requires room { vec_len out.old + 64 ≤ vec_capacity out.old }
    ensures put { out.new.items ≡ out.old.items ++ text.outcome_text outcome.now }
    ensures short { vec_len out.new ≤ vec_len out.old + 64 }
{
    match outcome {
        Ok(Answer::Created(id)) => put_created(out, *id),
        Ok(_) => put(out, "ok\n"),
        Err(refusal) => put_refusal(out, refusal),
    }
}

fn put_created(out: &mut Vec<u8>, id: u32)
    requires { vec_len out.old + 64 ≤ vec_capacity out.old }
    ensures put { out.new.items ≡ out.old.items ++ text.created_text id }
    ensures short { vec_len out.new ≤ vec_len out.old + 64 }
{
    put(out, "request ");
    put_number(out, id);
    put(out, "\n");
}

fn put_refusal(out: &mut Vec<u8>, refusal: &Refusal)
    requires { vec_len out.old + 64 ≤ vec_capacity out.old }
    ensures put { out.new.items ≡ out.old.items ++ text.refusal_text refusal.now }
    ensures short { vec_len out.new ≤ vec_len out.old + 64 }
{
    match refusal {
        Refusal::Denied(right) => put_denied(out, right),
        _ => put_plain(out, refusal),
    }
}

/// Puts that a right is lacking, with the right behind a space: 32 letters at most.
fn put_denied(out: &mut Vec<u8>, right: &RightName)
    requires { vec_len out.old + 64 ≤ vec_capacity out.old }
    ensures put { out.new.items ≡ out.old.items ++ text.refusal_text (Refusal.Denied right.now) }
    ensures short { vec_len out.new ≤ vec_len out.old + 64 }
{
    put(out, "refused ");
    put_number(out, 6);
    put(out, " Denied ");
    put(out, right.as_str());
    put(out, "\n");
}

/// Puts a refusal that names no right.
fn put_plain(out: &mut Vec<u8>, refusal: &Refusal)
    requires room { vec_len out.old + 64 ≤ vec_capacity out.old }
    ensures put { out.new.items ≡ out.old.items ++ text.refused_text refusal.now [] }
    ensures short { vec_len out.new ≤ vec_len out.old + 64 }
{
    put(out, "refused ");
    put_number(out, u32::from(refusal.number()));
    put(out, " ");
    put(out, refusal.name());
    put(out, "\n");
}

fn put_number(out: &mut Vec<u8>, number: u32)
    requires { vec_len out.old + 10 ≤ vec_capacity out.old }
    ensures put { out.new.items ≡ out.old.items ++ decimal number }
    ensures short { vec_len out.new ≤ vec_len out.old + 10 }
    ensures room { vec_capacity out.old ≤ vec_capacity out.new }
{
    let mut buffer = Buffer::new();
    put(out, buffer.format(number));
}

fn put(out: &mut Vec<u8>, text: &str)
    requires { vec_len out.old + length text.now ≤ vec_capacity out.old }
    ensures put { out.new.items ≡ out.old.items ++ text.now }
    ensures room { vec_capacity out.old ≤ vec_capacity out.new }
{
    out.extend_from_slice(text.as_bytes()).unwrap();
}
