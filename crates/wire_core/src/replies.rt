//! Which reply each outcome and each fault has.
ghost use Rattle.std.specs.Prelude.{◌≡◌, IfOk, codes, string_bytes};
ghost use Rattle.desk_texts.specs.Texts.{outcome_text};
ghost use Rattle.message_core.specs.Fault as message;
ghost use Rattle.wire_core.specs.Replies as replies;

use desk_core::{Answer, Refusal};
use message_core::{Allow, Message, Reply, WireFault};
use route_core::Unasked;
use service_core::refusal_text;
use std::alloc::{AllocError, Global};
use text_core::Sequence;

/// Whether a message is a HEAD, whose reply is written without its body.
pub fn is_head(message: &Message) -> bool
    ensures { result ≡ replies.is_head message.now }
{
    message.method.as_slice() == b"HEAD".as_slice()
}

/// The reply with what came of a command, of which this is the text.
pub(crate) fn outcome_reply(
    head_only: bool,
    outcome: &Result<Answer, Refusal>,
    text: Vec<u8>,
) -> Reply
    requires { text.items ≡ outcome_text outcome.now }
    ensures { result ≡ replies.outcome_reply head_only outcome.now }
{
    Reply {
        status: code_of(outcome),
        allow: None,
        body: Sequence::from(text),
        head_only,
    }
}

fn code_of(outcome: &Result<Answer, Refusal>) -> u16
    ensures { result ≡ replies.code_of outcome.now }
{
    match outcome {
        Ok(answer) => code_of_answer(answer),
        Err(refusal) => code_of_refusal(refusal),
    }
}

/// 201 where a request was filed, and 200 for any other answer.
fn code_of_answer(answer: &Answer) -> u16
    ensures { result ≡ replies.code_of_answer answer.now }
{
    match answer {
        Answer::Created(_) => 201,
        _ => 200,
    }
}

/// The code of the reply with a refusal.
pub fn code_of_refusal(refusal: &Refusal) -> u16
    ensures { result ≡ replies.code_of_refusal refusal.now }
{
    match refusal {
        Refusal::BadMoment | Refusal::BadText | Refusal::UnknownName | Refusal::SelfLink => 400,
        Refusal::UnknownCaller | Refusal::Denied(_) => 403,
        Refusal::NotFound => 404,
        Refusal::NoChange
        | Refusal::NoTransition
        | Refusal::OpenDependency
        | Refusal::Owned
        | Refusal::NotOwned
        | Refusal::NotOwner
        | Refusal::Exists
        | Refusal::Full => 409,
        Refusal::Unavailable => 503,
    }
}

/// The reply that tells why a stream has no message.
pub(crate) fn stream_reply(alloc: Global, fault: WireFault) -> Result<Reply, AllocError>
    ensures { IfOk result (λ reply. reply ≡ replies.stream_reply fault) }
{
    let text = bad_message_text(alloc, fault)?;
    Ok(Reply {
        status: 400,
        allow: None,
        body: Sequence::from(text.into_bytes()),
        head_only: false,
    })
}

/// The reply that tells why a message asks for no command.
pub(crate) fn unasked_reply(
    alloc: Global,
    head_only: bool,
    unasked: Unasked,
) -> Result<Reply, AllocError>
    ensures { IfOk result (λ reply. reply ≡ replies.unasked_reply head_only unasked) }
{
    let text = text_of_unasked(alloc, unasked)?;
    Ok(Reply {
        status: code_of_unasked(unasked),
        allow: allow_of(unasked),
        body: Sequence::from(text.into_bytes()),
        head_only,
    })
}

fn code_of_unasked(unasked: Unasked) -> u16
    ensures { result ≡ replies.code_of_unasked unasked }
{
    match unasked {
        Unasked::NoRoute => 404,
        Unasked::BadMethod(_) => 405,
        Unasked::NoToken => 403,
        Unasked::BadBody => 400,
    }
}

/// The methods of the place, where the message has another one.
fn allow_of(unasked: Unasked) -> Option<Allow>
    ensures { result ≡ replies.allow_of unasked }
{
    match unasked {
        Unasked::BadMethod(methods) => Some(methods),
        Unasked::NoRoute | Unasked::NoToken | Unasked::BadBody => None,
    }
}

fn text_of_unasked(alloc: Global, unasked: Unasked) -> Result<String, AllocError>
    ensures { IfOk result (λ t. string_bytes t ≡ replies.text_of_unasked unasked) }
{
    match unasked {
        Unasked::NoRoute | Unasked::BadMethod(_) | Unasked::BadBody => {
            bad_request_text(alloc, unasked)
        }
        Unasked::NoToken => refusal_text(alloc, &Refusal::UnknownCaller),
    }
}

#[tactic(auto, unfolding(crate::specs::Replies::fault_text))]
fn bad_message_text(alloc: Global, fault: WireFault) -> Result<String, AllocError>
    ensures { IfOk result (λ t. string_bytes t
        ≡ replies.fault_text (codes "bad message") (message.number_of fault) (message.name_of fault)) }
{
    let number = fault.number();
    let name = fault.name();
    format!(in alloc; "bad message {number} {name}\n")
}

#[tactic(auto, unfolding(crate::specs::Replies::fault_text))]
fn bad_request_text(alloc: Global, unasked: Unasked) -> Result<String, AllocError>
    ensures { IfOk result (λ t. string_bytes t ≡ replies.bad_request_text unasked) }
{
    let fault = unasked.fault();
    let number = fault.number();
    let name = fault.name();
    format!(in alloc; "bad request {number} {name}\n")
}
