//! What holds of every stream.
ghost use Rattle.std.specs.Prelude.{◌≡◌, ◌≢◌, ◌≤◌, [], ℕ, List, Option, Some, Result, Err, Ok, false};
ghost use Rattle.httparse.specs.Grammar.{RequestHead};
ghost use Rattle.message_core.specs.Head.{StartsWith};
ghost use Rattle.message_core.specs.Limits.{most_of, takes_long_bodies};
ghost use Rattle.message_core.specs.Message.{Reads};
ghost use Rattle.message_core.specs.Request.{ReadsRequested, message_in};
ghost use Rattle.message_core.specs.Stated.{States};
ghost use Rattle.message_core.specs.declared.fault.WireFault.{WireFault};
ghost use Rattle.message_core.specs.declared.limits.BodyLimit.{BodyLimit as Limit};
ghost use Rattle.message_core.specs.declared.message.Message.{Message};
ghost use Rattle.message_core.specs.declared.request.Request.{Request};

use crate::fault::WireFault;
use crate::limits::BodyLimit;

/// What is read of a stream is a function of its bytes: the same message, or the same fault. So is
/// what is left of it, but where it has no head.
pub fn reading_law()
    ensures read { (stream : List ℕ) (left other : Option (List ℕ))
        (read again : Result Message WireFault)
        → Reads (Some stream) left read → Reads (Some stream) other again → read ≡ again }
    ensures left { (stream : List ℕ) (left other : Option (List ℕ))
        (read again : Result Message WireFault) → read ≢ Err WireFault.BadHead
        → Reads (Some stream) left read → Reads (Some stream) other again → left ≡ other }
{}

/// What is read with its head within the plain limit is the message that is read without it, or the
/// same fault. Within that by place it is the same where the target doesn't begin with `/desk/`:
/// of each message, and of each stream whose head has such a target, whatever is read. And the head
/// is that with which the stream starts, so `header_values` tells what the stream's head says.
pub fn request_law()
    ensures message { (old new : Option (List ℕ)) (read : Result Request WireFault)
        → ReadsRequested BodyLimit.Plain old new read → Reads old new (message_in read) }
    ensures elsewhere { (old new : Option (List ℕ)) (request : Request)
        → ReadsRequested BodyLimit.ByPlace old new (Ok request)
        → takes_long_bodies request.message.target ≡ false
        → Reads old new (message_in (Ok request)) }
    ensures stream { (stream : List ℕ) (left : Option (List ℕ)) (read : Result Request WireFault)
        (h : RequestHead) (rest : List ℕ) → StartsWith stream h rest
        → takes_long_bodies h.target ≡ false
        → ReadsRequested BodyLimit.ByPlace (Some stream) left read
        → Reads (Some stream) left (message_in read) }
    ensures head { (limit : Limit) (stream : List ℕ) (left : Option (List ℕ)) (request : Request)
        → ReadsRequested limit (Some stream) left (Ok request) → (h : RequestHead) (rest : List ℕ)
        → StartsWith stream h rest → StartsWith request.head h [] }
{}

/// No length that a head states is over the limit.
#[tactic(auto, using(crate::proofs::StatedLemmas::stated_small))]
pub fn stated_law()
    ensures { (limit : Limit) (head : List ℕ) (n : ℕ) → States limit head (Some n)
        → n ≤ most_of limit }
{}
