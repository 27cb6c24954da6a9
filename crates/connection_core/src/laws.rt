//! What holds of every connection, whatever happens to it.
ghost use Rattle.std.specs.Prelude.{
  ◌≡◌,
  ◌≤◌,
  ◌<◌,
  ◌+◌,
  ◌++◌,
  ◌∷◌,
  true,
  ℕ,
  Bool,
  List,
  Option,
  [],
  false,
  length,
};
ghost use Rattle.connection_core.specs.Laws.{IsBounded, IsFront, StatesAtMost, TakesFront};
ghost use Rattle.connection_core.specs.Laws.{WritesFront, is_over, sent_by};
ghost use Rattle.connection_core.specs.Machine.{AreTold, Conn, Event, IsSaid, afters, answered, opened};
ghost use Rattle.connection_core.specs.Machine.{Came, closed, passed, settled, takes, takes_byte, wrote};
ghost use Rattle.connection_core.specs.declared.phase.Part.TheVariants.{Body};
ghost use Rattle.connection_core.specs.declared.phase.Phase.TheVariants.{Lingering, Reading, Ready};

use crate::framing::Framing;

/// How what is sent is cut into pieces makes no difference.
#[tactic(auto, using(crate::proofs::ConnectionLemmas::takes_both, crate::proofs::HearsLemmas::said_both))]
pub fn pieces_law<F: Framing>()
    ensures same { (said : Option ℕ) (c : Conn) (xs ys : List ℕ)
        → afters c (Came said xs ∷ Came said ys ∷ []) ≡ afters c (Came said (xs ++ ys) ∷ []) }
    ensures said { (said : Option ℕ) (c : Conn) (xs ys : List ℕ) → IsSaid F.States said c xs
        → IsSaid F.States said (takes said c xs) ys → IsSaid F.States said c (xs ++ ys) }
{}

/// One that was answered or dropped takes no other message.
#[tactic(auto, using(crate::proofs::ConnectionLemmas::over_stays))]
pub fn once_law()
    ensures { (c : Conn) (es : List Event) → is_over c.phase ≡ true
        → is_over (afters c es).phase ≡ true }
{}

/// No connection holds more than 8,192 bytes of its message and those of the longest body, and no
/// event makes more of what is left of a reply.
#[tactic(auto, using(crate::proofs::ConnectionLemmas::bounded_always, crate::proofs::ConnectionLemmas::bounded_few, crate::proofs::ConnectionLemmas::left_always))]
pub fn memory_law<F: Framing>()
    ensures opened { (limit now : ℕ) → IsBounded limit (opened now) }
    ensures answered { (limit : ℕ) (more : Bool) (reply : List ℕ) (now : ℕ) → IsBounded limit (answered more reply now) }
    ensures always { (limit : ℕ) (c : Conn) (es : List Event) → StatesAtMost limit F.States
        → AreTold F.States c es → IsBounded limit c → IsBounded limit (afters c es) }
    ensures few { (limit : ℕ) (c : Conn) → IsBounded limit c → length c.came ≤ 8192 + limit }
    ensures left { (c : Conn) (es : List Event)
        → length (afters c es).left ≤ length c.left }
{}

/// The message is a front of the bytes that come: what is passed over comes after it.
#[tactic(auto, using(crate::proofs::ConnectionLemmas::takes_front))]
pub fn message_law()
    ensures { (said : Option ℕ) (c : Conn) (bytes : List ℕ) → TakesFront said c bytes }
{}

/// A message that is whole is a front of all that came since its connection was opened, whatever
/// else happened to that.
#[tactic(auto, using(crate::proofs::HeardLemmas::heard))]
pub fn heard_law()
    ensures { (now : ℕ) (es : List Event)
        → (afters (opened now) es).phase ≡ Ready
        → IsFront (afters (opened now) es).came (sent_by es) }
{}

/// What is written of a reply is a front of it, in the order of its bytes; all of it, where its
/// connection lingers.
#[tactic(auto, using(crate::proofs::ConnectionLemmas::reply_front))]
pub fn reply_law()
    ensures { (more : Bool) (reply : List ℕ) (now : ℕ) (es : List Event)
        → WritesFront reply (answered more reply now) es }
{}

/// One whose deadline has come is dropped as soon as it is told the time. No byte that comes puts
/// the deadline off, and none that is written but the last of a reply.
#[tactic(auto, using(crate::proofs::ConnectionLemmas::late_closes, crate::proofs::ConnectionLemmas::takes_deadline, crate::proofs::ConnectionLemmas::part_deadline))]
pub fn deadline_law()
    ensures late { (c : Conn) (now : ℕ) → c.deadline ≤ now → passed c now ≡ closed }
    ensures comes { (said : Option ℕ) (c : Conn) (bytes : List ℕ)
        → (takes said c bytes).deadline ≡ c.deadline }
    ensures goes { (c : Conn) (n now : ℕ) → n < length c.left
        → (wrote c n now).deadline ≡ c.deadline }
{}

/// A connection whose reply has gone out is over as soon as nothing waits to be read, unless more
/// than its message came or may come. That is known only where the framing told no length, where the
/// head was too long, or where bytes were passed over.
#[tactic(auto, using(crate::proofs::ConnectionLemmas::settles, crate::proofs::ConnectionLemmas::body_leaves_none))]
pub fn settle_law()
    ensures over { (c : Conn) → c.phase ≡ Lingering → c.more ≡ false → settled c ≡ closed }
    ensures whole { (said : Option ℕ) (c : Conn) (missing b : ℕ)
        → c.phase ≡ Reading (Body missing) → (takes_byte said c b).more ≡ false }
{}
