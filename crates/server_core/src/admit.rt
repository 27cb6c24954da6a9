//! Connections are accepted.
ghost use Rattle.std.specs.Prelude.{◌≡◌, ◌≢◌, ◌≤◌, ◌<◌, ◌↔◌, ℕ, List, true, length, IfNone, IfSome};
ghost use Rattle.std.specs.Prelude.{IsTrue, get_or};
ghost use Rattle.connection_core.specs.Machine.{closed};
ghost use Rattle.connection_core.specs.Seen.{seen};
ghost use Rattle.server_core.specs.Host.{KeepsClock};
ghost use Rattle.server_core.specs.Places.{Each, conns};
ghost use Rattle.server_core.specs.Rests.{Accept, AreAccepts, IsAccept};
ghost use Rattle.server_core.specs.Served.{IsAdmitted};
ghost use Rattle.server_core.specs.Wait as wait;
ghost use Rattle.server_core.specs.Wait.{IsLongest, IsToGiveWay, NoneGivesWay, longer_in, sooner_of};

use crate::host::{Host, Readiness};
use crate::slot::Slot;
use connection_core::{Connection, Phase, READING};
use std::alloc::Global;

/// For how many milliseconds a connection keeps its place, although another one waits.
pub(crate) const GRACE: u64 = 250;

/// The most connections that are accepted before the others have their turn.
const AT_ONCE: u32 = 32;

/// Whether further connections wait.
#[derive(Clone, Copy, Debug, PartialEq, Eq)]
pub(crate) enum Queue {
    /// None does.
    Empty,
    /// Some may.
    More,
    /// One may, but no place can be given to it.
    Full,
    /// Some may, and none is accepted any more.
    Held,
    /// The network didn't say.
    Unknown,
}

/// A connection that waits for its message to come: its place, and when it is dropped.
#[derive(Clone, Copy)]
struct Waiting {
    place: usize,
    deadline: u64,
}

/// Which connections are looked at.
#[derive(Clone, Copy)]
enum Kind {
    /// Those whose reply has gone out.
    Lingers,
    /// Those whose message isn't whole.
    Reads,
}

/// A place for one more connection at this moment: a free one; else that of the one that has lingered
/// longest; else, where none lingers, that of the one that has waited longest for its message to
/// come, if it was accepted a quarter of a second ago or more.
#[tactic(auto, using(crate::proofs::WaitLemmas::free_gives, crate::proofs::WaitLemmas::lingered_gives, crate::proofs::WaitLemmas::longest_gives, crate::proofs::WaitLemmas::none_reads, crate::proofs::WaitLemmas::none_waited))]
fn place_for<S>(slots: &[Slot<S>], now: u64) -> Option<usize>
    ensures gives { IfSome result (λ place. IsToGiveWay now place (conns slots.now)) }
    ensures none { IfNone result (NoneGivesWay now (conns slots.now)) }
{
    match free_place(slots) {
        Some(place) => Some(place),
        None => match longest(slots, Kind::Lingers) {
            Some(lingering) => Some(lingering.place),
            None => match longest(slots, Kind::Reads) {
                Some(waiting) => by_then(waiting, now.saturating_add(READING - GRACE)),
                None => None,
            },
        },
    }
}

/// Its place, if it is dropped at this moment or before.
fn by_then(waiting: Waiting, moment: u64) -> Option<usize>
    ensures gives { IfSome result (λ place. (place ≡ waiting.place)
        × (waiting.deadline ≤ moment)) }
    ensures none { IfNone result (moment < waiting.deadline) }
{
    if waiting.deadline <= moment {
        Some(waiting.place)
    } else {
        None
    }
}

/// The first place that is free.
#[tactic(auto, using(crate::proofs::WaitLemmas::not_closed_on, crate::proofs::WaitLemmas::phase_of))]
fn free_place<S>(slots: &[Slot<S>]) -> Option<usize>
    ensures found { IfSome result (λ place. (place < length slots.now)
        × ((get_or (conns slots.now) place closed).phase ≡ Phase.Closed)) }
    ensures none { IfNone result (Each (λ c. c.phase ≢ Phase.Closed) (conns slots.now)) }
{
    for place in 0..slots.len() {
        if is_closed(&slots[place].connection) {
            return Some(place);
        }
    }
    None
}

pub(crate) fn is_closed(connection: &Connection) -> bool
    ensures { IsTrue result ↔ ((seen connection.now).phase ≡ Phase.Closed) }
{
    match connection.phase() {
        Phase::Closed => true,
        Phase::Reading(_) | Phase::Ready | Phase::Writing | Phase::Lingering => false,
    }
}

/// Of those of this kind, the one that is dropped soonest.
#[tactic(auto, using(crate::proofs::WaitLemmas::longest_all))]
fn longest<S>(slots: &[Slot<S>], kind: Kind) -> Option<Waiting>
    ensures { IsLongest kind result (conns slots.now) }
{
    let mut best = None;
    for place in 0..slots.len() {
        best = longer(kind, best, &slots[place].connection, place);
    }
    best
}

/// Whether a connection in this phase is of the kind.
fn is_of(kind: Kind, phase: Phase) -> bool
    ensures { result ≡ wait.is_of kind phase }
{
    match kind {
        Kind::Lingers => match phase {
            Phase::Lingering => true,
            Phase::Reading(_) | Phase::Ready | Phase::Writing | Phase::Closed => false,
        },
        Kind::Reads => match phase {
            Phase::Reading(_) => true,
            Phase::Ready | Phase::Writing | Phase::Lingering | Phase::Closed => false,
        },
    }
}

/// Which is dropped sooner: the one so far, or the one at this place, if that is of the kind.
fn longer(
    kind: Kind,
    best: Option<Waiting>,
    connection: &Connection,
    place: usize,
) -> Option<Waiting>
    ensures { result ≡ longer_in kind (seen connection.now).phase best (seen connection.now).deadline
        place }
{
    if is_of(kind, connection.phase()) {
        let waiting = Waiting {
            place,
            deadline: connection.deadline(),
        };
        sooner(best, waiting)
    } else {
        best
    }
}

/// Which of them is dropped sooner; the first, where that is the same.
fn sooner(best: Option<Waiting>, other: Waiting) -> Option<Waiting>
    ensures { result ≡ sooner_of best other }
{
    match best {
        Some(waiting) if waiting.deadline <= other.deadline => Some(waiting),
        _ => Some(other),
    }
}

/// Accepts the next connection, if one waits and there is a place for it. How many accepts have
/// failed in a row is counted.
#[tactic(auto, using(crate::proofs::AcceptLemmas::admits_full))]
fn admit_one<H: Host>(
    alloc: Global,
    host: &mut H,
    now: u64,
    slots: &mut [Slot<H::Stream>],
    marks: &mut [Readiness],
    faults: &mut u64,
) -> Queue
    requires { length slots.old ≤ length marks.old }
    ensures admits { (accepts : List Accept)
        × IsAdmitted (H.calls host.old) (H.calls host.new) now accepts
        (conns slots.old) (conns slots.new) marks.old marks.new × IsAccept accepts result
        × (result ≡ Queue.Full → NoneGivesWay now (conns slots.new)) }
    ensures known { faults.old ≤ (H.told host.old).failed → faults.new ≤ (H.told host.new).failed }
    ensures clock { KeepsClock (H.told host.old) (H.told host.new) }
{
    let Some(place) = place_for(slots, now) else {
        return Queue::Full;
    };
    match host.accept(place) {
        Ok(Some(stream)) => {
            slots[place] = Slot {
                stream: Some(stream),
                connection: Connection::open(alloc, now),
            };
            marks[place] = Readiness {
                readable: true,
                writable: true,
            };
            *faults = 0;
            Queue::More
        }
        Ok(None) => {
            *faults = 0;
            Queue::Empty
        }
        Err(_) => {
            *faults = faults.saturating_add(1);
            Queue::Unknown
        }
    }
}

/// Accepts the connections that wait, as far as there are places for them.
#[tactic(auto, using(crate::proofs::AcceptLemmas::far_none))]
pub(crate) fn admit<H: Host>(
    alloc: Global,
    host: &mut H,
    now: u64,
    slots: &mut [Slot<H::Stream>],
    marks: &mut [Readiness],
    faults: &mut u64,
) -> Queue
    requires { length slots.old ≤ length marks.old }
    ensures admits { (accepts : List Accept)
        × IsAdmitted (H.calls host.old) (H.calls host.new) now accepts
        (conns slots.old) (conns slots.new) marks.old marks.new × AreAccepts 32 accepts result
        × (result ≡ Queue.Full → NoneGivesWay now (conns slots.new)) }
    ensures known { faults.old ≤ (H.told host.old).failed → faults.new ≤ (H.told host.new).failed }
    ensures clock { KeepsClock (H.told host.old) (H.told host.new) }
{
    for _connection in 0..AT_ONCE {
        match admit_one(alloc, host, now, slots, marks, faults) {
            Queue::More => {}
            queue => return queue,
        }
    }
    Queue::More
}
