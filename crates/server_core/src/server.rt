//! A server, over all its turns.
ghost use Rattle.std.specs.Prelude.{◌≡◌, ◌≤◌, ◌<◌, ◌-◌, false, true, ℕ, List, IfOk, IfSome, IsTrue, OnErr};
ghost use Rattle.std.specs.Prelude.{[], ◌∷◌, OnOk, length, replicate};
ghost use Rattle.connection_core.specs.Machine.{closed};
ghost use Rattle.server_core.specs.Calls.{Adds, Begins};
ghost use Rattle.server_core.specs.Host.{KeepsClock, wait_fails};
ghost use Rattle.server_core.specs.Places.{Each, HasFree, conns};
ghost use Rattle.server_core.specs.Rests.{Accept, AcceptsBy, IsPause, Rest, queue_then, rest_calls};
ghost use Rattle.server_core.specs.Served.{GoesOn, IsAdmitted, IsServed, IsStill};
ghost use Rattle.server_core.specs.Works.{unmarked};
ghost use Rattle.server_core.specs.Ends.{IsDue};
ghost use Rattle.connection_core.specs.Seen.{seen};
ghost use Rattle.server_core.specs.Wait as wait;
ghost use Rattle.server_core.specs.Wait.{NoneGivesWay};

use crate::admit::{GRACE, Queue, admit, is_closed};
use crate::desk::Desk;
use crate::ending::Ending;
use crate::host::{Host, NetFault, Readiness};
use crate::slot::Slot;
use crate::turn::turn;
use crate::work::Moment;
use connection_core::{Connection, Phase, READING};
use std::alloc::{AllocError, Global};

/// How many bytes are read at once.
const CHUNK: usize = 16_384;

/// The longest that is waited for something to happen, in milliseconds.
const PAUSE: u64 = 60_000;

/// The longest where the network didn't say whether a connection waits.
const RETRY: u64 = 100;

/// After how many failed accepts in a row the network can't be used.
const FAULTS: u64 = 16;

/// Serves connections, at most so many at once, until so many messages were answered.
///
/// Each message is answered by a step of the desk, one after the other, at the minute of the turn in
/// which it became whole. A connection has thirty seconds for its message and thirty for its reply;
/// where there is no place for another one, one whose reply has gone out is dropped, or else that
/// which has waited longest for its message, for a quarter of a second at least. Once the count is
/// reached, or the desk is shut, no further message is answered, and it ends when the replies have gone
/// out. Before each turn it waits for just as long as there is nothing to do. In its turn each place is
/// read and written where it is marked.
///
/// It ends by `Network` only where a wait has failed, or sixteen accepts in a row with no connection
/// left, and by `Shut` only where the desk is shut.
///
/// `AllocError` where there is no memory for the places: then nothing is done.
pub fn serve<H: Host, D: Desk>(
    alloc: Global,
    host: &mut H,
    desk: &mut D,
    places: usize,
    most: u64,
) -> Result<Ending, AllocError>
    ensures ok { IfOk result (λ ending. IsServed D.States D.Steps D.shuts
        (H.told host.old) (H.told host.new) (H.calls host.old) (H.calls host.new)
        places most desk.old ending desk.new) }
    ensures err { OnErr result (desk.new ≡ desk.old) }
{
    let mut slots = free_slots(alloc, places)?;
    let unmarked = Readiness {
        readable: false,
        writable: false,
    };
    let mut marks = Vec::from_elem(alloc, unmarked, places)?;
    let mut buffer = Vec::from_elem(alloc, 0u8, CHUNK)?;
    Ok(serve_at(alloc, host, desk, &mut slots, &mut marks, &mut buffer, most))
}

/// So many places with no connection.
fn free_slots<S: Drop>(alloc: Global, places: usize) -> Result<Vec<Slot<S>>, AllocError>
    ensures { IfOk result (λ slots. conns slots.items ≡ replicate places closed) }
{
    let mut slots = Vec::with_capacity(alloc, places)?;
    for _place in 0..places {
        slots.push_reserved(Slot {
            stream: None,
            connection: Connection::closed(alloc),
        });
    }
    Ok(slots)
}

/// Serves connections at these places, which are free.
#[tactic(auto, using(crate::proofs::ServedLemmas::serves_begin, crate::proofs::ServedLemmas::served_waits, crate::proofs::ServedLemmas::served_spent))]
fn serve_at<H: Host, D: Desk>(
    alloc: Global,
    host: &mut H,
    desk: &mut D,
    slots: &mut [Slot<H::Stream>],
    marks: &mut [Readiness],
    buffer: &mut [u8],
    most: u64,
) -> Ending
    requires free { conns slots.old ≡ replicate (length slots.old) closed }
    requires marks { length slots.old ≤ length marks.old }
    requires unmarked { marks.old ≡ replicate (length slots.old) unmarked }
    requires buffer { 0 < length buffer.old }
    ensures { IsServed D.States D.Steps D.shuts (H.told host.old) (H.told host.new)
        (H.calls host.old) (H.calls host.new) (length slots.old) most desk.old result desk.new }
{
    let mut answered = 0u64;
    let mut queue = Queue::More;
    let mut faults = 0u64;
    for _turn in 0..u64::MAX {
        let Ok(waiting) = wait(host, slots, marks, queue) else {
            return Ending::Network;
        };
        queue = waiting;
        answered += run_turn(
            alloc,
            host,
            desk,
            slots,
            marks,
            buffer,
            &mut queue,
            &mut faults,
            most - answered,
        );
        if let Some(ending) = ending_of(answered, most, desk.is_shut(), slots, faults) {
            return ending;
        }
    }
    Ending::OutOfTurns
}

/// Waits until there is something to do. Whether further connections wait.
fn wait<H: Host>(
    host: &mut H,
    slots: &[Slot<H::Stream>],
    marks: &mut [Readiness],
    queue: Queue,
) -> Result<Queue, NetFault>
    requires { length slots.now ≤ length marks.old }
    ensures ok { OnOk result (H.told host.new ≡ H.told host.old) }
    ensures err { OnErr result (H.told host.new ≡ wait_fails (H.told host.old)) }
    ensures rests { IfOk result (λ then. (rest : Rest)
        × (rest.known ≡ record { queue = queue; marks = marks.old }) × (rest.marks ≡ marks.new)
        × (queue_then rest ≡ then) × IsPause rest (conns slots.now)
        × Adds (H.calls host.old) (H.calls host.new) (rest_calls rest)) }
    ensures fails { OnErr result ((began : ℕ)
        × Adds (H.calls host.old) (H.calls host.new) (Begins began ∷ [])) }
{
    let now = host.wait_moment();
    let pause = pause_of(slots, marks, queue, now);
    if host.wait(pause, marks)? {
        Ok(Queue::More)
    } else {
        Ok(queue)
    }
}

/// How many further messages may be answered: none, where the desk is shut.
fn left_for<D: Desk>(desk: &D, left: u64) -> u64
    ensures most { result ≤ left }
    ensures shut { D.shuts desk.now ≡ true → result ≡ 0 }
    ensures open { D.shuts desk.now ≡ false → result ≡ left }
{
    if desk.is_shut() { 0 } else { left }
}

/// Accepts connections, as long as messages may be answered, and gives each its turn. How many
/// messages were answered.
fn run_turn<H: Host, D: Desk>(
    alloc: Global,
    host: &mut H,
    desk: &mut D,
    slots: &mut [Slot<H::Stream>],
    marks: &mut [Readiness],
    buffer: &mut [u8],
    queue: &mut Queue,
    faults: &mut u64,
    left: u64,
) -> u64
    requires marks { length slots.old ≤ length marks.old }
    requires buffer { 0 < length buffer.old }
    ensures served { (rest : Rest) → IsPause rest (conns slots.old) → queue_then rest ≡ queue.old
        → rest.marks ≡ marks.old
        → GoesOn D.States D.Steps D.shuts (H.told host.old) (H.told host.new)
        (H.calls host.old) (H.calls host.new) left rest (conns slots.old) desk.old
        (conns slots.new) desk.new (record { queue = queue.new; marks = marks.new }) result }
    ensures most { result ≤ left }
    ensures known { faults.old ≤ (H.told host.old).failed → faults.new ≤ (H.told host.new).failed }
{
    let left = left_for(desk, left);
    let now = host.moment();
    let minute = host.minute();
    let moment = Moment { now, minute };
    admit_if(
        alloc,
        host,
        moment.now,
        slots,
        marks,
        queue,
        faults,
        left > 0,
    );
    turn(alloc, host, moment, buffer, slots, marks, desk, left)
}

/// Accepts connections, if some may wait and it may be.
#[tactic(auto, using(crate::proofs::AcceptLemmas::admits_empty, crate::proofs::AcceptLemmas::admits_held, crate::proofs::AcceptLemmas::admits_many))]
fn admit_if<H: Host>(
    alloc: Global,
    host: &mut H,
    now: u64,
    slots: &mut [Slot<H::Stream>],
    marks: &mut [Readiness],
    queue: &mut Queue,
    faults: &mut u64,
    may: bool,
)
    requires { length slots.old ≤ length marks.old }
    ensures admits { (accepts : List Accept)
        × IsAdmitted (H.calls host.old) (H.calls host.new) now accepts
        (conns slots.old) (conns slots.new) marks.old marks.new
        × AcceptsBy queue.old may accepts queue.new
        × (queue.new ≡ Queue.Full → NoneGivesWay now (conns slots.new)) }
    ensures known { faults.old ≤ (H.told host.old).failed → faults.new ≤ (H.told host.new).failed }
    ensures clock { KeepsClock (H.told host.old) (H.told host.new) }
{
    if let Queue::Empty = *queue {
        return;
    }
    *queue = if may {
        admit(alloc, host, now, slots, marks, faults)
    } else {
        Queue::Held
    };
}

/// Why it ends here, if it does: by its count, or where the desk is shut, once the replies have gone
/// out, and after sixteen failed accepts in a row where no connection is left.
fn ending_of<S>(
    answered: u64,
    most: u64,
    shut: bool,
    slots: &[Slot<S>],
    faults: u64,
) -> Option<Ending>
    ensures { IfSome result (λ ending. IsDue ending answered most shut faults (conns slots.now)) }
{
    if answered == most {
        return if is_still(slots) {
            Some(Ending::Counted)
        } else {
            None
        };
    }
    if shut {
        return if is_still(slots) {
            Some(Ending::Shut)
        } else {
            None
        };
    }
    if faults >= FAULTS && is_free(slots) {
        Some(Ending::Network)
    } else {
        None
    }
}

/// Whether no reply is on its way.
#[tactic(auto, using(crate::proofs::PlaceLemmas::still_on, crate::proofs::PlaceLemmas::still_all))]
fn is_still<S>(slots: &[Slot<S>]) -> bool
    ensures { IsTrue result → Each IsStill (conns slots.now) }
{
    for place in 0..slots.len() {
        if !has_gone(&slots[place].connection) {
            return false;
        }
    }
    true
}

/// Whether its reply isn't on its way.
fn has_gone(connection: &Connection) -> bool
    ensures { IsTrue result → IsStill (seen connection.now) }
{
    match connection.phase() {
        Phase::Writing | Phase::Lingering => false,
        Phase::Reading(_) | Phase::Ready | Phase::Closed => true,
    }
}

/// Whether there is no connection.
#[tactic(auto, using(crate::proofs::PlaceLemmas::closed_on, crate::proofs::PlaceLemmas::closed_all))]
fn is_free<S>(slots: &[Slot<S>]) -> bool
    ensures { IsTrue result → Each (λ c. c.phase ≡ Phase.Closed) (conns slots.now) }
{
    for place in 0..slots.len() {
        if !is_closed(&slots[place].connection) {
            return false;
        }
    }
    true
}

/// For how many milliseconds there is nothing to do, if nothing happens. Where a client may wait, no
/// longer than until a place can be given to it: not at all, where one is free.
#[tactic(auto, using(crate::proofs::PauseLemmas::free_none, crate::proofs::PauseLemmas::none_left))]
fn pause_of<S>(slots: &[Slot<S>], marks: &[Readiness], queue: Queue, now: u64) -> u64
    requires { length slots.now ≤ length marks.now }
    ensures is { result ≡ wait.pauses (wait.is_full queue) now (wait.begins queue) (conns slots.now)
        marks.now }
    ensures free { queue ≡ Queue.Full → HasFree (conns slots.now) → result ≡ 0 }
{
    let full = is_full(queue);
    let mut pause = begin_of(queue);
    for place in 0..slots.len() {
        let slot = &slots[place];
        let mark = &marks[place];
        pause = pause.min(pause_at(full, &slot.connection, *mark, now));
    }
    pause
}

/// Whether a client may wait to which no place could be given.
fn is_full(queue: Queue) -> bool
    ensures { result ≡ wait.is_full queue }
{
    match queue {
        Queue::Full => true,
        Queue::Empty | Queue::More | Queue::Held | Queue::Unknown => false,
    }
}

/// The longest pause, whatever the connections do.
fn begin_of(queue: Queue) -> u64
    ensures { result ≡ wait.begins queue }
{
    match queue {
        Queue::More => 0,
        Queue::Unknown => RETRY,
        Queue::Empty | Queue::Full | Queue::Held => PAUSE,
    }
}

/// The same of one connection.
fn pause_at(full: bool, connection: &Connection, mark: Readiness, now: u64) -> u64
    ensures { result ≡ wait.pause_at full now (seen connection.now) mark }
{
    let idle = idle_at(connection, mark, now);
    if full {
        giving_at(connection, now).min(idle)
    } else {
        idle
    }
}

/// Until it gives way to a client that waits.
fn giving_at(connection: &Connection, now: u64) -> u64
    ensures { result ≡ wait.gives_in now (seen connection.now) (seen connection.now).phase }
{
    let deadline = connection.deadline();
    match connection.phase() {
        Phase::Reading(_) => deadline.saturating_sub(READING - GRACE).saturating_sub(now),
        Phase::Ready | Phase::Writing => deadline.saturating_sub(now),
        Phase::Lingering | Phase::Closed => 0,
    }
}

/// Until there is something to do with it. One whose message is whole after a turn waits until
/// others are gone: the count was reached.
fn idle_at(connection: &Connection, mark: Readiness, now: u64) -> u64
    ensures { result ≡ wait.idles now (seen connection.now) mark (seen connection.now).phase }
{
    let until = connection.deadline().saturating_sub(now);
    match connection.phase() {
        Phase::Reading(_) | Phase::Lingering => { if mark.readable { 0 } else { until } }
        Phase::Writing => { if mark.writable { 0 } else { until } }
        Phase::Ready => until,
        Phase::Closed => PAUSE,
    }
}
