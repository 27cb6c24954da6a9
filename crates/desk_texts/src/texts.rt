//! The texts of answers, refusals and outcomes.

ghost use Rattle.std.specs.Prelude.{◌≡◌, ◌++◌, [], IfOk, codes, string_bytes};
ghost use Rattle.desk_texts.specs.Texts as text;

use desk_model::{Answer, Refusal};
use std::alloc::{AllocError, Global};

pub mod history;
pub mod listed;
mod minute;
pub mod overdue;
pub mod queues;
pub mod shown;
pub mod workload;

use history::history_text;
use listed::list_text;
use overdue::overdue_text;
use queues::queues_text;
use shown::show_text;
use workload::workload_text;

/// The text of an answer: `ok`, `request N`, the lines of a request, or a line for each queue,
/// request, entry or owner that it tells of.
pub fn answer_text(alloc: Global, answer: &Answer) -> Result<String, AllocError>
    ensures { IfOk result (λ t. string_bytes t ≡ text.answer_text answer.now) }
{
    match answer {
        Answer::Done => String::from_str(alloc, "ok\n"),
        Answer::Created(id) => created_text(alloc, *id),
        Answer::Queues(queues) => queues_text(alloc, queues.as_slice()),
        Answer::Shown(shown) => show_text(alloc, shown),
        Answer::Listed(requests) => list_text(alloc, requests.as_slice()),
        Answer::History(entries) => history_text(alloc, entries.as_slice()),
        Answer::Late(requests) => overdue_text(alloc, requests.as_slice()),
        Answer::Workload(loads) => workload_text(alloc, loads.as_slice()),
    }
}

/// The text of what came of a command: of its answer, or of its refusal.
pub fn outcome_text(alloc: Global, outcome: &Result<Answer, Refusal>) -> Result<String, AllocError>
    ensures { IfOk result (λ t. string_bytes t ≡ text.outcome_text outcome.now) }
{
    match outcome {
        Ok(answer) => answer_text(alloc, answer),
        Err(refusal) => refusal_text(alloc, refusal),
    }
}

fn created_text(alloc: Global, id: u32) -> Result<String, AllocError>
    ensures { IfOk result (λ t. string_bytes t ≡ text.created_text id) }
{
    format!(in alloc; "request {id}\n")
}

/// The text of a refusal: `refused N Name`, with the right that is lacking after `Denied`.
pub fn refusal_text(alloc: Global, refusal: &Refusal) -> Result<String, AllocError>
    ensures { IfOk result (λ t. string_bytes t ≡ text.refusal_text refusal.now) }
{
    match refusal {
        Refusal::Denied(right) => denied_text(alloc, refusal, right.as_str()),
        _ => plain_text(alloc, refusal),
    }
}

fn denied_text(alloc: Global, refusal: &Refusal, right: &str) -> Result<String, AllocError>
    ensures { IfOk result (λ t. string_bytes t
        ≡ text.refused_text refusal.now (codes " " ++ right.now)) }
{
    let number = refusal.number();
    let name = refusal.name();
    format!(in alloc; "refused {number} {name} {right}\n")
}

fn plain_text(alloc: Global, refusal: &Refusal) -> Result<String, AllocError>
    ensures { IfOk result (λ t. string_bytes t ≡ text.refused_text refusal.now []) }
{
    let number = refusal.number();
    let name = refusal.name();
    format!(in alloc; "refused {number} {name}\n")
}
