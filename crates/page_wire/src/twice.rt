//! A text that is sent twice: by a second press, or by Back and another press.
ghost use Rattle.std.specs.Prelude.{◌≡◌};
ghost use Rattle.std.specs.List.{list_any};
ghost use Rattle.page_wire.specs.Twice as form;

use desk_core::Dossier;
use desk_model::{Entry, EntryKind};
use hours_core::Minute;
use page_routes::SubmittedForm;
use text_core::Text;

/// For so many minutes a text of the same person counts as sent already.
const MINUTES: u32 = 10;

/// The request to which a form sends a text, if it sends one.
pub(crate) fn told_request(sent: &SubmittedForm) -> Option<u32>
    ensures { result ≡ form.told_request sent.now }
{
    match sent {
        SubmittedForm::Reply { id, .. } | SubmittedForm::Comment { id, .. } => Some(*id),
        _ => None,
    }
}

/// Whether what a form asks was done already: the caller has sent its text, and the request has the
/// status that was chosen.
pub(crate) fn is_told(caller: &str, moment: Minute, sent: &SubmittedForm, dossier: &Dossier) -> bool
    ensures { result ≡ form.is_told caller.now moment sent.now dossier.now }
{
    has_moved(sent, dossier) && tells(caller, moment, sent, dossier.entries.as_slice())
}

/// Whether the request has the status that was chosen, where one was.
fn has_moved(sent: &SubmittedForm, dossier: &Dossier) -> bool
    ensures { result ≡ form.has_moved sent.now dossier.now }
{
    match sent {
        SubmittedForm::Reply { status, .. } => is_status(status, dossier.shown.row.status.as_str()),
        _ => true,
    }
}

fn is_status(chosen: &Option<Text>, status: &str) -> bool
    ensures { result ≡ form.is_status chosen.now status.now }
{
    match chosen {
        Some(chosen) => chosen.as_str() == status,
        None => true,
    }
}

fn tells(caller: &str, moment: Minute, sent: &SubmittedForm, entries: &[Entry]) -> bool
    ensures { result ≡ list_any (form.is_of caller.now moment sent.now) entries.now }
{
    entries
        .iter()
        .any(|entry| is_of(caller, moment, sent, entry))
}

/// Whether an entry has the text of a form, from the same person and not too long ago.
fn is_of(caller: &str, moment: Minute, sent: &SubmittedForm, entry: &Entry) -> bool
    ensures { result ≡ form.is_of caller.now moment sent.now entry.now }
{
    says(sent, entry.kind, entry.body.as_str())
        && entry.actor.as_str() == caller
        && moment.get().saturating_sub(MINUTES) <= entry.moment.get()
}

fn says(sent: &SubmittedForm, kind: EntryKind, body: &str) -> bool
    ensures { result ≡ form.says sent.now kind body.now }
{
    match (sent, kind) {
        (SubmittedForm::Reply { text, .. }, EntryKind::Reply) => text.as_str() == body,
        (SubmittedForm::Comment { text, .. }, EntryKind::Comment) => text.as_str() == body,
        _ => false,
    }
}
