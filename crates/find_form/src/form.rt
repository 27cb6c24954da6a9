//! The fields of the form for a search, as they were typed.

ghost use Rattle.std.specs.Prelude.{◌≡◌, [], IfOk};
ghost use Rattle.find_form.specs.Form as spec;

use browser_core::{Field, fields_of, has_fields, value_of};
use std::alloc::{AllocError, Global};
use text_core::Text;

/// What was typed into the form for a search. What was left out is empty.
#[derive(Drop)]
pub struct FindForm {
    /// Words, between spaces.
    pub words: Text,
    /// `yes` where replies are looked into.
    pub replies: Text,
    /// A queue's name.
    pub queue: Text,
    /// `open` or `closed`.
    pub state: Text,
    /// A status.
    pub status: Text,
    /// A person's name, `Me` or `Nobody`.
    pub owner: Text,
    /// A person's name or `Me`.
    pub requestor: Text,
    /// `desk` or `requestor`: for whom it waits.
    pub turn: Text,
    /// `yes` where only what is late is sought.
    pub late: Text,
    /// The first day on which it may have been filed.
    pub from: Text,
    /// The last day on which it may have been filed.
    pub to: Text,
    /// `newest`, `oldest`, `due`, `due-last`, `active` or `quiet`.
    pub order: Text,
}

/// What the fields of an address ask, which stand behind its question mark; none where a field is
/// unknown or stands twice, or isn't written as a form writes it. `AllocError` where memory is
/// refused.
pub fn form_of(alloc: Global, query: &str) -> Result<Option<FindForm>, AllocError>
    ensures { IfOk result (λ form. form ≡ spec.form_of query.now) }
{
    match fields_of(alloc, query.as_bytes())? {
        Some(fields) => form_in(alloc, fields.as_slice()),
        None => Ok(None),
    }
}

/// The form with nothing typed. `AllocError` where memory is refused.
pub fn empty_form(alloc: Global) -> Result<FindForm, AllocError>
    ensures { IfOk result (λ form. form ≡ spec.filled []) }
{
    filled(alloc, &[])
}

fn form_in(alloc: Global, fields: &[Field]) -> Result<Option<FindForm>, AllocError>
    ensures { IfOk result (λ form. form ≡ spec.form_in fields.now) }
{
    if are_known(fields) {
        Ok(Some(filled(alloc, fields)?))
    } else {
        Ok(None)
    }
}

/// Whether each field is one of the form's, and stands once.
fn are_known(fields: &[Field]) -> bool
    ensures { result ≡ spec.are_known fields.now }
{
    has_fields(
        fields,
        &[],
        &[
            "words",
            "replies",
            "queue",
            "state",
            "status",
            "owner",
            "requestor",
            "turn",
            "late",
            "from",
            "to",
            "order",
        ],
    )
}

fn filled(alloc: Global, fields: &[Field]) -> Result<FindForm, AllocError>
    ensures { IfOk result (λ form. form ≡ spec.filled fields.now) }
{
    Ok(FindForm {
        words: typed(alloc, fields, "words")?,
        replies: typed(alloc, fields, "replies")?,
        queue: typed(alloc, fields, "queue")?,
        state: typed(alloc, fields, "state")?,
        status: typed(alloc, fields, "status")?,
        owner: typed(alloc, fields, "owner")?,
        requestor: typed(alloc, fields, "requestor")?,
        turn: typed(alloc, fields, "turn")?,
        late: typed(alloc, fields, "late")?,
        from: typed(alloc, fields, "from")?,
        to: typed(alloc, fields, "to")?,
        order: typed(alloc, fields, "order")?,
    })
}

/// A copy of the value of a field, and nothing where there is none.
fn typed(alloc: Global, fields: &[Field], name: &str) -> Result<Text, AllocError>
    ensures { IfOk result (λ text. text ≡ spec.typed name.now fields.now) }
{
    match value_of(fields, name) {
        Some(value) => Text::new(alloc, value),
        None => Text::new(alloc, ""),
    }
}
