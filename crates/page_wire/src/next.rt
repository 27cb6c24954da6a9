//! What a form brings beside its command.
ghost use Rattle.std.specs.Prelude.{◌≡◌, IfOk};
ghost use Rattle.std.specs.Option.{option_map};
ghost use Rattle.desk_model.specs.declared.command.Command.TheVariants as command;
ghost use Rattle.page_wire.specs.Next as form;

use desk_core::Command;
use page_routes::SubmittedForm;
use std::alloc::{AllocError, Global};
use text_core::Text;

/// A copy of the text with which a new request is filed, unless it is blank.
pub(crate) fn first_text(alloc: Global, sent: &SubmittedForm) -> Result<Option<Text>, AllocError>
    ensures { IfOk result (λ text. text ≡ form.first_text sent.now) }
{
    match sent {
        SubmittedForm::New { text, .. } => {
            if is_blank(text.as_str()) {
                Ok(None)
            } else {
                Ok(Some(Text::new(alloc, text.as_str())?))
            }
        }
        _ => Ok(None),
    }
}

/// Whether a text has nothing but spaces, tabs and ends of lines.
fn is_blank(text: &str) -> bool
    ensures { result ≡ form.is_blank text.now }
{
    text.as_bytes().iter().all(|byte| is_space(*byte))
}

fn is_space(byte: u8) -> bool
    ensures { result ≡ form.is_space byte }
{
    byte == b' ' || byte == b'\t' || byte == b'\n' || byte == b'\r'
}

/// The command that follows that of a form, if one does: after a reply, the move to the status that
/// was chosen.
pub(crate) fn follow_up_command(
    alloc: Global,
    sent: &SubmittedForm,
) -> Result<Option<Command>, AllocError>
    ensures { IfOk result (λ second. second ≡ form.follow_up_command sent.now) }
{
    match sent {
        SubmittedForm::Reply { id, status, .. } => move_to(alloc, *id, status),
        _ => Ok(None),
    }
}

/// The move of a request to a status, if there is one.
fn move_to(alloc: Global, id: u32, status: &Option<Text>) -> Result<Option<Command>, AllocError>
    ensures { IfOk result (λ second. second ≡ option_map (λ s. command.SetStatus id s) status.now) }
{
    match status {
        Some(status) => Ok(Some(Command::SetStatus {
            id,
            status: Text::new(alloc, status.as_str())?,
        })),
        None => Ok(None),
    }
}
