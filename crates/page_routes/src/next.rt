//! Where signing in leads, and where a form is filled in once more.
ghost use Rattle.std.specs.Prelude.{◌≡◌, ◌++◌, codes, decimal, IfOk};
ghost use Rattle.page_routes.specs.Paths as paths;

use crate::page::{Page, new_path, page_path};
use std::alloc::{AllocError, Global};
use text_core::Text;

/// Where signing in leads.
#[derive(Drop)]
pub enum Next {
    /// To a page.
    Page(Page),
    /// To a form, with what was typed into it and not sent.
    Form(SubmittedForm),
}

/// The form with which a command was sent, and what was typed into it that a refusal's page holds.
#[derive(Drop)]
pub enum SubmittedForm {
    /// To open a queue: done or refused, it leads to `/`.
    Queue,
    /// To file a request in the queue, and to send its first text, where one was typed: done, it
    /// leads to the end of the new request's history, and refused to the queue.
    New {
        queue: Text,
        subject: Text,
        requestors: Text,
        text: Text,
        status: Option<Text>,
    },
    /// To reply to the request, of whose history a page showed the entries up to the one of the number
    /// `seen`, and to move it to a status, where one was chosen: done, it leads to the end of its
    /// history, and refused to it.
    Reply {
        id: u32,
        seen: u32,
        text: Text,
        status: Option<Text>,
    },
    /// To comment on the request: the same.
    Comment {
        id: u32,
        text: Text,
    },
    /// To change the request: the same.
    Change {
        id: u32,
    },
}

/// The path at which a form is filled in once more: the one to which it is sent, if a text is typed
/// into it, and else that of its page. `AllocError` where memory is refused.
pub fn form_path(alloc: Global, sent: &SubmittedForm) -> Result<Text, AllocError>
    ensures { IfOk result (λ path. path ≡ paths.form_path sent.now) }
{
    match sent {
        SubmittedForm::Queue => page_path(alloc, &Page::Home),
        SubmittedForm::New { queue, .. } => new_path(alloc, queue.as_str()),
        SubmittedForm::Reply { id, .. } => act_path(alloc, *id, "/reply"),
        SubmittedForm::Comment { id, .. } => act_path(alloc, *id, "/comment"),
        SubmittedForm::Change { id } => page_path(alloc, &Page::Request(*id)),
    }
}

fn act_path(alloc: Global, id: u32, act: &str) -> Result<Text, AllocError>
    ensures { IfOk result (λ path. path ≡ paths.act_path id act.now) }
{
    let path = format!(in alloc; "/desk/requests/{id}{act}")?;
    Ok(Text::from(path))
}
