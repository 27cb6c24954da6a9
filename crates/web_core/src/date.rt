//! The date of a reply.
ghost use Rattle.std.specs.Prelude.{◌≡◌, IfSome, Some};
ghost use Rattle.connection_core.specs.Reply.{bytes_of};
ghost use Rattle.http_rules.specs.Date as form;
ghost use Rattle.httpdate.specs.Date.{date_text, unix_secs};
ghost use Rattle.httpdate.specs.declared.date.HttpDate.{HttpDate as Date};
ghost use Rattle.web_core.specs.Dates.{IsDatedAt};

use connection_core::Reply;
use http_rules::dated_reply;
use httpdate::HttpDate;
use std::alloc::Global;

/// The reply with the date of this second. As it is, where there is none, or no memory for it.
pub(crate) fn with_date(alloc: Global, second: Option<u64>, reply: Reply) -> Reply
    ensures { IsDatedAt second (bytes_of reply) (bytes_of result) }
{
    match dated(alloc, second, reply.bytes()) {
        Some(bytes) => Reply::Made(bytes),
        None => reply,
    }
}

/// These bytes with the date of this second, if there is one and memory for it.
fn dated(alloc: Global, second: Option<u64>, reply: &[u8]) -> Option<Vec<u8>>
    ensures { IfSome result (λ out. (date : Date) × (second ≡ Some (unix_secs date))
        × (out.items ≡ form.dated (date_text date) reply.now)) }
{
    let Some(second) = second else {
        return None;
    };
    let Ok(date) = HttpDate::from_unix_secs(second) else {
        return None;
    };
    match dated_reply(alloc, reply, date) {
        Ok(bytes) => Some(bytes),
        Err(_) => None,
    }
}
