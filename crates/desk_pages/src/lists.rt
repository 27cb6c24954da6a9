//! The persons of a request and the requests that it is linked with, each with a cross. That opens
//! a button, which says what it takes out or away, and does it.
ghost use Rattle.std.specs.Prelude.{◌≡◌, ◌++◌, OnOk};
ghost use Rattle.std.specs.List.{flat_map};
ghost use Rattle.std.specs.Option.{option_map};
ghost use Rattle.page_core.specs.Page.{page_bytes};
ghost use Rattle.desk_pages.specs.Lists as form;

use crate::markup::lists::{LINK_ROW, LIST_END, LIST_TOP, PERSON_ROW};
use desk_model::{Links, RequestRow, Shown};
use page_core::{Value, fill};
use std::alloc::AllocError;
use text_core::{Sequence, Text};

/// Puts the persons of the request of this number, in their roles. `buttons` is whether each can be
/// taken out.
pub(crate) fn put_roles(
    out: &mut Vec<u8>,
    buttons: bool,
    id: u32,
    caller: &str,
    shown: &Shown,
) -> Result<(), AllocError>
    ensures { OnOk result (out.new.items
        ≡ out.old.items ++ page_bytes (form.roles buttons id caller.now shown.now)) }
{
    let asking = shown.requestors.as_slice();
    let cc = shown.cc.as_slice();
    let admin_cc = shown.admin_cc.as_slice();
    put_persons(
        out,
        true,
        buttons,
        id,
        caller,
        "requestor",
        "Requestors",
        asking,
    )?;
    put_persons(out, !cc.is_empty(), buttons, id, caller, "cc", "Cc", cc)?;
    let any = !admin_cc.is_empty();
    put_persons(
        out, any, buttons, id, caller, "admincc", "AdminCc", admin_cc,
    )
}

/// Puts persons in a role, under a heading where that is shown.
#[tactic(auto, unfolding(crate::specs::Lists::persons))]
fn put_persons(
    out: &mut Vec<u8>,
    headed: bool,
    buttons: bool,
    id: u32,
    caller: &str,
    role: &str,
    heading: &str,
    names: &[Text],
) -> Result<(), AllocError>
    ensures { OnOk result (out.new.items ≡ out.old.items
        ++ page_bytes (form.persons headed buttons id caller.now role.now heading.now names.now)) }
{
    fill(out, LIST_TOP, &[Value::Text(heading)], &[headed])?;
    put_person_rows(out, buttons, id, caller, role, names)?;
    fill(out, LIST_END, &[], &[headed])
}

fn put_person_rows(
    out: &mut Vec<u8>,
    buttons: bool,
    id: u32,
    caller: &str,
    role: &str,
    names: &[Text],
) -> Result<(), AllocError>
    ensures { OnOk result (out.new.items ≡ out.old.items
        ++ page_bytes (flat_map (form.person_row buttons id caller.now role.now) names.now)) }
{
    for name in names {
        put_person_row(out, buttons, id, caller, role, name.as_str())?;
    }
    Ok(())
}

#[tactic(auto, unfolding(crate::specs::Lists::person_row))]
fn put_person_row<'t>(
    out: &mut Vec<u8>,
    buttons: bool,
    id: u32,
    caller: &'t str,
    role: &'t str,
    name: &'t str,
) -> Result<(), AllocError>
    ensures { OnOk result (out.new.items ≡ out.old.items
        ++ page_bytes (form.person_row buttons id caller.now role.now name.now)) }
{
    let values = [
        Value::Text(name),
        Value::Text(name),
        Value::Number(id),
        Value::Text(caller),
        Value::Text(role),
        Value::Text(name),
        Value::Text(name),
        Value::Text(role),
    ];
    fill(out, PERSON_ROW, &values, &[buttons])
}

/// Puts the requests that the one of this number is linked with, each with the subject and the
/// status that its row among `rows` tells, if there is one. `buttons` is whether each link can be
/// taken away.
pub(crate) fn put_links(
    out: &mut Vec<u8>,
    buttons: bool,
    id: u32,
    caller: &str,
    rows: &[RequestRow],
    links: &Links,
) -> Result<(), AllocError>
    ensures { OnOk result (out.new.items
        ≡ out.old.items ++ page_bytes (form.links_told buttons id caller.now rows.now links.now)) }
{
    put_dependencies(out, buttons, id, caller, rows, links)?;
    put_members(out, buttons, id, caller, rows, links)?;
    put_references(out, buttons, id, caller, rows, links)
}

fn put_dependencies(
    out: &mut Vec<u8>,
    buttons: bool,
    id: u32,
    caller: &str,
    rows: &[RequestRow],
    links: &Links,
) -> Result<(), AllocError>
    ensures { OnOk result (out.new.items
        ≡ out.old.items ++ page_bytes (form.dependencies buttons id caller.now rows.now links.now)) }
{
    let on = &links.depends_on;
    let by = &links.depended_on_by;
    put_others(
        out,
        buttons,
        id,
        caller,
        rows,
        "DependsOn",
        "Depends on",
        on,
    )?;
    put_others(
        out,
        buttons,
        id,
        caller,
        rows,
        "DependedOnBy",
        "Depended on by",
        by,
    )
}

fn put_members(
    out: &mut Vec<u8>,
    buttons: bool,
    id: u32,
    caller: &str,
    rows: &[RequestRow],
    links: &Links,
) -> Result<(), AllocError>
    ensures { OnOk result (out.new.items
        ≡ out.old.items ++ page_bytes (form.members buttons id caller.now rows.now links.now)) }
{
    let of = &links.member_of;
    let has = &links.has_member;
    put_others(out, buttons, id, caller, rows, "MemberOf", "Member of", of)?;
    put_others(
        out,
        buttons,
        id,
        caller,
        rows,
        "HasMember",
        "Has members",
        has,
    )
}

fn put_references(
    out: &mut Vec<u8>,
    buttons: bool,
    id: u32,
    caller: &str,
    rows: &[RequestRow],
    links: &Links,
) -> Result<(), AllocError>
    ensures { OnOk result (out.new.items
        ≡ out.old.items ++ page_bytes (form.references buttons id caller.now rows.now links.now)) }
{
    let to = &links.refers_to;
    let by = &links.referred_to_by;
    put_others(out, buttons, id, caller, rows, "RefersTo", "Refers to", to)?;
    put_others(
        out,
        buttons,
        id,
        caller,
        rows,
        "ReferredToBy",
        "Referred to by",
        by,
    )
}

/// Puts requests in a kind of links, under a heading if there are any.
#[tactic(auto, unfolding(crate::specs::Lists::others))]
fn put_others(
    out: &mut Vec<u8>,
    buttons: bool,
    id: u32,
    caller: &str,
    rows: &[RequestRow],
    link: &str,
    heading: &str,
    others: &Sequence<u32>,
) -> Result<(), AllocError>
    ensures { OnOk result (out.new.items ≡ out.old.items
        ++ page_bytes (form.others buttons id caller.now rows.now link.now heading.now others.now)) }
{
    let others = others.as_slice();
    let any = !others.is_empty();
    fill(out, LIST_TOP, &[Value::Text(heading)], &[any])?;
    put_link_rows(out, buttons, id, caller, rows, link, others)?;
    fill(out, LIST_END, &[], &[any])
}

fn put_link_rows(
    out: &mut Vec<u8>,
    buttons: bool,
    id: u32,
    caller: &str,
    rows: &[RequestRow],
    link: &str,
    others: &[u32],
) -> Result<(), AllocError>
    ensures { OnOk result (out.new.items ≡ out.old.items
        ++ page_bytes (flat_map (form.link_row buttons id caller.now rows.now link.now) others.now)) }
{
    for other in others {
        put_link_row(out, buttons, id, caller, rows, link, *other)?;
    }
    Ok(())
}

/// Puts a request in a kind of links, as the rows tell of it.
#[tactic(auto, unfolding(crate::specs::Lists::link_row))]
fn put_link_row(
    out: &mut Vec<u8>,
    buttons: bool,
    id: u32,
    caller: &str,
    rows: &[RequestRow],
    link: &str,
    other: u32,
) -> Result<(), AllocError>
    ensures { OnOk result (out.new.items ≡ out.old.items
        ++ page_bytes (form.link_row buttons id caller.now rows.now link.now other)) }
{
    let subject = subject_of(rows, other);
    let status = status_of(rows, other);
    put_link(out, buttons, id, caller, subject, status, link, other)
}

#[tactic(auto, unfolding(crate::specs::Lists::link_told))]
fn put_link<'t>(
    out: &mut Vec<u8>,
    buttons: bool,
    id: u32,
    caller: &'t str,
    subject: &'t str,
    status: &'t str,
    link: &'t str,
    other: u32,
) -> Result<(), AllocError>
    ensures { OnOk result (out.new.items ≡ out.old.items ++ page_bytes
        (form.link_told buttons id caller.now subject.now status.now link.now other)) }
{
    let values = [
        Value::Number(other),
        Value::Number(other),
        Value::Text(subject),
        Value::Text(status),
        Value::Number(other),
        Value::Number(id),
        Value::Text(caller),
        Value::Text(link),
        Value::Number(other),
        Value::Text(link),
        Value::Number(other),
    ];
    fill(out, LINK_ROW, &values, &[buttons])
}

/// The subject of the request of this number, or nothing if it isn't among the rows.
fn subject_of(rows: &[RequestRow], id: u32) -> &str
    ensures { result.now ≡ form.subject_of rows.now id }
{
    match row_numbered(rows, id) {
        Some(row) => row.subject.as_str(),
        None => "",
    }
}

/// The status of the request of this number, or nothing if it isn't among the rows.
fn status_of(rows: &[RequestRow], id: u32) -> &str
    ensures { result.now ≡ form.status_of rows.now id }
{
    match row_numbered(rows, id) {
        Some(row) => row.status.as_str(),
        None => "",
    }
}

fn row_numbered(rows: &[RequestRow], id: u32) -> Option<&RequestRow>
    ensures { option_map (λ r. r.now) result ≡ form.row_numbered rows.now id }
{
    rows.iter().find(|row| row.id == id)
}
