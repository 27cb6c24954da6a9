//! The text of a request.

ghost use Rattle.std.specs.Prelude.{◌≡◌, ◌++◌, IfOk, OnOk, codes, unwrap_or, string_bytes};
ghost use Rattle.std.specs.List.{flat_map};
ghost use Rattle.desk_texts.specs.Texts as text;
ghost use Rattle.desk_texts.specs.Words.{minute_or_dash};

use crate::texts::minute::as_text;
use desk_model::{Links, RequestRow, Shown};
use hours_core::{Minute, minute_text};
use std::alloc::{AllocError, Global};
use text_core::{Sequence, Text};

/// The text of a request: a line for each of its parts, persons in the order of their bytes and
/// numbers rising.
pub fn show_text(alloc: Global, shown: &Shown) -> Result<String, AllocError>
    ensures { IfOk result (λ t. string_bytes t ≡ text.show_text shown.now) }
{
    let mut out = String::new(alloc);
    put_row(&mut out, &shown.row)?;
    put_persons(&mut out, shown)?;
    put_moments(&mut out, &shown.row, shown.due)?;
    put_links(&mut out, &shown.links)?;
    Ok(out)
}

#[tactic(auto, unfolding(crate::specs::Texts::line))]
fn put_row(out: &mut String, row: &RequestRow) -> Result<(), AllocError>
    ensures { OnOk result (string_bytes out.new ≡ string_bytes out.old ++ text.row_lines row.now) }
{
    let id = row.id;
    let queue = row.queue.as_str();
    let subject = row.subject.as_str();
    let status = row.status.as_str();
    let owner = name_or(&row.owner, "Nobody");
    write!(
        out,
        "id: {id}\nqueue: {queue}\nsubject: {subject}\nstatus: {status}\nowner: {owner}\n"
    )
}

/// The name, or what stands for none.
pub(crate) fn name_or<'t>(name: &'t Option<Text>, absent: &'static str) -> &'t str
    ensures { result.now ≡ unwrap_or name.entry.now absent.entry.now }
{
    match name {
        Some(name) => name.as_str(),
        None => absent,
    }
}

fn put_persons(out: &mut String, shown: &Shown) -> Result<(), AllocError>
    ensures { OnOk result (string_bytes out.new
        ≡ string_bytes out.old ++ text.person_lines shown.now) }
{
    put_list(out, "requestors", shown.requestors.as_slice())?;
    put_list(out, "cc", shown.cc.as_slice())?;
    put_list(out, "admincc", shown.admin_cc.as_slice())
}

fn put_moments(out: &mut String, row: &RequestRow, due: Option<Minute>) -> Result<(), AllocError>
    ensures { OnOk result (string_bytes out.new
        ≡ string_bytes out.old ++ text.moment_lines row.now due) }
{
    put_line(out, "level", name_or(&row.level, "-"))?;
    put_minute(out, "created", Some(row.created))?;
    put_minute(out, "due", due)
}

fn put_links(out: &mut String, links: &Links) -> Result<(), AllocError>
    ensures { OnOk result (string_bytes out.new
        ≡ string_bytes out.old ++ text.link_lines links.now) }
{
    put_both(
        out,
        "DependsOn",
        &links.depends_on,
        "DependedOnBy",
        &links.depended_on_by,
    )?;
    put_both(
        out,
        "MemberOf",
        &links.member_of,
        "HasMember",
        &links.has_member,
    )?;
    put_both(
        out,
        "RefersTo",
        &links.refers_to,
        "ReferredToBy",
        &links.referred_to_by,
    )
}

/// Both directions of one kind of link.
#[tactic(auto, unfolding(crate::specs::Texts::both_lines))]
fn put_both(
    out: &mut String,
    label: &str,
    there: &Sequence<u32>,
    back_label: &str,
    back: &Sequence<u32>,
) -> Result<(), AllocError>
    ensures { OnOk result (string_bytes out.new
        ≡ string_bytes out.old ++ text.both_lines label.now there.now back_label.now back.now) }
{
    put_numbers(out, label, there.as_slice())?;
    put_numbers(out, back_label, back.as_slice())
}

#[tactic(auto, unfolding(crate::specs::Texts::line))]
fn put_line(out: &mut String, label: &str, value: &str) -> Result<(), AllocError>
    ensures { OnOk result (string_bytes out.new
        ≡ string_bytes out.old ++ text.line label.now value.now) }
{
    write!(out, "{label}: {value}\n")
}

fn put_minute(out: &mut String, label: &str, minute: Option<Minute>) -> Result<(), AllocError>
    ensures { OnOk result (string_bytes out.new
        ≡ string_bytes out.old ++ text.line label.now (minute_or_dash minute)) }
{
    match minute {
        Some(minute) => put_line(out, label, as_text(&minute_text(minute))),
        None => put_line(out, label, "-"),
    }
}

#[tactic(auto, unfolding(crate::specs::Texts::line))]
fn put_list(out: &mut String, label: &str, texts: &[Text]) -> Result<(), AllocError>
    ensures { OnOk result (string_bytes out.new
        ≡ string_bytes out.old ++ text.line label.now (text.listed texts.now)) }
{
    write!(out, "{label}: ")?;
    put_listed(out, texts)?;
    out.push_str("\n")
}

fn put_listed(out: &mut String, texts: &[Text]) -> Result<(), AllocError>
    ensures { OnOk result (string_bytes out.new ≡ string_bytes out.old ++ text.listed texts.now) }
{
    let [first, rest @ ..] = texts else {
        return out.push_str("-");
    };
    out.push_str(first.as_str())?;
    put_more(out, rest)
}

/// Each of the texts after a space.
fn put_more(out: &mut String, texts: &[Text]) -> Result<(), AllocError>
    ensures { OnOk result (string_bytes out.new
        ≡ string_bytes out.old ++ flat_map text.after_space texts.now) }
{
    for text in texts {
        let shown = text.as_str();
        write!(out, " {shown}")?;
    }
    Ok(())
}

#[tactic(auto, unfolding(crate::specs::Texts::line))]
fn put_numbers(out: &mut String, label: &str, ids: &[u32]) -> Result<(), AllocError>
    ensures { OnOk result (string_bytes out.new
        ≡ string_bytes out.old ++ text.line label.now (text.numbers ids.now)) }
{
    write!(out, "{label}: ")?;
    put_numbered(out, ids)?;
    out.push_str("\n")
}

fn put_numbered(out: &mut String, ids: &[u32]) -> Result<(), AllocError>
    ensures { OnOk result (string_bytes out.new ≡ string_bytes out.old ++ text.numbers ids.now) }
{
    let [first, rest @ ..] = ids else {
        return out.push_str("-");
    };
    let shown = *first;
    write!(out, "{shown}")?;
    put_more_numbers(out, rest)
}

/// Each of the numbers after a space.
fn put_more_numbers(out: &mut String, ids: &[u32]) -> Result<(), AllocError>
    ensures { OnOk result (string_bytes out.new
        ≡ string_bytes out.old ++ flat_map text.after_number ids.now) }
{
    for id in ids {
        let shown = *id;
        write!(out, " {shown}")?;
    }
    Ok(())
}
