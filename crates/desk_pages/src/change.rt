//! The part of a request's page by which it is changed.
ghost use Rattle.std.specs.Prelude.{◌≡◌, ◌++◌, OnOk};
ghost use Rattle.page_core.specs.Page.{page_bytes};
ghost use Rattle.desk_pages.specs.Change as form;
ghost use Rattle.desk_pages.specs.Owner.{give_form, owner_form};
ghost use Rattle.desk_pages.specs.Pieces.{parts_if};
ghost use Rattle.desk_pages.specs.Rights as rights;

use crate::fields::put_field_forms;
use crate::markup::change::{CHANGE_END, CHANGE_TOP, CONTENT_END};
use crate::moves::{may_go_on, put_moves};
use crate::owner::{put_give_form, put_owner_form};
use crate::owners::put_owners;
use crate::people::put_people;
use crate::rights::{may_change_owner, may_give, may_modify, may_set_persons};
use desk_model::{Dossier, Shown};
use page_core::fill;
use settings_core::Settings;
use std::alloc::{AllocError, Global};

/// Puts the part by which a request is changed, as far as the caller may, and the end of the page's
/// content: the moves that the lifecycle of its queue has from its status, its owner, level, watchers
/// and links. For a requestor it is folded at first, and where nothing may be changed it isn't there.
#[tactic(auto, unfolding(crate::specs::Change::change))]
pub(crate) fn put_change(
    alloc: Global,
    out: &mut Vec<u8>,
    caller: &str,
    settings: &Settings,
    dossier: &Dossier,
) -> Result<(), AllocError>
    ensures { OnOk result (out.new.items ≡ out.old.items
        ++ page_bytes (form.change caller.now settings.now dossier.now)) }
{
    put_panel_if(alloc, out, caller, settings, dossier)?;
    fill(out, CONTENT_END, &[], &[])
}

fn put_panel_if(
    alloc: Global,
    out: &mut Vec<u8>,
    caller: &str,
    settings: &Settings,
    dossier: &Dossier,
) -> Result<(), AllocError>
    ensures { OnOk result (out.new.items ≡ out.old.items ++ page_bytes
        (parts_if (form.may_change caller.now settings.now dossier.now)
        (form.panel caller.now settings.now dossier.now))) }
{
    if may_change(caller, settings, dossier) {
        put_panel(alloc, out, caller, settings, dossier)
    } else {
        Ok(())
    }
}

/// Whether there is anything that the caller may change.
fn may_change(caller: &str, settings: &Settings, dossier: &Dossier) -> bool
    ensures { result ≡ form.may_change caller.now settings.now dossier.now }
{
    let shown = &dossier.shown;
    let lifecycle = settings.lifecycle(dossier.queue.lifecycle.as_str());
    may_go_on(settings, shown, caller, lifecycle)
        || may_change_owner(settings, shown, caller)
        || may_give(settings, shown, caller)
        || may_set_persons(settings, shown, caller)
}

#[tactic(auto, unfolding(crate::specs::Change::panel))]
fn put_panel(
    alloc: Global,
    out: &mut Vec<u8>,
    caller: &str,
    settings: &Settings,
    dossier: &Dossier,
) -> Result<(), AllocError>
    ensures { OnOk result (out.new.items ≡ out.old.items
        ++ page_bytes (form.panel caller.now settings.now dossier.now)) }
{
    let id = dossier.shown.row.id;
    let shown = &dossier.shown;
    let lifecycle = settings.lifecycle(dossier.queue.lifecycle.as_str());
    let modifies = may_modify(settings, shown, caller);
    let sets = may_set_persons(settings, shown, caller);
    fill(out, CHANGE_TOP, &[], &[is_open(caller, shown)])?;
    put_moves(out, id, settings, shown, caller, lifecycle)?;
    put_owner_forms(alloc, out, id, caller, settings, shown)?;
    put_field_forms(
        out,
        id,
        caller,
        &shown.row.level,
        settings.levels(),
        modifies,
        sets,
    )?;
    put_people(out, caller, shown)?;
    fill(out, CHANGE_END, &[], &[])
}

/// Whether it is unfolded at first: but for requestors, who mostly want to reply.
pub(crate) fn is_open(caller: &str, shown: &Shown) -> bool
    ensures { result ≡ form.is_open caller.now shown.now }
{
    !shown.requestors.contains(caller)
}

fn put_owner_forms(
    alloc: Global,
    out: &mut Vec<u8>,
    id: u32,
    caller: &str,
    settings: &Settings,
    shown: &Shown,
) -> Result<(), AllocError>
    ensures { OnOk result (out.new.items
        ≡ out.old.items ++ page_bytes (form.owner_forms id caller.now settings.now shown.now)) }
{
    put_own_form(out, id, caller, settings, shown)?;
    put_giving(out, id, caller, settings, shown)?;
    put_owners(alloc, out, caller, settings, shown)
}

fn put_own_form(
    out: &mut Vec<u8>,
    id: u32,
    caller: &str,
    settings: &Settings,
    shown: &Shown,
) -> Result<(), AllocError>
    ensures { OnOk result (out.new.items ≡ out.old.items ++ page_bytes
        (parts_if (rights.may_change_owner settings.now shown.now caller.now)
        (owner_form id caller.now shown.now.row.owner))) }
{
    if may_change_owner(settings, shown, caller) {
        put_owner_form(out, id, caller, &shown.row.owner)
    } else {
        Ok(())
    }
}

fn put_giving(
    out: &mut Vec<u8>,
    id: u32,
    caller: &str,
    settings: &Settings,
    shown: &Shown,
) -> Result<(), AllocError>
    ensures { OnOk result (out.new.items ≡ out.old.items ++ page_bytes
        (parts_if (rights.may_give settings.now shown.now caller.now) (give_form id caller.now))) }
{
    if may_give(settings, shown, caller) {
        put_give_form(out, id, caller)
    } else {
        Ok(())
    }
}
