//! The page of who has how much to do.
ghost use Rattle.std.specs.Prelude.{◌≡◌, ◌++◌, IfOk, OnOk};
ghost use Rattle.std.specs.List.{flat_map};
ghost use Rattle.desk_texts.specs.Texts.Workload.{all_live, all_overdue};
ghost use Rattle.page_core.specs.Page.{page_bytes};
ghost use Rattle.desk_pages.specs.Workload as form;

use crate::frame::{Place, put_bottom, put_top};
use crate::markup::workload::{LOAD_BARS, LOAD_ROW, LOAD_TOP, LOAD_TOTAL};
use crate::pieces::name_or;
use crate::rows::is_of;
use desk_model::Load;
use hours_core::Minute;
use page_core::{Value, fill};
use std::alloc::{AllocError, Global};

/// The page of who has how much to do, for a caller at a moment: a row for each owner, with bars of
/// one scale, and the sums.
pub fn workload_page(
    alloc: Global,
    caller: &str,
    moment: Minute,
    loads: &[Load],
) -> Result<Vec<u8>, AllocError>
    ensures { IfOk result (λ page. page.items
        ≡ page_bytes (form.workload_page caller.now moment loads.now)) }
{
    let mut out = Vec::new(alloc);
    put_top(&mut out, "Workload", Place::Workload, caller)?;
    fill(&mut out, LOAD_TOP, &[], &[])?;
    put_rows(&mut out, caller, most(loads), loads)?;
    put_total(&mut out, loads)?;
    put_bottom(&mut out, moment)?;
    Ok(out)
}

fn put_rows(out: &mut Vec<u8>, caller: &str, whole: u32, loads: &[Load]) -> Result<(), AllocError>
    ensures { OnOk result (out.new.items
        ≡ out.old.items ++ page_bytes (flat_map (form.load_row caller.now whole) loads.now)) }
{
    for load in loads {
        put_row(out, caller, whole, load)?;
    }
    Ok(())
}

fn put_row(out: &mut Vec<u8>, caller: &str, whole: u32, load: &Load) -> Result<(), AllocError>
    ensures { OnOk result (out.new.items
        ≡ out.old.items ++ page_bytes (form.load_row caller.now whole load.now)) }
{
    let mine = is_of(caller, &load.owner);
    put_row_of(out, name_or(&load.owner, "Nobody"), mine, whole, load)
}

/// Puts a row with the owner's name.
#[tactic(auto, unfolding(crate::specs::Workload::load_row_of))]
fn put_row_of(
    out: &mut Vec<u8>,
    owner: &str,
    mine: bool,
    whole: u32,
    load: &Load,
) -> Result<(), AllocError>
    ensures { OnOk result (out.new.items
        ≡ out.old.items ++ page_bytes (form.load_row_of owner.now mine whole load.now)) }
{
    let values = [
        Value::Text(owner),
        Value::Text(owner),
        Value::Text(owner),
        Value::Number(load.live),
        Value::Text(owner),
        Value::Number(load.overdue),
    ];
    let flags = [mine, load.owner.is_none(), load.overdue != 0];
    fill(out, LOAD_ROW, &values, &flags)?;
    put_bars(out, whole, load)
}

/// Puts the end of a row: how much is open and late, as bars.
#[tactic(auto, unfolding(crate::specs::Workload::bars))]
fn put_bars(out: &mut Vec<u8>, whole: u32, load: &Load) -> Result<(), AllocError>
    ensures { OnOk result (out.new.items
        ≡ out.old.items ++ page_bytes (form.bars whole load.now)) }
{
    let values = [
        Value::Number(whole),
        Value::Number(load.live),
        Value::Number(load.live),
        Value::Number(whole),
        Value::Number(load.overdue),
        Value::Number(load.overdue),
    ];
    fill(out, LOAD_BARS, &values, &[])
}

#[tactic(auto, unfolding(crate::specs::Workload::total))]
fn put_total(out: &mut Vec<u8>, loads: &[Load]) -> Result<(), AllocError>
    ensures { OnOk result (out.new.items ≡ out.old.items ++ page_bytes (form.total loads.now)) }
{
    let late = late_sum(loads);
    fill(
        out,
        LOAD_TOTAL,
        &[Value::Sum(live_sum(loads)), Value::Sum(late)],
        &[late != 0],
    )
}

/// The most that an owner has to do.
fn most(loads: &[Load]) -> u32
    ensures { result ≡ form.most loads.now }
{
    let mut most = 0;
    for load in loads {
        most = most.max(load.live);
    }
    most
}

/// How much all owners have to do.
pub(crate) fn live_sum(loads: &[Load]) -> u128
    ensures { result ≡ all_live loads.now }
{
    let mut sum = 0;
    for load in loads {
        sum += u128::from(load.live);
    }
    sum
}

/// How much of it is late.
pub(crate) fn late_sum(loads: &[Load]) -> u128
    ensures { result ≡ all_overdue loads.now }
{
    let mut sum = 0;
    for load in loads {
        sum += u128::from(load.overdue);
    }
    sum
}
