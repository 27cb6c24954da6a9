//! The text of who has how much to do.

ghost use Rattle.std.specs.Prelude.{◌≡◌, ◌++◌, IfOk, OnOk, string_bytes};
ghost use Rattle.std.specs.List.{flat_map};
ghost use Rattle.desk_texts.specs.Texts.Workload as text;

use crate::texts::shown::name_or;
use desk_model::Load;
use itoa::Buffer;
use std::alloc::{AllocError, Global};

/// The text of how much each owner has to do: a header, a line for each with how many requests
/// there are and how many of them are late, and a line `Total` with the sums.
pub fn workload_text(alloc: Global, loads: &[Load]) -> Result<String, AllocError>
    ensures { IfOk result (λ t. string_bytes t ≡ text.workload_text loads.now) }
{
    let mut out = String::new(alloc);
    put_columns(&mut out, "owner", "open", "overdue")?;
    put_owners(&mut out, loads)?;
    put_line(&mut out, "Total", all_live(loads), all_overdue(loads))?;
    Ok(out)
}

fn put_owners(out: &mut String, loads: &[Load]) -> Result<(), AllocError>
    ensures { OnOk result (string_bytes out.new
        ≡ string_bytes out.old ++ flat_map text.line_of_owner loads.now) }
{
    for load in loads {
        let owner = name_or(&load.owner, "Nobody");
        put_line(out, owner, u128::from(load.live), u128::from(load.overdue))?;
    }
    Ok(())
}

/// How many requests all owners have that aren't inactive.
fn all_live(loads: &[Load]) -> u128
    ensures { result ≡ text.all_live loads.now }
{
    let mut sum = 0;
    for load in loads {
        sum += u128::from(load.live);
    }
    sum
}

/// How many of them are late.
fn all_overdue(loads: &[Load]) -> u128
    ensures { result ≡ text.all_overdue loads.now }
{
    let mut sum = 0;
    for load in loads {
        sum += u128::from(load.overdue);
    }
    sum
}

/// A line with these two numbers. Sums of any number of them fit.
fn put_line(out: &mut String, owner: &str, live: u128, overdue: u128) -> Result<(), AllocError>
    ensures { OnOk result (string_bytes out.new
        ≡ string_bytes out.old ++ text.line owner.now live overdue) }
{
    let mut live_digits = Buffer::new();
    let mut overdue_digits = Buffer::new();
    put_columns(
        out,
        owner,
        live_digits.format(live),
        overdue_digits.format(overdue),
    )
}

/// A line of these columns, of the header, of an owner or of the sums.
#[tactic(auto, unfolding(crate::specs::Texts::Workload::columns))]
fn put_columns(out: &mut String, owner: &str, live: &str, overdue: &str) -> Result<(), AllocError>
    ensures { OnOk result (string_bytes out.new
        ≡ string_bytes out.old ++ text.columns owner.now live.now overdue.now) }
{
    write!(out, "{owner:<20} {live:>7} {overdue:>7}\n")
}
