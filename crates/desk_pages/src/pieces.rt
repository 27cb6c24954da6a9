//! Pieces that several pages have.
ghost use Rattle.std.specs.Prelude.{◌≡◌, ◌++◌, OnOk, unwrap_or};
ghost use Rattle.page_core.specs.Page.{page_bytes};
ghost use Rattle.desk_pages.specs.Pieces as form;

use crate::markup::pieces::{CHOICE, NO_TIME, TABLE_END, TIME};
use hours_core::Minute;
use page_core::{Value, fill};
use std::alloc::AllocError;
use text_core::Text;

/// The name, or what stands for none.
pub(crate) fn name_or<'t>(name: &'t Option<Text>, absent: &'static str) -> &'t str
    ensures { result.now ≡ unwrap_or name.entry.now absent.entry.now }
{
    match name {
        Some(name) => name.as_str(),
        None => absent,
    }
}

/// Puts a moment, or a dash for none.
#[tactic(auto, unfolding(crate::specs::Pieces::time_or_dash))]
pub(crate) fn put_time_or_dash(out: &mut Vec<u8>, moment: Option<Minute>) -> Result<(), AllocError>
    ensures { OnOk result (out.new.items
        ≡ out.old.items ++ page_bytes (form.time_or_dash moment)) }
{
    match moment {
        Some(moment) => {
            let day = Value::Day(moment);
            let clock = Value::Clock(moment);
            fill(
                out,
                TIME,
                &[day, clock, Value::Day(moment), Value::Clock(moment)],
                &[],
            )
        }
        None => fill(out, NO_TIME, &[], &[]),
    }
}

/// Puts something to choose, and whether it is chosen at first.
#[tactic(auto, unfolding(crate::specs::Pieces::choice))]
pub(crate) fn put_choice(out: &mut Vec<u8>, first: bool, name: &str) -> Result<(), AllocError>
    ensures { OnOk result (out.new.items
        ≡ out.old.items ++ page_bytes (form.choice first name.now)) }
{
    fill(out, CHOICE, &[Value::Text(name)], &[first])
}

/// Puts the end of a table.
#[tactic(auto, unfolding(crate::specs::Pieces::table_end))]
pub(crate) fn put_table_end(out: &mut Vec<u8>) -> Result<(), AllocError>
    ensures { OnOk result (out.new.items ≡ out.old.items ++ page_bytes form.table_end) }
{
    fill(out, TABLE_END, &[], &[])
}
