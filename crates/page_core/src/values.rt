//! What stands in a hole of a template.
ghost use Rattle.std.specs.Prelude.{◌≡◌, ◌++◌, decimal, OnOk};
ghost use Rattle.page_core.specs.Escape.{escaped};
ghost use Rattle.page_core.specs.Extends.{Extends};
ghost use Rattle.page_core.specs.Values.{span, text_of};

use crate::escape::put_text;
use hours_core::{Minute, minute_text};
use itoa::Buffer;
use std::alloc::AllocError;

/// What stands in a hole.
#[derive(Clone, Copy)]
pub enum Value<'t> {
    /// A text of anybody's.
    Text(&'t str),
    /// A number, in decimal digits.
    Number(u32),
    /// A sum of numbers, in decimal digits.
    Sum(u128),
    /// The day of a moment, in UTC.
    Day(Minute),
    /// The time of the day of a moment, in UTC.
    Clock(Minute),
    /// So many minutes, in days and hours, in hours and minutes, or in minutes.
    Span(u32),
}

#[tactic(auto, unfolding(crate::specs::Values::clock, crate::specs::Values::day))]
pub(crate) fn put_value(out: &mut Vec<u8>, value: &Value<'_>) -> Result<(), AllocError>
    ensures ok { OnOk result (out.new.items ≡ out.old.items ++ escaped (text_of value.now)) }
    ensures kept { Extends out.old.items out.new.items }
{
    match value {
        Value::Text(text) => put_text(out, text.as_bytes()),
        Value::Number(number) => put_number(out, u128::from(*number)),
        Value::Sum(sum) => put_number(out, *sum),
        Value::Day(moment) => put_text(out, &minute_text(*moment)[..10]),
        Value::Clock(moment) => put_text(out, &minute_text(*moment)[11..]),
        Value::Span(minutes) => put_span(out, *minutes),
    }
}

fn put_number(out: &mut Vec<u8>, number: u128) -> Result<(), AllocError>
    ensures ok { OnOk result (out.new.items ≡ out.old.items ++ escaped (decimal number)) }
    ensures kept { Extends out.old.items out.new.items }
{
    put_text(out, Buffer::new().format(number).as_bytes())
}

#[tactic(auto, unfolding(crate::specs::Values::span))]
fn put_span(out: &mut Vec<u8>, minutes: u32) -> Result<(), AllocError>
    ensures ok { OnOk result (out.new.items ≡ out.old.items ++ escaped (span minutes)) }
    ensures kept { Extends out.old.items out.new.items }
{
    if minutes >= 1440 {
        put_units(out, minutes / 1440, " d ", minutes % 1440 / 60, " h")
    } else if minutes >= 60 {
        put_units(out, minutes / 60, " h ", minutes % 60, " min")
    } else {
        put_unit(out, minutes, " min")
    }
}

#[tactic(auto, using(crate::proofs::Puts::extends_on))]
fn put_units(
    out: &mut Vec<u8>,
    many: u32,
    unit: &str,
    few: u32,
    smaller: &str,
) -> Result<(), AllocError>
    ensures ok { OnOk result (out.new.items ≡ out.old.items
        ++ escaped ((decimal many ++ unit.now) ++ (decimal few ++ smaller.now))) }
    ensures kept { Extends out.old.items out.new.items }
{
    put_unit(out, many, unit)?;
    put_unit(out, few, smaller)
}

#[tactic(auto, using(crate::proofs::Puts::extends_on))]
fn put_unit(out: &mut Vec<u8>, number: u32, unit: &str) -> Result<(), AllocError>
    ensures ok { OnOk result (out.new.items
        ≡ out.old.items ++ escaped (decimal number ++ unit.now)) }
    ensures kept { Extends out.old.items out.new.items }
{
    put_number(out, u128::from(number))?;
    put_text(out, unit.as_bytes())
}
