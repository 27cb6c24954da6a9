//! The path at which a command is asked for.
ghost use Rattle.std.specs.Prelude.{◌≡◌, ◌++◌, IfOk, map, decimal};
ghost use Rattle.desk_forms.specs.Paths.{bound_of, part_of};
ghost use Rattle.desk_forms.specs.Arguments.{values_of};
ghost use Rattle.client_core.specs.Target as spec;

use desk_forms::arguments::Arguments;
use desk_forms::paths::{Part, PathParameter};
use itoa::Buffer;
use std::alloc::AllocError;
use text_core::is_name;

/// Puts the path of these parts at the end.
pub(crate) fn add_target(
    out: &mut Vec<u8>,
    parts: &[Part],
    values: &Arguments<'_>,
) -> Result<(), AllocError>
    ensures { IfOk result (λ _. out.new.items
        ≡ out.old.items ++ spec.target (map part_of parts.now) (values_of values.now)) }
{
    for part in parts {
        out.extend_from_slice(b"/")?;
        add_part(out, *part, values)?;
    }
    Ok(())
}

fn add_part(out: &mut Vec<u8>, part: Part, values: &Arguments<'_>) -> Result<(), AllocError>
    ensures { IfOk result (λ _. out.new.items
        ≡ out.old.items ++ spec.part_text (part_of part) (values_of values.now)) }
{
    match part {
        Part::Lit(here) => add_text(out, here),
        Part::Queue => add_text(out, queue_text(values.queue)),
        Part::Id => add_number(out, values.id as u64),
    }
}

fn queue_text(name: &str) -> &str
    ensures { result.now ≡ spec.queue_text name.entry.now }
{
    if is_name(name) { name } else { "%" }
}

/// What these parts name.
pub(crate) fn named<'v>(parts: &[Part], values: &Arguments<'v>) -> PathParameter<'v>
    ensures { bound_of result ≡ spec.named (map part_of parts.now) (values_of values.now) }
{
    for part in parts {
        match part {
            Part::Lit(_) => {}
            Part::Queue => return PathParameter::Queue(queue_text(values.queue)),
            Part::Id => return PathParameter::Request(values.id),
        }
    }
    PathParameter::Nothing
}

pub(crate) fn add_text(out: &mut Vec<u8>, text: &str) -> Result<(), AllocError>
    ensures { IfOk result (λ _. out.new.items ≡ out.old.items ++ text.now) }
{
    out.extend_from_slice(text.as_bytes())?;
    Ok(())
}

pub(crate) fn add_number(out: &mut Vec<u8>, number: u64) -> Result<(), AllocError>
    ensures { IfOk result (λ _. out.new.items ≡ out.old.items ++ decimal number) }
{
    let mut buffer = Buffer::new();
    add_text(out, buffer.format(number))
}
