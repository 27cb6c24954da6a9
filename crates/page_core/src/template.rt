//! Templates: markup with holes for texts, and with pieces that stand there or don't.
ghost use Rattle.std.specs.Prelude.{◌≡◌, ◌++◌, true, [], if◌then◌else◌, drop, IfOk, OnErr, OnOk};
ghost use Rattle.page_core.specs.Escape.{escaped};
ghost use Rattle.page_core.specs.Page.{page_bytes};
ghost use Rattle.page_core.specs.Extends.{Extends};
ghost use Rattle.page_core.specs.Template.{
  Byte,
  filled,
  filled_from,
  flags_left,
  holds,
  later,
  next,
  piece,
  shown_after,
  sign,
  texts_left,
};
ghost use Rattle.page_core.specs.Values.{text_of, texts_of};

use crate::escape::put_markup;
use crate::values::{Value, put_value};
use std::alloc::AllocError;

/// Puts a template after what is there, with these values in its holes, each written `{}`, in their
/// order, and with those of its pieces in brackets, `[..]`, for which a flag is set. A hole for which
/// there is no value stays empty, and a piece for which there is no flag out. A value for a hole in a
/// piece that isn't shown is passed over. Where memory is refused, what was there stays alone.
pub fn fill(
    out: &mut Vec<u8>,
    template: &'static str,
    values: &[Value<'_>],
    flags: &[bool],
) -> Result<(), AllocError>
    ensures ok { OnOk result (out.new.items ≡ out.old.items
        ++ page_bytes (filled template.entry.now (texts_of values.now) flags.now)) }
    ensures err { OnErr result (out.new.items ≡ out.old.items) }
{
    let length = out.len();
    match fill_each(out, template.as_bytes(), values, flags) {
        Ok(()) => Ok(()),
        Err(refused) => {
            out.truncate(length);
            Err(refused)
        }
    }
}

/// Where in a template one is: after how many texts and flags, and whether what follows is shown.
#[derive(Clone, Copy)]
struct Place {
    texts: usize,
    flags: usize,
    shown: bool,
}

#[tactic(auto, unfolding(crate::specs::Template::filled_from))]
fn fill_each(
    out: &mut Vec<u8>,
    template: &[u8],
    values: &[Value<'_>],
    flags: &[bool],
) -> Result<(), AllocError>
    ensures ok { OnOk result (out.new.items ≡ out.old.items
        ++ page_bytes (filled template.now (texts_of values.now) flags.now)) }
    ensures kept { Extends out.old.items out.new.items }
{
    let mut place = Place {
        texts: 0,
        flags: 0,
        shown: true,
    };
    let mut start = 0;
    for at in 0..template.len() {
        let byte = template[at];
        if is_markup(byte) {
            continue;
        }
        put_run(out, &template[start..at], place.shown)?;
        place = put_sign(out, byte, values, flags, place)?;
        start = at + 1;
    }
    put_run(out, &template[start..], place.shown)
}

/// Whether it is a byte of markup.
fn is_markup(byte: u8) -> bool
    ensures { result ≡ true → sign byte ≡ Byte byte }
{
    !matches!(byte, b'{' | b'}' | b'[' | b']')
}

/// Puts what a byte of a template stands for, and tells where one is after it.
fn put_sign(
    out: &mut Vec<u8>,
    byte: u8,
    values: &[Value<'_>],
    flags: &[bool],
    place: Place,
) -> Result<Place, AllocError>
    ensures put { OnOk result (out.new.items ≡ out.old.items ++ page_bytes (if place.shown then
        piece (sign byte) (drop place.texts (texts_of values.now)) else [])) }
    ensures texts { IfOk result (λ after. drop after.texts (texts_of values.now)
        ≡ texts_left (sign byte) (drop place.texts (texts_of values.now))) }
    ensures flags { IfOk result (λ after. drop after.flags flags.now
        ≡ flags_left (sign byte) (drop place.flags flags.now)) }
    ensures shown { IfOk result (λ after. after.shown
        ≡ shown_after (sign byte) place.shown (drop place.flags flags.now)) }
    ensures kept { Extends out.old.items out.new.items }
{
    match byte {
        b'{' => {
            let used = put_next(out, values, place.texts, place.shown)?;
            Ok(Place {
                texts: used,
                ..place
            })
        }
        b'}' => Ok(place),
        b'[' => Ok(opened(flags, place)),
        b']' => Ok(Place {
            shown: true,
            ..place
        }),
        other => {
            put_run(out, &[other], place.shown)?;
            Ok(place)
        }
    }
}

fn put_next(
    out: &mut Vec<u8>,
    values: &[Value<'_>],
    used: usize,
    shown: bool,
) -> Result<usize, AllocError>
    ensures put { OnOk result (out.new.items ≡ out.old.items
        ++ (if shown then escaped (next (drop used (texts_of values.now))) else [])) }
    ensures later { IfOk result (λ after. drop after (texts_of values.now)
        ≡ later (drop used (texts_of values.now))) }
    ensures kept { Extends out.old.items out.new.items }
{
    match values.get(used) {
        Some(value) => {
            put_shown(out, value, shown)?;
            Ok(used + 1)
        }
        None => Ok(used),
    }
}

/// Where one is after a bracket that opens.
fn opened(flags: &[bool], place: Place) -> Place
    ensures texts { result.texts ≡ place.texts }
    ensures flags { drop result.flags flags.now ≡ later (drop place.flags flags.now) }
    ensures shown { result.shown ≡ holds (drop place.flags flags.now) }
{
    match flags.get(place.flags) {
        Some(shown) => Place {
            flags: place.flags + 1,
            shown: *shown,
            ..place
        },
        None => Place {
            shown: false,
            ..place
        },
    }
}

fn put_run(out: &mut Vec<u8>, run: &[u8], shown: bool) -> Result<(), AllocError>
    ensures ok { OnOk result (out.new.items ≡ out.old.items ++ (if shown then run.now else [])) }
    ensures kept { Extends out.old.items out.new.items }
{
    if shown { put_markup(out, run) } else { Ok(()) }
}

fn put_shown(out: &mut Vec<u8>, value: &Value<'_>, shown: bool) -> Result<(), AllocError>
    ensures ok { OnOk result (out.new.items
        ≡ out.old.items ++ (if shown then escaped (text_of value.now) else [])) }
    ensures kept { Extends out.old.items out.new.items }
{
    if shown { put_value(out, value) } else { Ok(()) }
}
