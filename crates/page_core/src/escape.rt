//! A text is put so that it is read as text.
ghost use Rattle.std.specs.Prelude.{◌≡◌, ◌++◌, OnOk};
ghost use Rattle.page_core.specs.Escape.{escape, escaped};
ghost use Rattle.page_core.specs.Extends.{Extends};

use std::alloc::AllocError;

pub(crate) fn put_markup(out: &mut Vec<u8>, markup: &[u8]) -> Result<(), AllocError>
    ensures ok { OnOk result (out.new.items ≡ out.old.items ++ markup.now) }
    ensures kept { Extends out.old.items out.new.items }
{
    out.extend_from_slice(markup)
}

pub(crate) fn put_text(out: &mut Vec<u8>, text: &[u8]) -> Result<(), AllocError>
    ensures ok { OnOk result (out.new.items ≡ out.old.items ++ escaped text.now) }
    ensures kept { Extends out.old.items out.new.items }
{
    for byte in text {
        put_byte(out, *byte)?;
    }
    Ok(())
}

fn put_byte(out: &mut Vec<u8>, byte: u8) -> Result<(), AllocError>
    ensures ok { OnOk result (out.new.items ≡ out.old.items ++ escape byte) }
    ensures kept { Extends out.old.items out.new.items }
{
    match byte {
        b'&' => put_markup(out, b"&amp;"),
        b'<' => put_markup(out, b"&lt;"),
        b'>' => put_markup(out, b"&gt;"),
        b'"' => put_markup(out, b"&quot;"),
        b'\'' => put_markup(out, b"&#39;"),
        _ => put_markup(out, &[byte]),
    }
}
