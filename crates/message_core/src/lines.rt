//! The header lines of a head, by their names.
ghost use Rattle.std.specs.Prelude.{◌≡◌, ◌≤◌, length, map, All};
ghost use Rattle.std.specs.List.{count_by, find};
ghost use Rattle.std.specs.Option.{option_map};
ghost use Rattle.httparse.specs.Spans.{IsHeaderWithin, header_bytes};
ghost use Rattle.message_core.specs.Heading as form;

use httparse::spans::HeaderSpan;

/// Whether the line has that name, without regard to ASCII case.
pub(crate) fn is_line_named(bytes: &[u8], line: &HeaderSpan, name: &str) -> bool
    requires { IsHeaderWithin (length bytes.now) line.now }
    ensures { result ≡ form.is_named name.now (header_bytes bytes.now line.now) }
{
    line.name.of(bytes).eq_ignore_ascii_case(name.as_bytes())
}

/// How many lines have that name, without regard to ASCII case.
pub(crate) fn count_named(bytes: &[u8], lines: &[HeaderSpan], name: &str) -> usize
    requires { All (IsHeaderWithin (length bytes.now)) lines.now }
    ensures { result ≡ count_by (form.is_named name.now) (map (header_bytes bytes.now) lines.now) }
{
    let mut count = 0usize;
    for line in lines {
        if is_line_named(bytes, line, name) {
            count += 1;
        }
    }
    count
}

/// The value of the first line of that name.
pub(crate) fn first_named<'b>(bytes: &'b [u8], lines: &[HeaderSpan], name: &str) -> Option<&'b [u8]>
    requires { All (IsHeaderWithin (length bytes.now)) lines.now }
    ensures { option_map (λ v. v.now) result
        ≡ form.first_value name.now (map (header_bytes bytes.now) lines.now) }
{
    for line in lines {
        if is_line_named(bytes, line, name) {
            return Some(line.value.of(bytes));
        }
    }
    None
}
