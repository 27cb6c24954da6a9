//! A path laid against the rows of the table.

ghost use Rattle.std.specs.Prelude.{◌≡◌, map, Some};
ghost use Rattle.std.specs.Option.{option_map};
ghost use Rattle.desk_forms.specs.Paths.{Nothing, bound_of, part_of, path_of};
ghost use Rattle.route_core.specs.Cuts.{text_in};
ghost use Rattle.route_core.specs.Places as places;
ghost use Rattle.route_core.specs.Places.{place_in};

use crate::cuts::{cut, text_in};
use desk_forms::number_of_word;
use desk_forms::paths::{Method, Part, Path, PathParameter};
use desk_forms::table::CommandForm;

/// A method, the form of a command, and what a path names for it.
#[derive(Clone, Copy)]
pub(crate) struct Place<'a> {
    pub method: Method,
    pub leads: CommandForm,
    pub bound: PathParameter<'a>,
}

fn is_method(a: Method, b: Method) -> bool
    ensures { result ≡ places.is_method a b }
{
    match (a, b) {
        (Method::Get, Method::Get) => true,
        (Method::Post, Method::Post) => true,
        _ => false,
    }
}

/// What the parts name so far, with this text at a part, if it may stand there.
fn bound_to<'a>(part: Part, text: &'a str, bound: PathParameter<'a>) -> Option<PathParameter<'a>>
    ensures { option_map bound_of result
        ≡ places.bound_to (part_of part) text.entry.now (bound_of bound.entry) }
{
    match part {
        Part::Lit(here) => { if text == here { Some(bound) } else { None } }
        Part::Queue => {
            if text.is_empty() {
                None
            } else {
                Some(PathParameter::Queue(text))
            }
        }
        Part::Id => match number_of_word(text) {
            Some(id) => Some(PathParameter::Request(id)),
            None => None,
        },
    }
}

/// The same of the bytes at a part, which have to be a text.
fn bound_here<'a>(part: Part, here: &'a [u8], bound: PathParameter<'a>) -> Option<PathParameter<'a>>
    ensures { option_map bound_of result
        ≡ places.bound_if_text (part_of part) (text_in here.entry.now)
        (bound_of bound.entry) }
{
    match text_in(here) {
        Some(text) => bound_to(part, text, bound),
        None => None,
    }
}

/// What is left of a path behind a part, and what is named so far, if the part may stand there.
fn behind<'a>(
    part: Part,
    at: (Option<&'a [u8]>, PathParameter<'a>),
) -> Option<(Option<&'a [u8]>, PathParameter<'a>)>
    ensures { option_map places.standing_of result
        ≡ places.behind (part_of part) (places.standing_of at.entry) }
{
    match at.0 {
        Some(path) => {
            let (here, rest) = cut(path, b'/');
            match bound_here(part, here, at.1) {
                Some(bound) => Some((rest, bound)),
                None => None,
            }
        }
        None => None,
    }
}

/// What is named, where nothing is left of the path.
fn ended<'a>(at: (Option<&'a [u8]>, PathParameter<'a>)) -> Option<PathParameter<'a>>
    ensures { option_map bound_of result ≡ places.ended (places.standing_of at.entry) }
{
    match at.0 {
        Some(_) => None,
        None => Some(at.1),
    }
}

/// What the parts of a path name, where they are these.
fn bound_by<'a>(parts: &[Part], path: &'a [u8]) -> Option<PathParameter<'a>>
    ensures { option_map bound_of result
        ≡ places.bound_by (map part_of parts.now) (Some path.entry.now, Nothing) }
{
    let mut at = (Some(path), PathParameter::Nothing);
    for part in parts {
        match behind(*part, at) {
            Some(next) => at = next,
            None => return None,
        }
    }
    ended(at)
}

/// The same of a path, which begins with a slash.
fn bound_at<'a>(parts: &[Part], path: &'a [u8]) -> Option<PathParameter<'a>>
    ensures { option_map bound_of result
        ≡ places.bound_at (map part_of parts.now) path.entry.now }
{
    match path {
        [b'/', rest @ ..] => bound_by(parts, rest),
        _ => None,
    }
}

/// What a method asks for at a path, by this row, if it has both.
pub(crate) fn place_on<'a>(row: &Path, method: Method, path: &'a [u8]) -> Option<Place<'a>>
    ensures { option_map place_in result
        ≡ places.place_on (path_of row.now) method path.entry.now }
{
    if !is_method(row.0, method) {
        return None;
    }
    match bound_at(row.1, path) {
        Some(bound) => Some(Place {
            method: row.0,
            leads: row.2,
            bound,
        }),
        None => None,
    }
}

/// What a method asks for at a path, by the first of these rows that has both.
pub(crate) fn place_at<'a>(rows: &[Path], method: Method, path: &'a [u8]) -> Option<Place<'a>>
    ensures { option_map place_in result
        ≡ places.place_at (map path_of rows.now) method path.entry.now }
{
    for row in rows {
        if let Some(place) = place_on(row, method, path) {
            return Some(place);
        }
    }
    None
}

/// The method of this name.
pub(crate) fn method_named(name: &[u8]) -> Option<Method>
    ensures { result ≡ places.method_named name.now }
{
    if name == b"GET".as_slice() {
        Some(Method::Get)
    } else if name == b"POST".as_slice() {
        Some(Method::Post)
    } else {
        None
    }
}
