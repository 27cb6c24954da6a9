//! The router: where in the table a path is looked for first.

ghost use Rattle.std.specs.Prelude.{◌≡◌, Some, map};
ghost use Rattle.std.specs.Option.{option_map};
ghost use Rattle.route_core.specs.Commands as commands;
ghost use Rattle.route_core.specs.Places.{place_in};

use crate::cuts::text_in;
use crate::places::{Place, place_on};
use desk_forms::paths::{Method, Part};
use desk_forms::table::paths;
use matchit::{InsertError, Router};
use std::alloc::{AllocError, Global};

/// A router over the paths of the table, for a server or for a list of messages. It only tells
/// where to look first: the row that it finds is laid against the path, and where that doesn't fit,
/// or it finds none, all rows are.
#[derive(Drop)]
pub struct Routes {
    gets: Router<usize>,
    posts: Router<usize>,
}

impl Routes {
    /// The router of all rows, each with its place in the table. `AllocError` is the only fault: a
    /// row that the router doesn't take is found without it.
    pub fn new(alloc: Global) -> Result<Routes, AllocError> {
        let mut gets = Router::new(alloc);
        let mut posts = Router::new(alloc);
        let rows = paths();
        for place in 0..rows.len() {
            let row = rows[place];
            let text = text_of(alloc, row.1)?;
            match row.0 {
                Method::Get => add(&mut gets, text.as_str(), place)?,
                Method::Post => add(&mut posts, text.as_str(), place)?,
            }
        }
        Ok(Routes { gets, posts })
    }

    /// The place in the table of a row with this method and a path like this one, if one is found.
    fn row_of(&self, method: Method, path: &str) -> Option<usize> {
        let found = match method {
            Method::Get => self.gets.at(path),
            Method::Post => self.posts.at(path),
        };
        match found {
            Ok(found) => Some(*found.value),
            Err(_) => None,
        }
    }
}

fn add(router: &mut Router<usize>, path: &str, place: usize) -> Result<(), AllocError> {
    match router.insert(path, place) {
        Err(InsertError::OutOfMemory) => Err(AllocError),
        _ => Ok(()),
    }
}

/// The parts of a path, as the router reads them.
fn text_of(alloc: Global, parts: &[Part]) -> Result<String, AllocError> {
    let mut text = String::new(alloc);
    for part in parts {
        text.push_str("/")?;
        match part {
            Part::Lit(name) => text.push_str(name)?,
            Part::Queue => text.push_str("{queue}")?,
            Part::Id => text.push_str("{id}")?,
        }
    }
    Ok(text)
}

/// What a method asks for at a path, by the row that the router finds, if that fits.
pub(crate) fn place_routed<'a>(routes: &Routes, method: Method, path: &'a [u8]) -> Option<Place<'a>>
    ensures { (place : _) → option_map place_in result ≡ Some place
        → commands.asked_at method path.entry.now ≡ Some place }
{
    let text = text_in(path)?;
    let place = routes.row_of(method, text)?;
    place_on_row(place, method, path)
}

/// What a method asks for at a path by the row at this place of the table, if that has both.
fn place_on_row<'a>(place: usize, method: Method, path: &'a [u8]) -> Option<Place<'a>>
    ensures { (found : _) → option_map place_in result ≡ Some found
        → commands.asked_at method path.entry.now ≡ Some found }
{
    let rows = paths();
    if place < rows.len() {
        place_on(&rows[place], method, path)
    } else {
        None
    }
}
