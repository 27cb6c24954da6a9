//! Where the box in the head of each page leads.

ghost use Rattle.std.specs.Prelude.{◌≡◌, codes, IfOk};
ghost use Rattle.std.specs.Option.{option_and_then, option_map};
ghost use Rattle.browser_core.specs.Form as form;
ghost use Rattle.browser_core.specs.Texts as texts;
ghost use Rattle.page_routes.specs.Fronts as fronts;
ghost use Rattle.page_routes.specs.HeadBox as head_box;

use crate::fronts::behind;
use crate::page::Page;
use browser_core::{fields_of, text_in, trimmed, value_of};
use desk_forms::number_of_word;
use find_form::Start;
use std::alloc::{AllocError, Global};
use text_core::Text;

/// Where the box leads by the query of its address: to the request whose number was typed, with
/// blanks round it or a number sign in front, or else to the search for the words that were typed.
pub(crate) fn box_page(alloc: Global, query: &str) -> Result<Page, AllocError>
    ensures { IfOk result (λ page. page ≡ head_box.box_page query.now) }
{
    match number_sought(alloc, query)? {
        Some(id) => Ok(Page::Request(id)),
        None => Ok(Page::Find {
            query: words_query(alloc, query)?,
            start: Start::First,
        }),
    }
}

fn number_sought(alloc: Global, query: &str) -> Result<Option<u32>, AllocError>
    ensures { IfOk result (λ id. id ≡ head_box.number_sought (form.fields_of query.now)) }
{
    let Some(fields) = fields_of(alloc, query.as_bytes())? else {
        return Ok(None);
    };
    match value_of(fields.as_slice(), "q") {
        Some(typed) => Ok(number_typed(typed)),
        None => Ok(None),
    }
}

fn number_typed(typed: &str) -> Option<u32>
    ensures { result ≡ head_box.number_typed typed.now }
{
    match text_in(unmarked(trimmed(typed.as_bytes()))) {
        Some(word) => number_of_word(word),
        None => None,
    }
}

fn unmarked(bytes: &[u8]) -> &[u8]
    ensures { result.now ≡ head_box.unmarked bytes.now }
{
    match bytes {
        [b'#', behind @ ..] => behind,
        _ => bytes,
    }
}

/// The fields of the search for the words that were typed, which stay as the browser coded them.
fn words_query(alloc: Global, query: &str) -> Result<Text, AllocError>
    ensures { IfOk result (λ words. words ≡ head_box.words_query
        (option_and_then texts.text_in (fronts.behind (codes "q=") query.now))) }
{
    match coded_in(query) {
        Some(coded) => {
            let words = format!(in alloc; "words={coded}")?;
            Ok(Text::from(words))
        }
        None => Text::new(alloc, ""),
    }
}

fn coded_in(query: &str) -> Option<&str>
    ensures { option_map (λ c. c.now) result
        ≡ option_and_then texts.text_in (fronts.behind (codes "q=") query.now) }
{
    match behind("q=", query.as_bytes()) {
        Some(coded) => text_in(coded),
        None => None,
    }
}
