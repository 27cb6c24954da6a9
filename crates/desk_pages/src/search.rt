//! The form for a search, with what was typed.
ghost use Rattle.std.specs.Prelude.{◌≡◌, ◌++◌, ◌∷◌, OnOk};
ghost use Rattle.find_form.specs.SearchFields.{is_ticked};
ghost use Rattle.page_core.specs.Page.{page_bytes};
ghost use Rattle.desk_pages.specs.Search as form;

use crate::markup::search::SEARCH;
use find_form::FindForm;
use page_core::{Value, fill};
use std::alloc::AllocError;

/// Puts the form, unfolded or not.
#[tactic(auto, unfolding(crate::specs::Search::search_form))]
pub(crate) fn put_search_form(
    out: &mut Vec<u8>,
    unfolded: bool,
    typed: &FindForm,
) -> Result<(), AllocError>
    ensures { OnOk result (out.new.items
        ≡ out.old.items ++ page_bytes (form.search_form unfolded typed.now)) }
{
    let values = [
        Value::Text(typed.words.as_str()),
        Value::Text(typed.queue.as_str()),
        Value::Text(typed.status.as_str()),
        Value::Text(typed.owner.as_str()),
        Value::Text(typed.requestor.as_str()),
        Value::Text(typed.from.as_str()),
        Value::Text(typed.to.as_str()),
    ];
    fill(out, SEARCH, &values, &shown_in(unfolded, typed))
}

/// What is shown of it: whether it is unfolded, and what is ticked and chosen.
fn shown_in(unfolded: bool, typed: &FindForm) -> [bool; 15]
    ensures { result ≡ unfolded ∷ form.chosen_in typed.now }
{
    let state = typed.state.as_str();
    let turn = typed.turn.as_str();
    let order = typed.order.as_str();
    [
        unfolded,
        is_ticked(typed.replies.as_str()),
        state.is_empty(),
        state == "open",
        state == "closed",
        turn.is_empty(),
        turn == "desk",
        turn == "requestor",
        is_ticked(typed.late.as_str()),
        is_newest(order),
        order == "oldest",
        order == "due",
        order == "due-last",
        order == "active",
        order == "quiet",
    ]
}

/// What is offered first is chosen where nothing was typed.
fn is_newest(order: &str) -> bool
    ensures { result ≡ form.is_newest order.now }
{
    order.is_empty() || order == "newest"
}

fn is_ticked(text: &str) -> bool
    ensures { result ≡ is_ticked text.now }
{
    text == "yes"
}
