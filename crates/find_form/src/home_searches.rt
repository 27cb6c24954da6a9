//! The searches of the first page: what is open, by its due moment.

ghost use Rattle.std.specs.Prelude.{◌≡◌, IfOk, None, Some};
ghost use Rattle.find_form.specs.HomeSearches as spec;

use find_core::{Order, OwnerAsked, Search, StatusAsked};
use std::alloc::{AllocError, Global};
use text_core::{Text, Texts};

/// What is open and belongs to the person. `AllocError` where memory is refused.
pub fn owned_by(alloc: Global, person: &str) -> Result<Search, AllocError>
    ensures { IfOk result (λ search. search ≡ spec.owned_by person.now) }
{
    let owner = OwnerAsked::Person(Text::new(alloc, person)?);
    open_by_due(alloc, owner, None)
}

/// What is open and has the person as a requestor. `AllocError` where memory is refused.
pub fn asked_by(alloc: Global, person: &str) -> Result<Search, AllocError>
    ensures { IfOk result (λ search. search ≡ spec.asked_by person.now) }
{
    let requestor = Some(Text::new(alloc, person)?);
    open_by_due(alloc, OwnerAsked::Anyone, requestor)
}

/// What is open and has no owner. `AllocError` where memory is refused.
pub fn unowned(alloc: Global) -> Result<Search, AllocError>
    ensures { IfOk result (λ search. search ≡ spec.unowned) }
{
    open_by_due(alloc, OwnerAsked::Nobody, None)
}

fn open_by_due(
    alloc: Global,
    owner: OwnerAsked,
    requestor: Option<Text>,
) -> Result<Search, AllocError>
    ensures { IfOk result (λ search. search ≡ spec.open_by_due owner requestor) }
{
    Ok(Search {
        words: Texts::new(alloc, &[])?,
        in_replies: false,
        queue: None,
        status: StatusAsked::Open,
        owner,
        requestor,
        turn: None,
        late: false,
        filed_from: None,
        filed_to: None,
        order: Order::ByDue,
        descending: false,
    })
}
