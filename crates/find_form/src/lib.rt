//! The form for a search: what the fields of an address ask for, and which of what was found a page
//! shows.
//!
//! - `form_of` reads the fields of an address; none where a field is unknown or stands twice.
//! - `search_of` is the search that they ask for, or the first fault of what was typed.
//! - `found_page` is what a page shows, and where the pages before and after it begin.
//! - `place_text` and `place_in` write and read a place in an address.
//! - `others_of` are the fields of an address beside some that are changed.
//! - `owned_by`, `asked_by` and `unowned` are the searches of the first page.
#![tactic(auto)]

mod address;
mod fault;
mod form;
mod home_searches;
mod query;
mod search_fields;
mod shown;
mod words;

pub use address::{place_in, place_text};
pub use fault::FindFault;
pub use form::{FindForm, empty_form, form_of};
pub use home_searches::{asked_by, owned_by, unowned};
pub use query::others_of;
pub use search_fields::search_of;
pub use shown::{FoundPage, PAGE_ROWS, Start, found_page};
pub use words::words_in;
