//! What a browser's message asks of the pages.
//!
//! - `visit_of` gives what is asked, or the first fault of `NoRoute`, `BadMethod`, `OtherSite` and
//!   `BadBody`. `NoMemory` may come in place of any answer.
//! - `is_page_place` tells which targets are places of the pages; all others are the interface's.
//! - `page_path` and `form_path` are the paths to which an answer leads: numbers and names, and of a
//!   search what was typed for it. `laws`: wherever a browser is led, the path is
//!   one line, and of this site.
#![tactic(auto)]

mod ask;
mod fault;
mod filled;
mod fronts;
mod head_box;
pub mod laws;
mod lines;
mod next;
mod page;
mod place;
mod sign;
mod visit;

pub use fault::PageFault;
pub use lines::caller_of;
pub use next::{Next, SubmittedForm, form_path};
pub use page::{Page, page_path};
pub use place::{Place, is_page_place};
pub use visit::{PageRequest, is_wrong_token, visit_of};
