//! What browsers send beside a path: a cookie, the fields of a form, and from where a post comes.
//!
//! - `cookie_named` is the text of the one cookie of a name, of all `Cookie` lines; `cookie_name` is
//!   the name of that which says who is signed in.
//! - `fields_of` are the fields of a form, or none where the body isn't that of a form; `has_fields`
//!   tells whether they are those of a form, each once.
//! - `is_own_post` tells whether a post comes from a page of the desk's own.
//! - `trimmed` leaves out the spaces and tabs round bytes, `cut` cuts them at a stop, and `text_in` is
//!   the text that they are.
#![tactic(auto)]

mod cookie;
mod cuts;
mod decode;
mod form;
mod known;
mod site;
mod texts;
mod trim;

pub use cookie::{cookie_name, cookie_named};
pub use cuts::cut;
pub use form::{Field, fields_of, has, has_fields, value_of};
pub use site::is_own_post;
pub use texts::text_in;
pub use trim::trimmed;
