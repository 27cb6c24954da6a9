//! The bytes of a reply with a page, of one that leads to another place, and of the style sheet.
//!
//! Each is its definition, byte for byte. The lines of the head let a page load nothing but the
//! desk's own styles, post to the desk alone, stand in no frame and in no cache.
#![tactic(auto)]

pub mod laws;
mod reply;
mod sheet;
mod way;

pub use reply::{CookieChange, Methods, PageReply, page_reply};
pub use sheet::sheet_reply;
pub use way::put_way;
