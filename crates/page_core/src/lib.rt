//! Pages: markup of the program, and texts of people's in it.
//!
//! A page is filled templates, one after the other. A template is a literal of the program: markup
//! with holes, in which texts stand escaped, and with pieces that are shown or not. By
//! `no_injection_law` the markup that is read in a page is that of the page with every text empty. It
//! holds of each list of parts whose texts stand in text or in a value between double quotes, and by
//! `template_law` of each template of which that holds, whatever fills it.
//!
//! Markup is read by a machine of twelve states, over tags whose attributes have no value, or one
//! between double quotes. Anything else is lost for good, and is no page. So are elements and
//! attributes of scripts and styles, and an address that isn't one of the desk's own. That a browser
//! reads such markup so is a premise.
#![tactic(auto)]

mod escape;
mod laws;
mod template;
mod values;

pub use laws::{escape_law, no_injection_law, template_law};
pub use template::fill;
pub use values::Value;
