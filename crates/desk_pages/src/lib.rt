//! The pages of a desk, for browsers: markup of the program, and people's texts in it.
//!
//! Each page is its definition, byte for byte, over the templates of `markup`. Its law says that each
//! text stands where it may, and of what alone its markup tells: how many rows there are, which are
//! due or late, and so on. Two pages of which that is the same have the same markup.
#![tactic(auto)]

mod ask;
mod change;
mod chips;
mod facts;
mod fault;
mod fields;
mod filed;
mod find;
mod frame;
mod half;
mod history;
mod home;
mod laws;
mod lists;
mod local;
mod markup;
mod moves;
mod new;
mod overtaken;
mod owner;
mod owners;
mod paging;
mod people;
mod pieces;
mod pills;
mod refusal;
mod refused;
mod request;
mod rights;
mod rows;
mod search;
mod sign_in;
mod sought;
mod unsent;
mod workload;
mod write;

pub use ask::Typed;
pub use fault::fault_page;
pub use filed::filed_page;
pub use find::{find_fault_page, find_page};
pub use frame::Place;
pub use half::replied_page;
pub use history::last_number;
pub use home::home_page;
pub use laws::{
    fault_page_law, filed_page_law, find_page_law, home_page_law, new_page_law, overtaken_page_law,
    refusal_page_law, request_page_law, sign_in_page_law, unsent_page_law, workload_page_law,
};
pub use new::new_page;
pub use overtaken::overtaken_page;
pub use refusal::{
    refusal_page, unsent_ask_page, unsent_change_page, unsent_comment_page, unsent_page,
    unsent_reply_page,
};
pub use request::request_page;
pub use sign_in::{kept_page, sign_in_page};
pub use unsent::Unsent;
pub use workload::workload_page;
