//! The markup of the pages, as templates: HTML with holes, each written `{}`, in which texts stand
//! escaped, and with pieces in brackets that stand there or don't. What is put into holes, and which
//! pieces are shown, is said above each template, in its order.

pub(crate) mod ask;
pub(crate) mod change;
pub(crate) mod chips;
pub(crate) mod facts;
pub(crate) mod fault;
pub(crate) mod fields;
pub(crate) mod filed;
pub(crate) mod find;
pub(crate) mod frame;
pub(crate) mod history;
pub(crate) mod home;
pub(crate) mod lists;
pub(crate) mod moves;
pub(crate) mod new;
pub(crate) mod owner;
pub(crate) mod paging;
pub(crate) mod people;
pub(crate) mod pieces;
pub(crate) mod pills;
pub(crate) mod refused;
pub(crate) mod request;
pub(crate) mod rows;
pub(crate) mod search;
pub(crate) mod sign_in;
pub(crate) mod workload;
pub(crate) mod write;
