//! The form of a settings text as data, and the faults of form as walks of the text by it.
//!
//! The form is a table of places, keys and kinds. One walk finds unknown keys, missing keys and
//! wrong kinds: `form_fault` is the least of these faults, and `table_of` the tree of a text that
//! has the form.
#![tactic(auto)]

pub mod fault;
pub mod form;
pub mod grantee;
pub mod keys;
pub mod kinds;
pub mod text;
pub mod text_forms;
pub mod walk;
