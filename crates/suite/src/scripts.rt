//! Cases of a script.

use crate::calls::run;
use crate::failure::Failure;
use case_text::{Case, str_of};
use std::alloc::Global;

/// Runs a script, and adds what it prints and its status.
pub(crate) fn run_case(alloc: Global, out: &mut String, case: &Case<'_>) -> Result<(), Failure> {
    let mut written = Vec::new(alloc);
    let status = run(alloc, case.part("script").unwrap_or(b""), &mut written);
    writeln!(out, "{}status {status}", str_of(written.as_slice()))?;
    Ok(())
}
