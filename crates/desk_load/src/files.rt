//! The files that the program's words name.
use desk_program::{InputFault, take_settings};
use std::fs::File;

/// The bytes of a settings file.
pub fn read_settings(rt: &HostRuntime, path: &str) -> Result<Vec<u8>, InputFault> {
    match File::open(rt, path) {
        Ok(mut file) => take_settings(rt.alloc(), &mut file),
        Err(_) => Err(InputFault::Read),
    }
}
