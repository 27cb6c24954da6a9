//! The token, which is read from a file and is no word of a command line.

use crate::Ended;
use crate::input::all_of;
use crate::options::copied;
use std::env;
use std::fs::File;
use std::os::unix::fs::PermissionsExt;

/// More bytes than a token and a line feed have.
const MOST: usize = 256;

/// The bits of a file's mode by which others than its owner may read it.
const READ_BY_OTHERS: u32 = 0o044;

/// The token of the file that is named, or that of `DESK_TOKEN_FILE`, or else of
/// `~/.config/desk/token`. A line feed at its end is dropped. Where others may read the file, that is
/// told on the standard error.
pub fn read_token(rt: &HostRuntime, named: Option<&str>) -> Result<String, Ended> {
    let path = path_of(rt, named)?;
    let Ok(mut file) = File::open(rt, path.as_str()) else {
        return Err(Ended::NoToken);
    };
    warn(rt, &file);
    let bytes = match all_of(rt.alloc(), &mut file, MOST) {
        Ok(bytes) => bytes,
        Err(Ended::NoMemory) => return Err(Ended::NoMemory),
        Err(_) => return Err(Ended::NoToken),
    };
    match str::from_utf8(without_line_feed(bytes.as_slice())) {
        Ok(token) => copied(rt, token),
        Err(_) => Err(Ended::NoToken),
    }
}

fn path_of(rt: &HostRuntime, named: Option<&str>) -> Result<String, Ended> {
    if let Some(path) = named {
        return copied(rt, path);
    }
    if let Ok(path) = env::var(rt, "DESK_TOKEN_FILE") {
        return Ok(path);
    }
    let Ok(mut path) = env::var(rt, "HOME") else {
        return Err(Ended::NoToken);
    };
    match path.push_str("/.config/desk/token") {
        Ok(()) => Ok(path),
        Err(_) => Err(Ended::NoMemory),
    }
}

/// Warns where others may read the file. Whether that can be printed makes no difference.
fn warn(rt: &HostRuntime, file: &File) {
    if let Ok(about) = file.metadata() {
        if about.permissions().mode() & READ_BY_OTHERS != 0 {
            let _told = eprintln!(rt; "warning: others may read the file of the token");
        }
    }
}

fn without_line_feed(bytes: &[u8]) -> &[u8] {
    match bytes {
        [front @ .., b'\n'] => front,
        _ => bytes,
    }
}
