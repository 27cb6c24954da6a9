//! A token for a person.

use std::fs::File;
use std::io::{self, Read};
use text_core::is_name;

/// Where the system gives random bytes.
const SOURCE: &str = "/dev/urandom";

/// The exit status where the line was printed.
const DONE: u8 = 0;

/// The exit status where the system gives no bytes, or a write failed.
const FAILED: u8 = 4;

/// The person of the two words `--new-token PERSON`. None where they are other words, or PERSON is no
/// name.
pub fn person_of(words: &[String]) -> Option<&str> {
    match words {
        [option, person] if option.as_str() == "--new-token" && is_name(person.as_str()) => {
            Some(person.as_str())
        }
        _ => None,
    }
}

/// Prints a new token as a line of the table `[tokens]`, and answers the exit status. It has 128 bits
/// from the system's source, as 32 hexadecimal digits, and is kept nowhere.
pub fn run(rt: &HostRuntime, person: &str) -> u8 {
    let Ok(token) = token(rt) else {
        let _told = eprintln!(rt; "desk_load: the system gives no random bytes");
        return FAILED;
    };
    match println!(rt; "{token} = \"{person}\"") {
        Ok(()) => DONE,
        Err(_) => FAILED,
    }
}

/// The digits of a new token.
fn token(rt: &HostRuntime) -> io::Result<String> {
    let mut bits = [0u8; 16];
    File::open(rt, SOURCE)?.read_exact(&mut bits)?;
    Ok(hex::encode(rt.alloc(), bits)?)
}
