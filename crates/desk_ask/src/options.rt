//! The words before a command, and what stands in their place.

use crate::Ended;
use std::env::{self, VarError};

/// What the program was asked.
#[derive(Clone, Copy)]
pub struct Asked<'w> {
    /// The server, as HOST:PORT.
    pub server: Option<&'w str>,
    /// The file of the token.
    pub token_file: Option<&'w str>,
    /// The words of the command.
    pub words: &'w [String],
}

/// The two options in any order, each once at most, and the words after them.
pub fn asked_of(words: &[String]) -> Asked<'_> {
    let mut asked = Asked {
        server: None,
        token_file: None,
        words,
    };
    for _option in 0..2u8 {
        asked = after_option(asked);
    }
    asked
}

/// Behind one more option, if one comes next.
fn after_option<'w>(asked: Asked<'w>) -> Asked<'w> {
    if asked.server.is_none() {
        if let Some((value, words)) = first_option(asked.words, "--server") {
            return Asked {
                server: Some(value),
                words,
                ..asked
            };
        }
    }
    if asked.token_file.is_none() {
        if let Some((value, words)) = first_option(asked.words, "--token-file") {
            return Asked {
                token_file: Some(value),
                words,
                ..asked
            };
        }
    }
    asked
}

/// The value of the option that stands first, if it has this name, and the words behind it: two words,
/// or one with `=` between.
fn first_option<'w>(words: &'w [String], name: &str) -> Option<(&'w str, &'w [String])> {
    let [first, rest @ ..] = words else {
        return None;
    };
    let behind = first.as_str().strip_prefix(name)?;
    match rest {
        [value, rest @ ..] if behind.is_empty() => Some((value.as_str(), rest)),
        _ => Some((behind.strip_prefix("=")?, rest)),
    }
}

/// A server.
#[derive(Drop)]
pub struct Server {
    /// Its name, with a port or without, as a message has it.
    pub name: String,
    /// The same with a port.
    pub address: String,
    /// Whether a proxy may stand before it.
    pub may_be_proxied: bool,
}

/// The server that is named, or that of `DESK_SERVER`, or else the one on this machine.
/// Behind `http://` a proxy may stand before it, a port of 80 needn't be told, and a slash may follow.
pub fn server_of(rt: &HostRuntime, named: Option<&str>) -> Result<Server, Ended> {
    let told = match named {
        Some(name) => copied(rt, name)?,
        None => variable_or(rt, "DESK_SERVER", "127.0.0.1:8080")?,
    };
    match told.as_str().strip_prefix("http://") {
        Some(rest) => {
            let name = rest.strip_suffix("/").unwrap_or(rest);
            Ok(Server {
                name: copied(rt, name)?,
                address: with_port(rt, name)?,
                may_be_proxied: true,
            })
        }
        None if told.as_str().starts_with("https://") => Err(Ended::NoTls),
        None => Ok(Server {
            name: copied(rt, told.as_str())?,
            address: told,
            may_be_proxied: false,
        }),
    }
}

/// A host with its port, which is 80 where none is told.
fn with_port(rt: &HostRuntime, name: &str) -> Result<String, Ended> {
    let mut address = copied(rt, name)?;
    let host = name.rsplit_once(']').map_or(name, |parts| parts.1);
    if !host.contains(':') && address.push_str(":80").is_err() {
        return Err(Ended::NoMemory);
    }
    Ok(address)
}

/// The value of a variable, or this text where it has none.
fn variable_or(rt: &HostRuntime, name: &str, text: &str) -> Result<String, Ended> {
    match env::var(rt, name) {
        Ok(value) => Ok(value),
        Err(VarError::NotPresent) => copied(rt, text),
        Err(VarError::NotUnicode) => Err(Ended::NoName),
        Err(VarError::OutOfMemory) => Err(Ended::NoMemory),
    }
}

pub fn copied(rt: &HostRuntime, text: &str) -> Result<String, Ended> {
    match String::from_str(rt.alloc(), text) {
        Ok(copy) => Ok(copy),
        Err(_) => Err(Ended::NoMemory),
    }
}
