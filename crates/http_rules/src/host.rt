//! The host that a message names.
ghost use Rattle.std.specs.Prelude.{◌≡◌, [], IfOk, map};
ghost use Rattle.std.specs.List.{list_all};
ghost use Rattle.httparse.specs.Grammar.{RequestHead};
ghost use Rattle.message_core.specs.Head.{StartsWith};
ghost use Rattle.http_rules.specs.Host as form;

use crate::head::minor_of;
use message_core::header_values;
use std::alloc::{AllocError, Global};

/// What a host and its port may have beside letters and digits.
const MARKS: &[u8] = b"-._~!$&'()*+,;=:[]%";

/// Whether a head names its host.
pub(crate) fn has_host(alloc: Global, head: &[u8]) -> Result<bool, AllocError>
    ensures { (h : RequestHead) → StartsWith head.now h []
        → IfOk result (λ has. has ≡ form.has_host h) }
{
    let hosts = header_values(alloc, head, "Host")?;
    Ok(name_host(minor_of(head), hosts.as_slice()))
}

/// Whether the values of all lines `Host` name one: it is one value, or none before HTTP/1.1.
fn name_host(minor: u8, hosts: &[&[u8]]) -> bool
    ensures { result ≡ form.name_host minor (map (λ v. v.now) hosts.now) }
{
    if hosts.is_empty() {
        minor == 0
    } else {
        hosts.len() == 1 && is_host(hosts[0])
    }
}

/// Whether the bytes are a host, with its port or without.
fn is_host(value: &[u8]) -> bool
    ensures { result ≡ list_all form.is_host_byte value.now }
{
    for byte in value {
        if !is_host_byte(*byte) {
            return false;
        }
    }
    true
}

fn is_host_byte(byte: u8) -> bool
    ensures { result ≡ form.is_host_byte byte }
{
    byte.is_ascii_alphanumeric() || MARKS.contains(&byte)
}
