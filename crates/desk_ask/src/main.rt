//! The program `desk_ask`: one command of a served desk.
#![tactic(auto)]

mod asking;
mod completions;
mod input;
mod options;
mod proxied;
mod token;
mod usage;

use asking::ask;
use client_core::{AskFault, message_bytes};
use completions::print_completions;
use desk_model::Command;
use desk_words::{WordsFault, command_of_words};
use input::with_input;
use options::{Asked, asked_of, server_of};
use release::RELEASE;
use std::process::ExitCode;
use std::{env, io};
use token::read_token;
use usage::{print_help, tell_wrong};

/// How the program ended, but for an answer of a desk.
#[derive(Clone, Copy)]
pub enum Ended {
    /// The words spell no command.
    BadWords,
    /// The name of the server is none.
    NoName,
    /// The server wants TLS, which isn't spoken here.
    NoTls,
    /// There is no token, or what the file has is none.
    NoToken,
    /// The message would be too long.
    TooLong,
    /// The standard input can't be read, or is no text.
    NoInput,
    /// Nothing answers at that address.
    NoServer,
    /// The reply ends before its end.
    NoReply,
    /// What answers is no desk.
    NoDesk,
    /// Memory was refused.
    NoMemory,
}

/// `desk_ask [--server HOST:PORT] [--token-file FILE] COMMAND ..` asks the desk of that server for a
/// command, prints its text, and ends with 0 where it is done, 1 where it is refused, 2 for other
/// words, and 4 where there is no whole reply of a desk, or one with the code 503. `desk_ask --bash`
/// prints completions for bash, and `--help` and `--version` tell of it.
fn main(rt: HostRuntime) -> ExitCode {
    match words_of(&rt) {
        Ok(words) => ExitCode::from(run(&rt, words.as_slice())),
        Err(_) => ExitCode::from(tell(&rt, Ended::NoMemory)),
    }
}

/// The words that the program was given.
fn words_of(rt: &HostRuntime) -> io::Result<Vec<String>> {
    let mut words = Vec::new(rt.alloc());
    for word in env::args(rt)?.skip(1) {
        words.push(word)?;
    }
    Ok(words)
}

fn run(rt: &HostRuntime, words: &[String]) -> u8 {
    if let Some(printed) = print_alone(rt, words) {
        return match printed {
            Ok(()) => 0,
            Err(_) => 4,
        };
    }
    let asked = asked_of(words);
    match answered(rt, &asked) {
        Ok(status) => status,
        Err(ended) => {
            let status = tell(rt, ended);
            if matches!(ended, Ended::BadWords) {
                let _told = tell_wrong(rt, asked.words);
            }
            status
        }
    }
}

/// Prints what one word alone asks for, if it does: no server is asked.
fn print_alone(rt: &HostRuntime, words: &[String]) -> Option<io::Result<()>> {
    let [word] = words else {
        return None;
    };
    match word.as_str() {
        "--bash" => Some(print_completions(rt)),
        "--help" | "-h" => Some(print_help(rt)),
        "--version" | "-V" => Some(println!(rt; "desk_ask {RELEASE}")),
        _ => None,
    }
}

/// Asks for the command, and prints what is told.
fn answered(rt: &HostRuntime, asked: &Asked<'_>) -> Result<u8, Ended> {
    let command = command_in(rt, asked.words)?;
    let server = server_of(rt, asked.server)?;
    let token = read_token(rt, asked.token_file)?;
    let message = message_of(rt, server.name.as_str(), token.as_str(), &command)?;
    ask(rt, &server, message.as_slice())
}

/// The command of the words, with the standard input in place of a text that is `-`.
fn command_in(rt: &HostRuntime, words: &[String]) -> Result<Command, Ended> {
    match command_of_words(rt.alloc(), words) {
        Ok(command) => with_input(rt, command),
        Err(WordsFault::NoMemory) => Err(Ended::NoMemory),
        Err(_) => Err(Ended::BadWords),
    }
}

fn message_of(
    rt: &HostRuntime,
    server: &str,
    token: &str,
    command: &Command,
) -> Result<Vec<u8>, Ended> {
    match message_bytes(rt.alloc(), server, token, command) {
        Ok(message) => Ok(message),
        Err(AskFault::BadHost) => Err(Ended::NoName),
        Err(AskFault::BadToken) => Err(Ended::NoToken),
        Err(AskFault::TooLong) => Err(Ended::TooLong),
        Err(AskFault::NoMemory) => Err(Ended::NoMemory),
    }
}

/// Tells on the standard error how the program ended, and gives the exit status of that.
fn tell(rt: &HostRuntime, ended: Ended) -> u8 {
    let (text, status) = match ended {
        Ended::BadWords => ("bad words", 2),
        Ended::NoName => ("bad server", 2),
        Ended::NoTls => ("no TLS here: go through a tunnel, or to a proxy without", 2),
        Ended::NoToken => ("no token", 2),
        Ended::TooLong => ("too long for a message", 2),
        Ended::NoInput => ("input: read", 2),
        Ended::NoServer => ("no server", 4),
        Ended::NoReply => ("no whole reply", 4),
        Ended::NoDesk => ("no desk there", 4),
        Ended::NoMemory => ("out of memory", 4),
    };
    let _told = eprintln!(rt; "{text}");
    status
}
