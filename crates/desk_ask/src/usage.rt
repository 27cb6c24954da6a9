//! Help, and what is wrong with words.

use desk_forms::kinds::Kind;
use desk_forms::table::{args_of, words as table};
use desk_forms::words::{Word, row_of};
use std::alloc::{AllocError, Global};
use std::io;

/// How the program is called.
const SYNOPSIS: &str = "Usage: desk_ask [--server HOST:PORT] [--token-file FILE] COMMAND ..";

/// What stands behind it in the help, before the commands.
const OPTIONS: &str = "
Asks the desk that is served there for a command, as the person of the token.

Options, before the command:
  --server HOST:PORT   The server; else DESK_SERVER, else 127.0.0.1:8080
  --server http://HOST[:PORT]
                       The same behind a proxy
  --token-file FILE    The file of the token; else DESK_TOKEN_FILE, else ~/.config/desk/token
  --bash               Print completions for bash, alone
  --help               Print help, alone
  --version            Print the version, alone

A subject, a reply or a comment that is - is read from the standard input. A word that begins with
another hyphen stands behind --.

Commands:";

/// Prints how the program is called, its options and its commands.
pub fn print_help(rt: &HostRuntime) -> io::Result<()> {
    println!(rt; "{SYNOPSIS}")?;
    println!(rt; "{OPTIONS}")?;
    for row in table() {
        let form = form_of(rt.alloc(), *row)?;
        println!(rt; "  {form}")?;
    }
    Ok(())
}

/// Tells on the standard error what is wrong with words that are no command.
pub fn tell_wrong(rt: &HostRuntime, words: &[String]) -> io::Result<()> {
    let Some(word) = words.first() else {
        return eprintln!(rt; "{SYNOPSIS}");
    };
    let word = word.as_str();
    match row_of(word) {
        Some(row) => {
            let form = form_of(rt.alloc(), row)?;
            eprintln!(rt; "Usage: desk_ask {form}")
        }
        None => eprintln!(rt; "no command is '{word}': desk_ask --help lists them"),
    }
}

/// The word of a command, and what is given with it.
fn form_of(alloc: Global, row: Word) -> Result<String, AllocError> {
    let mut form = String::from_str(alloc, row.0)?;
    for arg in args_of(row.1) {
        let key = arg.0;
        let part = match arg.1 {
            Kind::Named => format!(in alloc; " [--{key} {key}]")?,
            Kind::Flag(letter) => format!(in alloc; " [-{letter}]")?,
            Kind::Maybe => format!(in alloc; " [{key}]")?,
            Kind::Many => format!(in alloc; " [{key} ..]")?,
            _ => format!(in alloc; " {key}")?,
        };
        form.push_str(part.as_str())?;
    }
    Ok(form)
}
