//! Help and versions of the programs, and what is wrong with their words.

use crate::RELEASE;
use std::io;

/// Prints what one word alone asks for, if it does: the help of a program, or its version.
pub fn print_alone(
    rt: &HostRuntime,
    program: &str,
    help: &str,
    words: &[String],
) -> Option<io::Result<()>> {
    let [word] = words else {
        return None;
    };
    match word.as_str() {
        "--help" | "-h" => Some(println!(rt; "{help}")),
        "--version" | "-V" => Some(println!(rt; "{program} {RELEASE}")),
        _ => None,
    }
}

/// Tells on the standard error which word is the first that is no option of these names, if one is
/// none, and where help is.
pub fn tell_wrong(
    rt: &HostRuntime,
    program: &str,
    options: &[&str],
    words: &[String],
) -> io::Result<()> {
    for word in words {
        let word = word.as_str();
        if is_unknown(options, word) {
            eprintln!(rt; "no option is '{word}'")?;
            break;
        }
    }
    eprintln!(rt; "{program} --help tells the words")
}

/// Whether a word begins as an option does, and none has its name.
fn is_unknown(options: &[&str], word: &str) -> bool {
    let Some(option) = word.strip_prefix("--") else {
        return false;
    };
    let name = match option.split_once('=') {
        Some((name, _)) => name,
        None => option,
    };
    !options.iter().any(|known| *known == name)
}
