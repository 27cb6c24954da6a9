//! Completions for bash, made from the table of commands.

use desk_forms::kinds::Kind;
use desk_forms::table::{args_of, words};
use desk_forms::words::Word;
use std::io;

/// What stands before the words.
const FRONT: &str =
    "# What bash offers for desk_ask: \"desk_ask --bash\" prints it from the table of commands.
_desk_ask() {
    local roles='requestor cc admincc'
    local kinds='DependsOn MemberOf RefersTo DependedOnBy HasMember ReferredToBy'
    local word=${COMP_WORDS[COMP_CWORD]} at=1 place=0 options='' offers=() i
    COMPREPLY=()
    while [[ ${COMP_WORDS[at]} == --server || ${COMP_WORDS[at]} == --token-file ]]; do
        if ((COMP_CWORD == at + 1)); then
            [[ ${COMP_WORDS[at]} == --server ]] || mapfile -t COMPREPLY < <(compgen -f -- \"$word\")
            return
        fi
        ((COMP_CWORD > at)) || break
        at=$((at + 2))
        # bash takes the colon of a server for a word
        [[ ${COMP_WORDS[at]} != : ]] || at=$((at + 2))
    done
    if ((COMP_CWORD <= at)); then
        mapfile -t COMPREPLY < <(compgen -W '--server --token-file";

/// What stands between the words and what each is given.
const MIDDLE: &str = "' -- \"$word\")
        return
    fi
    case ${COMP_WORDS[at]} in";

/// What stands behind them.
const BACK: &str = "    esac
    for ((i = at + 1; i < COMP_CWORD; i++)); do
        case ${COMP_WORDS[i]} in
            --) ;;
            --*) i=$((i + 1)) ;;
            -*) ;;
            *) place=$((place + 1)) ;;
        esac
    done
    [[ $word == -* ]] || options=${offers[place]}
    mapfile -t COMPREPLY < <(compgen -W \"$options\" -- \"$word\")
}
complete -F _desk_ask desk_ask";

/// Prints the completions.
pub fn print_completions(rt: &HostRuntime) -> io::Result<()> {
    print!(rt; "{FRONT}")?;
    for row in words() {
        let word = row.0;
        print!(rt; " {word}")?;
    }
    println!(rt; "{MIDDLE}")?;
    for row in words() {
        print_row(rt, *row)?;
    }
    println!(rt; "{BACK}")
}

/// Prints what may follow a word.
fn print_row(rt: &HostRuntime, row: Word) -> io::Result<()> {
    let word = row.0;
    print!(rt; "        {word}) offers=(")?;
    for arg in args_of(row.1) {
        match arg.1 {
            Kind::Named | Kind::Flag(_) => {}
            Kind::Role => print!(rt; " \"$roles\"")?,
            Kind::Link => print!(rt; " \"$kinds\"")?,
            _ => print!(rt; " ''")?,
        }
    }
    print!(rt; " ) options='")?;
    for arg in args_of(row.1) {
        let key = arg.0;
        match arg.1 {
            Kind::Named => print!(rt; "--{key}")?,
            Kind::Flag(letter) => print!(rt; "-{letter}")?,
            _ => {}
        }
    }
    println!(rt; "' ;;")
}
