//! The program `desk`: a script from the standard input over a desk in memory, or one command or a
//! server over a file of tables.
#![tactic(auto)]

mod files;
mod server;
mod single;
mod tables;

use desk_program::{
    InputFault, Memory, one_command_of, run_script_counted, serving_of, tell_bad_words,
    tell_input_fault,
};
use std::process::ExitCode;
use std::{env, io};
use stream_core::{CountedReader, CountedWriter};
use tables::Job;

/// `desk script`, or `desk` alone, runs the script that stands in the standard input, and ends with
/// its status. `desk --db FILE --settings FILE serve --port N --count K` is a server, and
/// `desk --db FILE --settings FILE --caller PERSON --at MOMENT COMMAND ..` is one command. All else
/// is `bad words`; without memory for the words it is `input: read`.
fn main(rt: HostRuntime) -> ExitCode {
    let status = match words_of(&rt) {
        Ok(words) => run(&rt, words.as_slice()),
        Err(error) if error.kind() == io::ErrorKind::OutOfMemory => {
            tell_input_fault(
                InputFault::Read,
                &mut CountedWriter::new(&mut io::writer(&rt)),
            )
        }
        Err(_) => refuse(&rt),
    };
    ExitCode::from(status)
}

/// The words that the program was given.
fn words_of(rt: &HostRuntime) -> io::Result<Vec<String>> {
    let mut words = Vec::new(rt.alloc());
    for word in env::args(rt)?.skip(1) {
        words.push(word)?;
    }
    Ok(words)
}

fn run(rt: &HostRuntime, words: &[String]) -> u8 {
    if asks_for_script(words) {
        run_script(rt)
    } else {
        run_on_tables(rt, words)
    }
}

/// Runs the script that stands in the standard input.
fn run_script(rt: &HostRuntime) -> u8 {
    let (mut input, mut output) = (rt.reader(), io::writer(rt));
    let mut reader = CountedReader::new(&mut input);
    let mut writer = CountedWriter::new(&mut output);
    run_script_counted(rt.alloc(), &mut reader, &mut writer, Memory::Left)
}

/// Runs what has a file of tables: a server or one command. No words are both.
fn run_on_tables(rt: &HostRuntime, words: &[String]) -> u8 {
    if let Some(serving) = serving_of(words) {
        return tables::run(rt, Job::Serve(&serving));
    }
    match one_command_of(words) {
        Some(asked) => tables::run(rt, Job::Run(&asked)),
        None => refuse(rt),
    }
}

/// Prints that words aren't understood.
fn refuse(rt: &HostRuntime) -> u8 {
    tell_bad_words(&mut CountedWriter::new(&mut io::writer(rt)))
}

fn asks_for_script(words: &[String]) -> bool {
    match words {
        [] => true,
        [word] => word.as_str() == "script",
        _ => false,
    }
}
