//! The files of cases, each tried and told.
//!
//! What is read lies in the folder where the program runs: the texts that cases name in `texts/`,
//! and the cases of each kind in a folder of its name. Where the folder `data` is there, as in a
//! crate's own folder, the texts are those in `data/texts/`.

use crate::case::{Case, str_of};
use crate::compared::difference;
use crate::expansion::Named;
use crate::fault::CaseFault;
use std::env::Env;
use std::fmt::Display;
use std::io::Read;
use std::rt::Files;
use std::{env, fs, io};

/// The folder of the texts that cases name.
const TEXTS: &str = "texts/";

/// What comes of cases.
pub trait Answers<R> {
    /// Why a case ends.
    type Failure: Display + Drop;

    /// Adds what comes of a case.
    fn answer(&self, rt: &R, out: &mut String, case: &Case<'_>) -> Result<(), Self::Failure>;
}

/// Tries the cases of these kinds, in the order of their names, or the files that the program's
/// words name; tells whether all is as it is wanted. A line tells of each case that it is `ok`, or
/// where it first differs. The word `-` writes what comes of the case that stands in the standard
/// input.
pub fn try_cases<R: Clone + Files + Env + Input + Print + AllocGlobal, A: Answers<R>>(
    rt: &R,
    kinds: &[&str],
    answers: &A,
) -> Result<bool, CaseFault> {
    let words = words_of(rt)?;
    let named = texts_of(rt)?;
    match words.as_slice() {
        [] => try_kinds(rt, named.as_slice(), kinds, answers),
        [word] if word.as_str() == "-" => answer_input(rt, named.as_slice(), answers),
        words => try_each(rt, named.as_slice(), words, answers),
    }
}

/// The words that the program was given.
fn words_of<R: Env + AllocGlobal>(rt: &R) -> io::Result<Vec<String>> {
    let mut words = Vec::new(rt.alloc());
    for word in env::args(rt)?.skip(1) {
        words.push(word)?;
    }
    Ok(words)
}

/// The texts that cases name, from the folder `texts`, or `data/texts` where that is there.
fn texts_of<R: Clone + Files + AllocGlobal>(rt: &R) -> Result<Vec<Named>, CaseFault> {
    let mut texts = Vec::new(rt.alloc());
    let files = match files_in(rt, "data/texts") {
        Ok(files) => files,
        Err(_) => files_in(rt, "texts").unwrap_or(Vec::new(rt.alloc())),
    };
    for file in files {
        let text = fs::read_to_string(rt, file.as_str())?;
        texts.push(Named { file, text })?;
    }
    Ok(texts)
}

/// The files of a folder, in the order of their names.
fn files_in<R: Clone + Files + AllocGlobal>(rt: &R, folder: &str) -> io::Result<Vec<String>> {
    let mut files = Vec::new(rt.alloc());
    for entry in fs::read_dir(rt, folder)? {
        let entry = entry?;
        files.push(format!(in rt.alloc(); "{folder}/{}", entry.file_name())?)?;
    }
    files.sort()?;
    Ok(files)
}

fn try_kinds<R: Clone + Files + Print + AllocGlobal, A: Answers<R>>(
    rt: &R,
    named: &[Named],
    kinds: &[&str],
    answers: &A,
) -> Result<bool, CaseFault> {
    let mut all = true;
    for kind in kinds {
        let files = files_in(rt, kind)?;
        all = try_each(rt, named, files.as_slice(), answers)? && all;
    }
    Ok(all)
}

fn try_each<R: Files + Print + AllocGlobal, A: Answers<R>>(
    rt: &R,
    named: &[Named],
    files: &[String],
    answers: &A,
) -> Result<bool, CaseFault> {
    let mut all = true;
    for file in files {
        let label = file.as_str().strip_prefix("data/").unwrap_or(file.as_str());
        if !label.starts_with(TEXTS) {
            let text = fs::read_to_string(rt, file.as_str())?;
            all = try_case(rt, named, label, text.as_str(), answers)? && all;
        }
    }
    Ok(all)
}

/// Tries the case that the text states, and tells what comes of it.
fn try_case<R: Print + AllocGlobal, A: Answers<R>>(
    rt: &R,
    named: &[Named],
    label: &str,
    text: &str,
    answers: &A,
) -> Result<bool, CaseFault> {
    let case = Case::read(rt.alloc(), named, text)?;
    let mut told = String::new(rt.alloc());
    if let Err(failure) = answers.answer(rt, &mut told, &case) {
        println!(rt; "{label}: ended, since {failure}")?;
        return Ok(false);
    }
    match difference(rt.alloc(), &case, told.as_str())? {
        None => {
            println!(rt; "{label} ok")?;
            Ok(true)
        }
        Some(difference) => {
            println!(rt; "{label}: {}", difference.as_str())?;
            Ok(false)
        }
    }
}

/// Writes what comes of the case that stands in the standard input.
fn answer_input<R: Input + Print + AllocGlobal, A: Answers<R>>(
    rt: &R,
    named: &[Named],
    answers: &A,
) -> Result<bool, CaseFault> {
    let mut input = Vec::new(rt.alloc());
    rt.reader().read_to_end(&mut input)?;
    let case = Case::read(rt.alloc(), named, str_of(input.as_slice()))?;
    let mut told = String::new(rt.alloc());
    let ended = answers.answer(rt, &mut told, &case);
    print!(rt; "{}", told.as_str())?;
    match ended {
        Ok(()) => Ok(true),
        Err(failure) => {
            println!(rt; "ended, since {failure}")?;
            Ok(false)
        }
    }
}
