//! Reads, checks, rewrites, prints, links and runs GTIRB files for ARM64.
#![tactic(auto)]

mod help;

use gr_base::{RealDesk, Seq, Text};
use gt_front::{Answer, note_text, serve_words};
use help::asked_text;
use std::alloc::AllocError;
use std::env;
use std::io::ErrorKind;
use std::process::ExitCode;
use std::rt::Env;

/// The words behind the program's own name. Arguments that aren't text can't be words.
fn command_words(rt: &(impl Env + AllocGlobal)) -> Result<Seq<Text>, Answer> {
    match env::args(rt) {
        Ok(arguments) => texts(rt, arguments).map_err(|_| Answer::Memory),
        Err(error) if error.kind() == ErrorKind::OutOfMemory => Err(Answer::Memory),
        Err(_) => Err(Answer::Usage(0)),
    }
}

fn texts(rt: &impl AllocGlobal, arguments: env::Args) -> Result<Seq<Text>, AllocError> {
    let mut words = Seq::new(rt.alloc());
    for argument in arguments.skip(1) {
        words.push(Text::from_string(argument))?;
    }
    Ok(words)
}

/// The text that the only word asks for, if it does.
fn asked(words: &Seq<Text>) -> Option<&'static str> {
    match words.as_slice() {
        [word] => asked_text(word.as_str()),
        _ => None,
    }
}

/// Prints the line of an answer. Want of memory is told without asking for any, and a line that can't
/// be written changes nothing.
fn print_note(rt: &(impl Eprint + AllocGlobal), answer: &Answer) {
    let _ = match answer {
        Answer::Memory => rt.eprintln("memory"),
        _ => match note_text(rt.alloc(), answer) {
            Ok(note) => rt.eprintln(note.as_str()),
            Err(AllocError) => rt.eprintln("no memory for the note"),
        },
    };
}

/// Prints the line of an answer, and gives its status.
fn report(rt: &(impl Eprint + AllocGlobal), answer: &Answer) -> ExitCode {
    print_note(rt, answer);
    ExitCode::from(answer.status())
}

fn main(rt: HostRuntime) -> ExitCode {
    let words = match command_words(&rt) {
        Ok(words) => words,
        Err(answer) => return report(&rt, &answer),
    };
    if let Some(text) = asked(&words) {
        return match rt.print(text) {
            Ok(()) => ExitCode::from(0),
            Err(_) => report(&rt, &Answer::WriteFault),
        };
    }
    let mut desk = RealDesk::new(rt.alloc(), &rt);
    let answer = serve_words(rt.alloc(), &words, &mut desk);
    report(&rt, &answer)
}
