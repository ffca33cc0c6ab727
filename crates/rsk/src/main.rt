// The library from the command line: what the words ask for. The record stands at standard input; what is
// refused is told on standard error, in one line.
#![tactic(auto)]

mod tell;
mod work;

ghost use Rattle.std.specs.Prelude.{◌≤◌, length};

use commands::Command;
use std::env::{Env, FillError};
use std::io;
use work::{Repeating, Rewriting};

// Puts the word at a place at the buffer's start, and tells its length: 0 where there is none, and where it is longer
// than the buffer.
pub(crate) fn word_at(rt: &impl Env, place: usize, word: &mut [u8]) -> usize
    ensures { result ≤ length word.new }
{
    rt.arg(place, word).unwrap_or(0)
}

// Whether there is a word at a place.
fn has_word(rt: &impl Env, place: usize) -> bool {
    let mut word = [0u8; 1];
    !matches!(rt.arg(place, &mut word), Err(FillError::NotPresent))
}

// How many words there are, the program's own name among them.
fn word_count(rt: &impl Env) -> usize {
    (0..usize::MAX)
        .find(|place| !has_word(rt, *place))
        .unwrap_or(usize::MAX)
}

// The number that the word at a place is.
fn number_at(rt: &impl Env, place: usize) -> Option<u16> {
    let mut word = [0u8; 4096];
    let length = word_at(rt, place, &mut word);
    commands::number_of(&word[..length])
}

// How often the loop is run, and whether a file of start values is named.
fn repeated(rt: &HostRuntime, repeating: Repeating, named: bool) -> io::Result<()> {
    match number_at(rt, 2) {
        Some(iterations) => work::repeat(rt, repeating, iterations, named),
        None => tell::usage(rt),
    }
}

// A rotation takes its size.
fn rotated(rt: &HostRuntime) -> io::Result<()> {
    match number_at(rt, 2) {
        Some(size) => work::rewrite(rt, Rewriting::Rotate(size)),
        None => tell::usage(rt),
    }
}

// A search takes its count and its size.
fn searched(rt: &HostRuntime) -> io::Result<()> {
    match (number_at(rt, 2), number_at(rt, 3)) {
        (Some(count), Some(size)) => work::rewrite(rt, Rewriting::Search(count, size)),
        _ => tell::usage(rt),
    }
}

// A command with so many words, the program's own name and the command among them.
fn obeyed(rt: &HostRuntime, command: Command, count: usize) -> io::Result<()> {
    match (command, count) {
        (Command::Judge, 2) => work::judge(rt),
        (Command::Floor, 2) => work::floor(rt),
        (Command::Listing, 2) => work::list(rt),
        (Command::Table, 2) => work::table(rt),
        (Command::Help, 2) => tell::help(rt),
        (Command::Fit, 2) => work::rewrite(rt, Rewriting::Fit),
        (Command::First, 2) => work::rewrite(rt, Rewriting::First),
        (Command::Rotate, 3) => rotated(rt),
        (Command::Search, 4) => searched(rt),
        (Command::Run, 3 | 4) => repeated(rt, Repeating::Run, count == 4),
        (Command::Plain, 3 | 4) => repeated(rt, Repeating::Plain, count == 4),
        _ => tell::usage(rt),
    }
}

fn main(rt: HostRuntime) -> io::Result<()> {
    let mut word = [0u8; 4096];
    let length = word_at(&rt, 1, &mut word);
    match commands::command_of(&word[..length]) {
        Some(command) => obeyed(&rt, command, word_count(&rt)),
        None => tell::usage(&rt),
    }
}
