// The arguments of a program that reads lines: `--help`, and the files that it reads. Arguments are
// numbered from 1. No public function has a `requires`. What std promises of an argument is its length alone, so the
// functions of a runtime promise to be safe and to end; what they decide by is promised of the words.
#![tactic(auto)]

ghost use Rattle.std.specs.Prelude.{◌≡◌};
ghost use Rattle.text_source.specs.Words.{asks_help, is_standard};

use std::env::FillError;
use std::io::Read;
use std::rt::{Env, Files};
use std::{fs, io, str};

// What a program reads lines from: standard input, or a file.
#[derive(Drop)]
pub enum Source<I, F> {
    Standard(I),
    Named(F),
}

impl<I: Read, F: Read> Read for Source<I, F> {
    fn read(&mut self, buf: &mut [u8]) -> io::Result<usize> {
        match self {
            Source::Standard(input) => input.read(buf),
            Source::Named(file) => file.read(buf),
        }
    }
}

// How many arguments stand behind the program's name.
pub fn count(rt: &impl Env) -> usize {
    (1..usize::MAX).take_while(|i| is_there(rt, *i)).count()
}

fn is_there(rt: &impl Env, i: usize) -> bool {
    let mut name = [0u8; 1];
    !matches!(rt.arg(i, &mut name), Err(FillError::NotPresent))
}

// Whether argument `i` asks for help.
pub fn is_help(rt: &impl Env, i: usize) -> bool {
    let mut name = [0u8; 4096];
    match rt.arg(i, &mut name) {
        Ok(n) => asks_help(&name[..n]),
        Err(_) => false,
    }
}

// Whether a word asks for help.
fn asks_help(word: &[u8]) -> bool
    ensures { result ≡ asks_help word.now }
{
    word == b"--help".as_slice() || word == b"-h".as_slice()
}

// Whether a name stands for standard input.
fn is_standard(name: &[u8]) -> bool
    ensures { result ≡ is_standard name.now }
{
    name == b"-".as_slice()
}

// Opens the file that argument `i` names, `-` for standard input, or tells why it cannot be opened
// and answers none.
pub fn open<R: Env + Files + Input + Eprint + Alloc>(
    rt: &R,
    i: usize,
) -> Option<Source<R::Reader, R::File>> {
    let mut name = [0u8; 4096];
    match rt.arg(i, &mut name) {
        Ok(n) => open_bytes(rt, &name[..n]),
        Err(FillError::TooLong) => refused(rt, "File name too long"),
        Err(FillError::NotPresent) => refused(rt, "Invalid argument"),
    }
}

fn open_bytes<R: Files + Input + Eprint + Alloc>(
    rt: &R,
    name: &[u8],
) -> Option<Source<R::Reader, R::File>> {
    if is_standard(name) {
        return Some(Source::Standard(rt.reader()));
    }
    match str::from_utf8(name) {
        Ok(path) => open_named(rt, path),
        Err(_) => refused(rt, "it is not UTF-8"),
    }
}

fn refused<R: Files + Input + Eprint>(rt: &R, words: &str) -> Option<Source<R::Reader, R::File>> {
    let _ = eprintln!(rt; "the file's name: {words}");
    None
}

fn open_named<R: Files + Input + Eprint + Alloc>(
    rt: &R,
    name: &str,
) -> Option<Source<R::Reader, R::File>> {
    match fs::open(rt, name) {
        Ok(file) => Some(Source::Named(file)),
        Err(e) => {
            tell(rt, name, e);
            None
        }
    }
}

// What failed, and the system's words for it.
fn tell(rt: &(impl Eprint + Alloc), what: &str, e: io::Error) {
    let Ok(text) = e.to_string(rt.alloc()) else {
        let _ = eprintln!(rt; "{what}: {e}");
        return;
    };
    tell_words(rt, what, text.as_str());
}

// The words without the number of the error behind them.
fn tell_words(rt: &impl Eprint, what: &str, text: &str) {
    let end = text.find(" (os error ").unwrap_or(text.len());
    let words = text.get(..end).unwrap_or(text);
    let _ = eprintln!(rt; "{what}: {words}");
}
