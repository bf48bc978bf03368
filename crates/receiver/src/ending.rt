// How the program ends, told to a caller that asks, and to a person where there is no answer.
use std::alloc::Global;
use std::fs::OpenOptions;
use std::io;
use std::io::{Error, ErrorKind, Write};
use std::process::ExitCode;
use std::rt::{Env, Files};

// What keeps the program from an answer, or from a whole one.
#[derive(Clone, Copy)]
pub enum Trouble {
    Unread(Error),
    Unwritten(Error),
}

// A byte to descriptor 3, by the name of what is open there.
fn tell(files: &impl Files, word: u8) -> io::Result<()> {
    let mut file = OpenOptions::new().append(true).open(files, "/dev/fd/3")?;
    file.write_all(&[word])
}

// How the program ended, for a caller that asks. One that asks and cannot be told knows by that.
pub fn report(rt: &(impl Env + Files), is_refused: bool) {
    let mut word = [0u8; 2];
    let Ok(1) = rt.arg(1, &mut word) else {
        return;
    };
    if word[0] == b'3' {
        let _ = tell(rt, if is_refused { b'1' } else { b'0' });
    }
}

// The system's words for an error, which end where its number begins.
fn before_number(text: &str) -> &str {
    text.split_once(" (os error ")
        .map_or(text, |(words, _)| words)
}

// What failed, and why. Without memory for the words alone they come with the number.
fn fail<W: Write>(alloc: Global, err: &mut W, what: &str, error: Error) -> io::Result<()> {
    match error.to_string(alloc) {
        Ok(text) => {
            let why = before_number(text.as_str());
            writeln!(err, "receiver: {what}: {why}")
        }
        Err(_) => writeln!(err, "receiver: {what}: {error}"),
    }
}

// What a shell calls the status of a program whose reader has gone.
const READER_GONE: u8 = 141;

// Says what went wrong. Where nobody reads the answer any more there is nobody to tell.
pub fn explain<W: Write>(alloc: Global, err: &mut W, trouble: Trouble) -> ExitCode {
    let _ = match trouble {
        Trouble::Unread(error) => fail(alloc, err, "the sheet could not be read", error),
        Trouble::Unwritten(error) if error.kind() == ErrorKind::BrokenPipe => {
            return ExitCode::from(READER_GONE);
        }
        Trouble::Unwritten(error) => fail(alloc, err, "the answer could not be written", error),
    };
    ExitCode::SUCCESS
}
