// The answer, written to standard output.
ghost use Rattle.std.specs.Prelude.{OnOk};
ghost use Rattle.std.specs.Io.KnownBytes.{Appends};

use std::fs::OpenFile;
use std::io::{ErrorKind, Write};
use std::rt::Files;
use std::{fs, io};

// Some files tell only when they are stored that there is no room for what was written. What stores nothing, as a pipe or a terminal, has no more to tell.
fn store(files: &impl Files) -> io::Result<()> {
    let path = "/dev/fd/1";
    if !fs::metadata(files, path).is_ok_and(|found| found.is_file()) {
        return Ok(());
    }
    let Ok(file) = fs::open(files, path) else {
        return Ok(());
    };
    match file.sync_data() {
        Err(error) if error.kind() != ErrorKind::InvalidInput => Err(error),
        _ => Ok(()),
    }
}

// Writes a text, all of it, to standard output, here `out`.
pub fn show<F: Files, W: Write>(files: &F, out: &mut W, text: &[u8]) -> io::Result<()>
    ensures { OnOk result (Appends (W.contents out.old) (W.contents out.new) text.now) }
{
    out.write_all(text)?;
    store(files)
}
