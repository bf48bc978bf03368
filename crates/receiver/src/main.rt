// The program: one sheet from standard input, its answer to standard output. Everything that matters is in `sheet::answer`.
//
// A read or a write that fails is told on standard error, and there is no answer, or no whole one. Once the whole answer is out, a refusal is explained on
// standard error; and a caller that gives the argument `3` is told on descriptor 3 how it ended, by one byte: `0` for a result, `1` for a refusal.
#![tactic(auto)]

ghost use Rattle.std.specs.Prelude.{◌==◌, ◌≡◌, ◌≤◌, length, slice_index, IfOk, IfSome, OnOk};
ghost use Rattle.std.specs.Io.KnownBytes.{Appends};
ghost use Rattle.sheet.specs.Sheet.{answer as answer_to};
ghost use Rattle.receiver.specs.Bytes.{refuses};

mod ending;
mod explain;
mod input;
mod output;

use ending::Trouble;
use std::io;
use std::io::{Read, Write};
use std::process::ExitCode;
use std::rt::Files;

// Room for N bytes.
fn room<const N: usize>() -> [u8; N]
    ensures { N ≡ length result }
{
    [0; N]
}

// Writes the answer, which has at least one byte, and explains it where it is a refusal, which the answer says.
fn finish<F: Files, W: Write, E: Write>(
    files: &F,
    out: &mut W,
    err: &mut E,
    sheet: &[u8],
    answer: &[u8],
) -> io::Result<bool>
    requires { 1 ≤ length answer.now }
    ensures bytes { OnOk result (Appends (W.contents out.old) (W.contents out.new) answer.now) }
    ensures refused { IfOk result (λ is_refused. is_refused ≡ (slice_index answer.now 0 == 114)) }
{
    output::show(files, out, answer)?;
    let is_refused = answer[0] == b'r';
    if is_refused {
        let _ = explain::refusal(err, sheet, answer);
    }
    Ok(is_refused)
}

// Reads a sheet to its end and writes its answer, and says whether that is a refusal. Where the bytes of both are known, the whole answer to the whole sheet
// is out.
fn serve<F: Files, R: Read, W: Write, E: Write>(
    files: &F,
    source: &mut R,
    out: &mut W,
    err: &mut E,
) -> Result<bool, Trouble>
    ensures bytes { OnOk result (IfSome (R.remaining source.old) (λ sheet.
        Appends (W.contents out.old) (W.contents out.new) (answer_to sheet))) }
    ensures refused { IfOk result (λ is_refused. IfSome (R.remaining source.old) (λ sheet. is_refused ≡ refuses sheet)) }
{
    // A sheet and one byte more, which tells that it is too long.
    let mut sheet = room::<16385>();
    let count = input::read_sheet(source, &mut sheet).map_err(Trouble::Unread)?;
    // Every answer.
    let mut answer = room::<24600>();
    let written = sheet::answer(&sheet[..count], &mut answer);
    finish(files, out, err, &sheet[..count], &answer[..written]).map_err(Trouble::Unwritten)
}

fn main(rt: HostRuntime) -> ExitCode {
    let mut err = rt.stderr();
    match serve(&rt, &mut rt.stdin(), &mut rt.stdout(), &mut err) {
        Ok(is_refused) => {
            ending::report(&rt, is_refused);
            ExitCode::SUCCESS
        }
        Err(trouble) => ending::explain(rt.alloc(), &mut err, trouble),
    }
}
