// A refusal in words. The answer's second line has its number and its line.
use hints::{Hint, Kind};
use std::io;
use std::io::Write;

// What is seen of the sheet as a whole, and whether that is all there is to say. An empty last line makes another line look faulty, so it is told alone.
fn whole_sheet<W: Write>(err: &mut W, seen: Option<Hint>) -> io::Result<bool> {
    let Some(Hint { kind, line }) = seen else {
        return Ok(false);
    };
    match kind {
        Kind::Empty => write!(err, "The sheet is empty.")?,
        Kind::Utf16 => write!(
            err,
            "The sheet is UTF-16, two bytes a character: save it as plain text."
        )?,
        Kind::ByteOrderMark => write!(
            err,
            "The sheet begins with a byte order mark: save it without one."
        )?,
        Kind::TooLong => write!(err, "The sheet has more than 16,384 bytes.")?,
        Kind::EmptyLine => write!(
            err,
            "Line {line}, the last, is empty: take it away, since it counts as a row."
        )?,
        _ => return Ok(false),
    }
    Ok(true)
}

// What is seen of a line.
fn one_line<W: Write>(err: &mut W, seen: Option<Hint>) -> io::Result<()> {
    let Some(Hint { kind, line }) = seen else {
        return Ok(());
    };
    match kind {
        Kind::CarriageReturn => write!(
            err,
            " Line {line} has a carriage return: save the sheet with line feeds alone (LF, not CR LF)."
        ),
        Kind::Tab => write!(
            err,
            " Line {line} has a tab: fields are parted by one space."
        ),
        Kind::LastSpace => write!(err, " Line {line} ends in a space: take it away."),
        Kind::NoLineFeed => write!(err, " Line {line}, the last, is not ended by a line feed."),
        _ => Ok(()),
    }
}

// The words for 1.
fn text_refused<W: Write>(err: &mut W, sheet: &[u8], line: &[u8]) -> io::Result<()> {
    let seen = hints::find(sheet);
    if !whole_sheet(err, seen)? {
        if line == b"0".as_slice() {
            write!(
                err,
                "The sheet has not from 3 to 514 rows after its header: 1 to 512 message rows and two tail rows."
            )?;
        } else {
            write!(err, "Line ")?;
            err.write_all(line)?;
            write!(
                err,
                " breaks the rules of a sheet (the header is line 1). A row has six fields, parted by one space, and is ended by a line feed."
            )?;
        }
        one_line(err, seen)?;
    }
    writeln!(err)
}

// The words for 6.
fn value_refused<W: Write>(err: &mut W, line: &[u8]) -> io::Result<()> {
    write!(err, "Line ")?;
    err.write_all(line)?;
    writeln!(
        err,
        " has the first value outside -1,023..1,023 (the header is line 1). Look at that row's values, and at how they are scaled."
    )
}

// The words for the refusal that is the answer to a sheet: 1, 6, or else 8.
pub fn refusal<W: Write>(err: &mut W, sheet: &[u8], answer: &[u8]) -> io::Result<()> {
    let Some(told) = answer.strip_prefix(b"refused line\n") else {
        return Ok(());
    };
    let mut words = told.split(|b| *b == b' ' || *b == b'\n');
    let (Some(number), Some(line)) = (words.next(), words.next()) else {
        return Ok(());
    };
    match number {
        b"1" => text_refused(err, sheet, line),
        b"6" => value_refused(err, line),
        _ => writeln!(
            err,
            "The column 'to' has not each message position exactly once. Look for a number twice, or one that is too large."
        ),
    }
}
