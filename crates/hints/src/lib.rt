// What is easy to see of a sheet's text, for the words beside a refusal by 1. It decides nothing: `sheet::answer` does.
#![tactic(auto)]

ghost use Rattle.std.specs.Prelude.{true, None, ◌&&◌, ◌≡◌, ◌+◌, ◌<◌, ◌≤◌, eqb, length, get_or};
ghost use Rattle.std.specs.Option.{is_some};
ghost use Rattle.hints.specs.Hints.{hint, line_of, is_wide, space_at, last_line, line_hint, hint_of};
ghost use Rattle.hints.specs.Lent.{hint_told, kind_number};

// The kinds of hints, by the numbers that the C interface gives them.
#[derive(Clone, Copy, PartialEq, Eq)]
pub enum Kind {
    Empty = 1,
    Utf16 = 2,
    ByteOrderMark = 3,
    CarriageReturn = 4,
    Tab = 5,
    LastSpace = 6,
    EmptyLine = 7,
    NoLineFeed = 8,
    TooLong = 9,
}

// What is seen, and in which line, the header being 1; 0 where it is in no line.
#[derive(Clone, Copy, PartialEq, Eq)]
pub struct Hint {
    pub kind: Kind,
    pub line: usize,
}

// Two bytes make a character.
#[tactic(auto, using(crate::proofs::Finding::wide))]
fn is_wide(text: &[u8]) -> bool
    ensures { result ≡ is_wide text.now }
{
    matches!(text, [0, ..] | [_, 0, ..] | [255, 254, ..] | [254, 255, ..])
}

// The line of an index: one more than the line feeds before it.
fn line_of(text: &[u8], at: usize) -> usize
    requires { at < length text.now }
    ensures { result ≡ line_of text.now at }
{
    text[..at].iter().filter(|b| **b == b'\n').count() + 1
}

// The index of the first space that stands before a line feed; the length where there is none. By the index: with `text[i..].starts_with(b" \n")` the hint to a
// text took 1.06 to 1.2 times as long.
fn space_at(text: &[u8]) -> usize
    ensures { result ≡ space_at text.now }
{
    for i in 0..text.len() {
        if text[i] == b' ' && i + 1 < text.len() && text[i + 1] == b'\n' {
            return i;
        }
    }
    text.len()
}

// Of the last line: that it is empty, or that no line feed ends it.
#[tactic(auto, using(crate::proofs::Finding::last_lines))]
fn last_line(text: &[u8]) -> Option<Hint>
    requires { 1 ≤ length text.now }
    ensures { hint_told result ≡ last_line text.now }
{
    let line = line_of(text, text.len() - 1);
    match text {
        [b'\n'] | [.., b'\n', b'\n'] => Some(Hint {
            kind: Kind::EmptyLine,
            line,
        }),
        [.., b'\n'] => None,
        _ => Some(Hint {
            kind: Kind::NoLineFeed,
            line,
        }),
    }
}

// What is seen at an index, and its line; nothing past the text's end.
fn seen_at(text: &[u8], kind: Kind, at: usize) -> Option<Hint>
    ensures seen { at < length text.now → hint_told result ≡ hint (kind_number kind) (line_of text.now at) }
    ensures shown { at < length text.now → is_some result ≡ true }
    ensures none_past { length text.now ≤ at → result ≡ None }
{
    if at < text.len() {
        let line = line_of(text, at);
        Some(Hint { kind, line })
    } else {
        None
    }
}

// What the lines show, each kind looked for in turn.
#[tactic(auto, using(crate::proofs::Finding::line_hints))]
fn line_hint(text: &[u8]) -> Option<Hint>
    requires { 1 ≤ length text.now }
    ensures { hint_told result ≡ line_hint text.now }
{
    seen_at(text, Kind::CarriageReturn, text::next_at(text, 0, b'\r'))
        .or_else(|| seen_at(text, Kind::Tab, text::next_at(text, 0, b'\t')))
        .or_else(|| seen_at(text, Kind::LastSpace, space_at(text)))
        .or_else(|| last_line(text))
}

// What is seen first of a sheet, and its line. The sheet is only read.
#[tactic(auto, using(crate::proofs::Finding::hints))]
pub fn find(sheet: &[u8]) -> Option<Hint>
    ensures { hint_told result ≡ hint_of sheet.now }
{
    let kind = if sheet.is_empty() {
        Kind::Empty
    } else if is_wide(sheet) {
        Kind::Utf16
    } else if sheet.starts_with(&[239, 187, 191]) {
        Kind::ByteOrderMark
    } else if 16384 < sheet.len() {
        Kind::TooLong
    } else {
        return line_hint(sheet);
    };
    Some(Hint { kind, line: 0 })
}
