// The lone decoder: one pass over a table and an end that its caller gives.
#![tactic(auto)]

ghost use Rattle.std.specs.Prelude.{◌≡◌};
ghost use Rattle.siso.specs.Decode.{Call, decode as decoded};
ghost use Rattle.siso.specs.Lent.{lone_call_of, lone_lent_of, lone_result_of};
ghost use Rattle.siso.specs.laws.Pass.{Pass as Checked};

mod checks;
mod metric;
mod position;
mod section;
mod starts;
mod sweep;
mod walk;

use refusal::Reply;
use std::marker::Model;
use trellis::PassFormat;

// What a pass reads: its format, the two lists of its table, and its channel and a-priori values. Contracts see the definitions' call.
#[derive(Drop)]
pub struct Pass<'a> {
    pub format: PassFormat,
    pub next: &'a [u8],
    pub words: &'a [u8],
    pub channel: &'a [i16],
    pub apriori: &'a [i16],
}

impl<'a> Model for Pass<'a> {
    ghost Value = { Call };

    ghost view = { λ p. lone_call_of p.format p.next.now p.words.now p.channel.now p.apriori.now };
}

// A pass that the checks accepted. Contracts see its call. Its methods name `pass` before a field of it: `self.pass.format` was tried, and the borrow checker
// of proofs does not cover a field of a struct with a model behind a field that is a reference.
#[derive(Drop)]
struct Accepted<'a> {
    pass: &'a Pass<'a>,
}

impl<'a> Model for Accepted<'a> {
    ghost Value = { Call };

    ghost view = { λ a. a.pass.now };

    ghost invariant = { λ a. Checked a.pass.now.table a.pass.now.sections a.pass.now.values };
}

// A pass: the mark, margin and extrinsic of every position, or a refusal that writes none of them. The working list is zeros after done and 12, and as it was
// after any other refusal.
pub fn decode(
    pass: &Pass,
    marks: &mut [u8],
    margins: &mut [i32],
    extrinsics: &mut [i32],
    work: &mut [i32],
) -> Reply
    ensures { lone_result_of result marks.new margins.new extrinsics.new work.new
        ≡ decoded pass.now (lone_lent_of marks.old margins.old extrinsics.old work.old) }
{
    checks::reply(
        pass,
        marks.len(),
        margins.len(),
        extrinsics.len(),
        work.len(),
    )?;
    let accepted = Accepted { pass };
    accepted.run(marks, margins, extrinsics, work)
}
