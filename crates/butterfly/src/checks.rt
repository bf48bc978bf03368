// Which calls are taken: those over a butterfly that pass every check. Any other is left to the decoder for any table, which tells its number.
ghost use Rattle.std.specs.Prelude.{true, ◌≡◌};
ghost use Rattle.siso.specs.Decode.{Lent};
ghost use Rattle.siso.specs.laws.Accepted.{Accepted};
ghost use Rattle.siso.specs.laws.Pass.{Sized};
ghost use Rattle.butterfly.specs.laws.Tables.{IsButterfly};

use crate::wings::is_butterfly;
use siso::Pass;
use trellis::Table;

pub fn takes(pass: &Pass, marks: usize, margins: usize, extrinsics: usize, work: usize) -> bool
    ensures { result ≡ true
        → IsButterfly pass.now.table.states pass.now.table.outputs pass.now.table.next pass.now.table.words
        × ((l : Lent) → Sized l marks margins extrinsics work → Accepted pass.now l) }
{
    let format = pass.format;
    let table = Table {
        states: format.states,
        outputs: format.outputs,
        next: pass.next,
        words: pass.words,
    };
    is_butterfly(&table)
        && trellis::lists_fit(
            format,
            pass.channel.len(),
            pass.apriori.len(),
            marks,
            margins,
            extrinsics,
            work,
        )
        && table.reply().is_ok()
        && trellis::values_reply(pass.channel, pass.apriori).is_ok()
}
