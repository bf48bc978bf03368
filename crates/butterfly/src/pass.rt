// A pass over a butterfly behind its checks.
ghost use Rattle.std.specs.Prelude.{◌≡◌, ◌+◌, ◌*◌, length};
ghost use Rattle.siso.specs.Lent.{lone_lent_of, lone_result_of};
ghost use Rattle.siso.specs.laws.Pass.{Pass as Checked};
ghost use Rattle.siso.specs.laws.Settled.{walked};
ghost use Rattle.butterfly.specs.laws.Tables.{IsButterfly};

use crate::position::tell;
use crate::starts::gather_all;
use crate::sweep::Course;
use crate::wings::Wings;
use refusal::{Refusal, Reply, check};
use siso::Pass;

// No result is written where there is no path.
pub fn run(
    pass: &Pass,
    marks: &mut [u8],
    margins: &mut [i32],
    extrinsics: &mut [i32],
    work: &mut [i32],
) -> Reply
    requires butterfly { IsButterfly pass.now.table.states pass.now.table.outputs pass.now.table.next pass.now.table.words }
    requires checked { Checked pass.now.table pass.now.sections pass.now.values }
    requires work_len { length work.old ≡ (pass.now.sections + 1) * pass.now.table.states }
    requires marks_len { length marks.old ≡ pass.now.sections }
    requires margins_len { length margins.old ≡ pass.now.sections }
    requires extrinsics_len { length extrinsics.old ≡ pass.now.sections }
    ensures { lone_result_of result marks.new margins.new extrinsics.new work.new
        ≡ walked pass.now (lone_lent_of marks.old margins.old extrinsics.old work.old) }
{
    let (channel, apriori) = (pass.channel, pass.apriori);
    let sections = pass.format.sections;
    let wings = Wings {
        half: pass.format.states / 2,
        next: pass.next,
        words: pass.words,
    };
    let all = wings.signs();
    let course = Course {
        kind: wings.kind(&all),
        signs: &all,
        channel,
        apriori,
        sections,
    };
    let path = gather_all(course, pass.format.end, margins, extrinsics, work);
    metrics::clear(work);
    check(path, Refusal::NoPath)?;
    tell(sections, channel, apriori, marks, margins, extrinsics);
    Ok(())
}
