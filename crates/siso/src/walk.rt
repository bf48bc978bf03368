// A pass behind its checks.
ghost use Rattle.std.specs.Prelude.{◌≡◌, ◌+◌, ◌*◌, length};
ghost use Rattle.siso.specs.Lent.{lone_lent_of, lone_result_of};
ghost use Rattle.siso.specs.laws.Settled.{walked};

use crate::Accepted;
use refusal::{Refusal, Reply};

impl<'a> Accepted<'a> {
    // The pass. No result is written where there is no path.
    pub fn run(
        &self,
        marks: &mut [u8],
        margins: &mut [i32],
        extrinsics: &mut [i32],
        work: &mut [i32],
    ) -> Reply
        requires work_len { length work.old ≡ (self.now.sections + 1) * self.now.table.states }
        requires marks_len { length marks.old ≡ self.now.sections }
        requires margins_len { length margins.old ≡ self.now.sections }
        requires extrinsics_len { length extrinsics.old ≡ self.now.sections }
        ensures { lone_result_of result marks.new margins.new extrinsics.new work.new
            ≡ walked self.now (lone_lent_of marks.old margins.old extrinsics.old work.old) }
    {
        let pass = self.pass;
        let mut of_words = [0; 16];
        let g = &mut of_words[..trellis::word_count(pass.format.outputs)];
        let path = self.gather_all(marks, margins, extrinsics, g, work);
        metrics::clear(work);
        refusal::check(path, Refusal::NoPath)
    }
}
