// The states that a path may start in, one after another.
ghost use Rattle.std.specs.Prelude.{true, false, ◌≡◌, ◌+◌, ◌*◌, ◌^◌, ◌<◌, length};
ghost use Rattle.trellis.specs.laws.Sweeps.{starts as starts_of};
ghost use Rattle.siso.specs.laws.Pass.{Stage, ListsKept};

use crate::Accepted;
use metrics::starts;

impl<'a> Accepted<'a> {
    // One state to start in more, where `any` says whether a state before it has a path. Until one has, no list but the working list is written.
    fn gather_from(
        &self,
        start: usize,
        any: bool,
        marks: &mut [u8],
        margins: &mut [i32],
        extrinsics: &mut [i32],
        g: &mut [i32],
        work: &mut [i32],
    ) -> bool
        requires start_bound { start < starts_of self.now.table.states self.now.end }
        requires g_len { length g.old ≡ 2 ^ self.now.table.outputs }
        requires work_len { length work.old ≡ (self.now.sections + 1) * self.now.table.states }
        requires stage { Stage self.now.table self.now.values self.now.end self.now.sections start any marks.old margins.old extrinsics.old }
        ensures stage_2 { Stage self.now.table self.now.values self.now.end self.now.sections (start + 1) result marks.new margins.new extrinsics.new }
        ensures lists_kept { result ≡ false → ListsKept
            marks.old margins.old extrinsics.old
            marks.new margins.new extrinsics.new }
    {
        let found = any | self.forward(start, g, work);
        if !found {
            return false;
        }
        let pass = self.pass;
        let last = start + 1 == starts(pass.format.end, pass.format.states);
        self.gather(start, !any, last, marks, margins, extrinsics, g, work);
        true
    }

    // Whether there is a path; if there is, the result lists of all paths.
    pub fn gather_all(
        &self,
        marks: &mut [u8],
        margins: &mut [i32],
        extrinsics: &mut [i32],
        g: &mut [i32],
        work: &mut [i32],
    ) -> bool
        requires g_len { length g.old ≡ 2 ^ self.now.table.outputs }
        requires work_len { length work.old ≡ (self.now.sections + 1) * self.now.table.states }
        requires marks_len { length marks.old ≡ self.now.sections }
        requires margins_len { length margins.old ≡ self.now.sections }
        requires extrinsics_len { length extrinsics.old ≡ self.now.sections }
        ensures stage { Stage self.now.table self.now.values self.now.end self.now.sections (starts_of self.now.table.states self.now.end) result
            marks.new margins.new extrinsics.new }
        ensures lists_kept { result ≡ false → ListsKept
            marks.old margins.old extrinsics.old
            marks.new margins.new extrinsics.new }
    {
        let pass = self.pass;
        let mut any = false;
        for start in 0..starts(pass.format.end, pass.format.states) {
            any = self.gather_from(start, any, marks, margins, extrinsics, g, work);
        }
        any
    }
}
