// The two sweeps of the paths that start in one state: forward metrics into the working list, and best metrics gathered on the way back.
ghost use Rattle.std.specs.Prelude.{true, false, ◌≡◌, ◌+◌, ◌*◌, ◌^◌, ◌<◌, length};
ghost use Rattle.lists.specs.Lists.{found};
ghost use Rattle.trellis.specs.laws.Sweeps.{starts as starts_of, reach_from};
ghost use Rattle.siso.specs.laws.Pass.{Forward, Bests, Last, Written};

use crate::Accepted;
use trellis::Table;

impl<'a> Accepted<'a> {
    // The forward metrics before every section of paths that start in a state, in the working list; and whether one finishes where the end lets it. The
    // list g takes the metrics of a section's words.
    pub fn forward(&self, start: usize, g: &mut [i32], work: &mut [i32]) -> bool
        requires start_bound { start < starts_of self.now.table.states self.now.end }
        requires g_len { length g.old ≡ 2 ^ self.now.table.outputs }
        requires work_len { length work.old ≡ (self.now.sections + 1) * self.now.table.states }
        ensures forward { Forward self.now.table self.now.values start self.now.sections work.new }
        ensures value { result ≡ found (reach_from self.now.table self.now.values self.now.end self.now.sections start) }
    {
        let pass = self.pass;
        let states = pass.format.states;
        let outputs = pass.format.outputs;
        let mut m = metrics::beginning(start);
        for k in 0..pass.format.sections {
            let from = outputs * k;
            // Named first: straight into `m` was tried, and the borrow checker of proofs does not cover it.
            let after = crate::section::forwards(
                pass.next,
                pass.words,
                states,
                &pass.channel[from..from + outputs],
                g,
                i32::from(pass.apriori[k]),
                m,
                work,
                states * k,
            );
            m = after;
        }
        metrics::arrived(m, metrics::ending(pass.format.end, start), states)
    }

    // The best metrics with bit 0 and with bit 1 at every position, of paths that start in one of the states up to this one, from those of paths that start in
    // the states before it; from the last start the positions that they tell. The sweep goes from the last section to the first.
    pub fn gather(
        &self,
        start: usize,
        first: bool,
        last: bool,
        marks: &mut [u8],
        margins: &mut [i32],
        extrinsics: &mut [i32],
        g: &mut [i32],
        work: &[i32],
    )
        requires start_bound { start < starts_of self.now.table.states self.now.end }
        requires g_len { length g.old ≡ 2 ^ self.now.table.outputs }
        requires work_len { length work.now ≡ (self.now.sections + 1) * self.now.table.states }
        requires forward { Forward self.now.table self.now.values start self.now.sections work.now }
        requires marks_len { length marks.old ≡ self.now.sections }
        requires bests { Bests self.now.table self.now.values self.now.end self.now.sections start first margins.old extrinsics.old }
        requires last { last ≡ true → Last self.now.table self.now.end self.now.sections start }
        ensures bests_2 { last ≡ false → Bests self.now.table self.now.values self.now.end self.now.sections (start + 1) false margins.new extrinsics.new }
        ensures written { last ≡ true → Written self.now.table self.now.values self.now.end self.now.sections marks.new margins.new extrinsics.new }
    {
        let pass = self.pass;
        let states = pass.format.states;
        let outputs = pass.format.outputs;
        let table = Table {
            states,
            outputs,
            next: pass.next,
            words: pass.words,
        };
        let sys = table.is_systematic();
        let mut m = metrics::ending(pass.format.end, start);
        for k in (0..pass.format.sections).rev() {
            let from = outputs * k;
            let a = pass.apriori[k];
            let b = crate::section::backwards(
                pass.next,
                pass.words,
                states,
                &pass.channel[from..from + outputs],
                g,
                i32::from(a),
                m,
                work,
                states * k,
            );
            let told = crate::position::intrinsic(pass.channel[from], a, sys);
            crate::position::gather_at(
                first, last, k, b.zero, b.one, told, marks, margins, extrinsics,
            );
            m = b.metrics;
        }
    }
}
