// A plain listing of all paths: from every start of the end every list of input bits, walked through the table one by one. It shares no code with the
// decoder.
use crate::numbers::signed;
use trellis::{End, PassFormat};

// A call: a table's lists and the values of a pass, with room for 16 states, and for 4 outputs in 12 sections. Output 1 of a systematic table is the input.
#[derive(Clone, Copy)]
pub struct Call {
    pub format: PassFormat,
    pub systematic: bool,
    pub next: [u8; 48],
    pub words: [u8; 48],
    pub channel: [i16; 48],
    pub apriori: [i16; 48],
}

// A walk so far: the state, and the metric.
#[derive(Clone, Copy)]
struct Walk {
    state: usize,
    metric: i32,
}

// The best metrics of each position k, with bit b there, at [k][b]; none where no path has that bit there.
#[derive(Clone, Copy)]
pub struct Best {
    pub metrics: [[Option<i32>; 2]; 16],
}

impl Best {
    // One path's metric taken in at one position.
    fn take_at(&mut self, k: usize, bit: usize, metric: i32) {
        let best = &mut self.metrics[k % 16][bit % 2];
        *best = (*best).max(Some(metric));
    }

    // The same at every position.
    fn take(&mut self, sections: usize, inputs: usize, metric: i32) {
        let mut rest = inputs;
        for k in 0..sections {
            self.take_at(k, rest % 2, metric);
            rest /= 2;
        }
    }
}

impl Call {
    // A metric with the channel values of section k's outputs under a word.
    fn with_outputs(&self, metric: i32, k: usize, word: u8) -> i32 {
        let from = self.format.outputs.saturating_mul(k);
        let mut sum = metric;
        let mut rest = usize::from(word);
        for value in self.channel.iter().skip(from).take(self.format.outputs) {
            sum = sum.saturating_add(signed(rest % 2, *value));
            rest /= 2;
        }
        sum
    }

    // One section more.
    fn step(&self, w: Walk, k: usize, bit: usize) -> Walk {
        let at = w.state % 16 * 2 + bit % 2;
        let metric = w.metric.saturating_add(signed(bit, self.apriori[k % 12]));
        Walk {
            state: usize::from(self.next[at]),
            metric: self.with_outputs(metric, k, self.words[at]),
        }
    }

    // The walk of all sections from a start, bit k of `inputs` in section k.
    fn walked(&self, start: usize, inputs: usize) -> Walk {
        let mut w = Walk {
            state: start,
            metric: 0,
        };
        let mut rest = inputs;
        for k in 0..self.format.sections {
            w = self.step(w, k, rest % 2);
            rest /= 2;
        }
        w
    }

    // Whether a path of the end that starts in a state may end in another.
    fn ends(&self, start: usize, last: usize) -> bool {
        match self.format.end {
            End::Zero => last == 0,
            End::Open => true,
            End::Ring => last == start,
        }
    }

    // The best metrics of all paths: every start of the end, and every list of input bits.
    pub fn best(&self) -> Best {
        let starts = match self.format.end {
            End::Ring => self.format.states,
            _ => 1,
        };
        let paths = (0..self.format.sections).fold(1usize, |n, _| n.saturating_mul(2));
        let mut out = Best {
            metrics: [[None; 2]; 16],
        };
        for start in 0..starts {
            for inputs in 0..paths {
                let w = self.walked(start, inputs);
                if self.ends(start, w.state) {
                    out.take(self.format.sections, inputs, w.metric);
                }
            }
        }
        out
    }
}
