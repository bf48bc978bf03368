// The frame of a sheet: its pattern, and a value for every place.
ghost use Rattle.std.specs.Prelude.{true, [], ◌∷◌, ◌++◌, ◌≡◌, ◌+◌, ◌*◌, ◌≤◌, length, take};
ghost use Rattle.integers.specs.Integers.{inside};
ghost use Rattle.lists.specs.Lists.{listed, joined};
ghost use Rattle.text.specs.Text.{cut};
ghost use Rattle.trellis.specs.Limits.{channel_fits};
ghost use Rattle.sheet.specs.Sheet.{message_at, message_values};
ghost use Rattle.sheet.specs.laws.Receiving.{both_tails, values_to};

use rows::Tail;

// Three values at a place.
fn put3(values: &mut [i32], at: usize, three: [i32; 3])
    requires { at + 3 ≤ length values.old }
    ensures { take (at + 3) values.new ≡ take at values.old ++ three }
{
    values[at..at + 3].copy_from_slice(&three);
}

// The message rows: the pattern, and three values each.
fn read_messages(sheet: &[u8], pattern: &mut [u32], values: &mut [i32])
    requires sheet_len { length (cut 10 sheet.now) ≡ length pattern.old + 4 }
    requires pattern_len_bound { length pattern.old ≤ 512 }
    requires pattern_in_bounds { 3 * length pattern.old ≤ length values.old }
    ensures pattern_after { pattern.new ≡ listed (λ k. (message_at sheet.now k).to) (length pattern.old) }
    ensures values_after { take (3 * length pattern.old) values.new
        ≡ joined (message_values sheet.now) (length pattern.old) }
{
    let lines = sheet.split(|b| *b == b'\n').skip(1).take(pattern.len());
    for (k, line) in lines.enumerate() {
        let row = rows::message_row(line, k).unwrap_or_default();
        pattern[k] = row.to;
        put3(values, 3 * k, [row.sys, row.par, row.par2]);
    }
}

// Both tails: of each the systematic bits and the parities, row by row.
fn put_tails(values: &mut [i32], at: usize, a: Tail, b: Tail)
    requires { length values.old ≡ at + 8 }
    ensures { values.new ≡ take at values.old ++ both_tails a b }
{
    values[at..].copy_from_slice(&[a.sys, a.par, b.sys, b.par, a.sys2, a.par2, b.sys2, b.par2]);
}

// The pattern, and the values of every place.
pub fn read_frame(sheet: &[u8], pattern: &mut [u32], values: &mut [i32])
    requires sheet_len { length (cut 10 sheet.now) ≡ length pattern.old + 4 }
    requires pattern_len_bound { length pattern.old ≤ 512 }
    requires values_len { length values.old ≡ 3 * length pattern.old + 8 }
    ensures pattern_after { pattern.new ≡ listed (λ k. (message_at sheet.now k).to) (length pattern.old) }
    ensures values_after { values.new ≡ values_to sheet.now (length pattern.old) }
{
    let k = pattern.len();
    read_messages(sheet, pattern, values);
    let a = rows::tail_in(sheet, k).unwrap_or_default();
    let b = rows::tail_in(sheet, k + 1).unwrap_or_default();
    put_tails(values, 3 * k, a, b);
}

// A value is within the decoder's limit.
#[tactic(auto, unfolding(integers::specs::Integers::inside))]
pub fn is_small(v: i32) -> bool
    ensures { result ≡ inside 1023 v }
{
    v.unsigned_abs() <= 1023
}

// The values as the decoder takes them, where all of them are within its limit.
pub fn narrow_all(values: &[i32], out: &mut [i16]) -> bool
    requires { length out.old ≡ length values.now }
    ensures value { result ≡ channel_fits values.now }
    ensures out_after { result ≡ true → out.new ≡ values.now }
{
    for (i, &value) in values.iter().enumerate() {
        if !is_small(value) {
            return false;
        }
        out[i] = value as i16;
    }
    true
}
