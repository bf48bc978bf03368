// Channel values from the samples of a radio: (reliability·scale)·sample in f32, each product rounded once, then the nearest whole number, limited.
#![tactic(auto)]

ghost use Rattle.std.specs.Prelude.{true, ◌&&◌, map, ◌≡◌};
ghost use Rattle.std.specs.Float.Ieee.Scale.{finite};
ghost use Rattle.lists.specs.Lists.{every};
ghost use Rattle.refusal.specs.Refusals.{first_of};
ghost use Rattle.samples.specs.Samples.{◌*ᶠ◌, nearest_value, in_range, channel_in_range, setting_fits, sample_checks};
ghost use Rattle.samples.specs.Samples.{sample_values, sample_result_of};
ghost use Rattle.samples.specs.laws.Calls.{Ready};
ghost use Rattle.samples.specs.laws.Settings.{factor};

mod whole;

use refusal::{Refusal, Reply, check};

// How the radio's channel is: steady with a ratio, fading with an amplitude and a ratio, or silent.
#[derive(Clone, Copy)]
pub enum Channel {
    Steady(f32),
    Fading(f32, f32),
    Silent,
}

// A receiver's setting: one scale beside the channel's numbers.
#[derive(Clone, Copy)]
pub struct Setting {
    pub scale: f32,
    pub channel: Channel,
}

// A number of the setting is in 0..1,024; a NaN is not, and -0.0 is.
#[tactic(auto, using(crate::specs::laws::Settings::range_tests))]
fn in_range(x: f32) -> bool
    ensures { result ≡ in_range x }
{
    0.0 <= x && x <= 1024.0
}

// Those that the channel's case holds.
#[tactic(auto, unfolding(crate::specs::Samples::channel_in_range))]
fn channel_in_range(channel: Channel) -> bool
    ensures { result ≡ channel_in_range channel }
{
    match channel {
        Channel::Steady(ratio) => in_range(ratio),
        Channel::Fading(amplitude, ratio) => in_range(amplitude) && in_range(ratio),
        Channel::Silent => true,
    }
}

#[tactic(auto, unfolding(crate::specs::Samples::setting_fits))]
fn setting_fits(setting: Setting) -> bool
    ensures { result ≡ setting_fits setting }
{
    in_range(setting.scale) && channel_in_range(setting.channel)
}

// The library's method, under the name that this crate's definitions have for it.
#[tactic(auto, using(crate::proofs::Finite::library_finite))]
fn is_finite(x: f32) -> bool
    ensures { result ≡ finite x }
{
    x.is_finite()
}

// Every sample is finite. All are looked at: with `iter().all`, which stops at the first that is not, 4,096 good samples took 2.7 us and not 0.5.
#[tactic(auto, using(lists::specs::laws::Every::every_take), unfolding(lists::specs::Lists::every))]
fn all_finite(samples: &[f32]) -> bool
    ensures { result ≡ every finite samples.now }
{
    let mut all = true;
    for sample in samples {
        all &= is_finite(*sample);
    }
    all
}

// 5, 17, then 18.
#[tactic(auto, using(crate::proofs::Writing::in_turn), unfolding(crate::specs::Samples::sample_checks, crate::specs::Samples::samples_fit))]
fn sample_reply(setting: Setting, samples: &[f32], long: usize) -> Reply
    ensures { result ≡ first_of (sample_checks setting samples.now long) }
{
    check(samples.len() == long, Refusal::Lists)?;
    let numbers = setting_fits(setting);
    let finite = all_finite(samples);
    check(numbers, Refusal::Setting)?;
    check(finite, Refusal::Sample)
}

// The reliability. A silent channel has none; with 0 in its place every value is 0.
#[tactic(auto, using(crate::specs::laws::Settings::zero_is, crate::specs::laws::Settings::four_is), unfolding(crate::specs::laws::Settings::factor))]
fn reliability(channel: Channel) -> f32
    ensures { result ≡ factor channel }
{
    match channel {
        Channel::Steady(ratio) => 4.0 * ratio,
        Channel::Fading(amplitude, ratio) => (4.0 * amplitude) * ratio,
        Channel::Silent => 0.0,
    }
}

// The products are formed in the paper's order: in another they may round otherwise. They stand alone, so that another order fails at what is said here.
fn last_product(factor: f32, scale: f32, sample: f32) -> f32
    ensures { result ≡ (factor *ᶠ scale) *ᶠ sample }
{
    (factor * scale) * sample
}

#[tactic(auto, using(crate::specs::laws::Products::product_number))]
fn value_of(factor: f32, scale: f32, sample: f32) -> i16
    requires scale_value { finite (factor *ᶠ scale) ≡ true }
    requires sample_value { finite sample ≡ true }
    ensures { result ≡ nearest_value ((factor *ᶠ scale) *ᶠ sample) }
{
    whole::nearest(last_product(factor, scale, sample))
}

// The value of every sample. By index: of a list written through a zip of `iter_mut` a proof knows the length alone.
#[tactic(auto, using(lists::specs::laws::Every::every_at, lists::specs::laws::Stores::filled_none, lists::specs::laws::Stores::filled_more))]
fn fill(factor: f32, scale: f32, samples: &[f32], values: &mut [i16])
    requires { Ready factor scale samples.now values.old }
    ensures { values.new ≡ map (λ x. nearest_value ((factor *ᶠ scale) *ᶠ x)) samples.now }
{
    for (i, sample) in samples.iter().enumerate() {
        values[i] = value_of(factor, scale, *sample);
    }
}

// The channel values of a radio's samples under a setting, to `values`. Nothing is written before the last sample has been looked at; where the call is
// refused, by 5, 17 or 18, the list is as it was.
pub fn sample_values(setting: Setting, samples: &[f32], values: &mut [i16]) -> Reply
    ensures { sample_result_of result values.new
        ≡ sample_values setting samples.now values.old }
{
    sample_reply(setting, samples, values.len())?;
    fill(reliability(setting.channel), setting.scale, samples, values);
    Ok(())
}
