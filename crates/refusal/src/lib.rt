// Every refusal, the reply of an entry, and checks in turn. The number and the place of each refusal are definitions of specs/.
#![tactic(auto)]

ghost use Rattle.std.specs.Prelude.{◌≡◌};
ghost use Rattle.refusal.specs.Refusals.{told, number_of, place_of, check as check_of, ◌then◌};

#[derive(Clone, Copy)]
pub enum Refusal {
    // The sheet's text, with the faulty line, or 0.
    Text(usize),
    Shape,
    // Taps, or coefficients of a pattern's polynomial, out of range. It stands after 2.
    Polynomial,
    Branch,
    Length,
    Lists,
    // A radio's setting out of range, then a sample that is not finite. Both stand straight before 6.
    Setting,
    Sample,
    // A channel value out of range: in a call with the index of the first in its list, and on a sheet with its line.
    Value(usize),
    ValueInLine(usize),
    // An a-priori value out of range, with the index of the first. It stands after 6.
    Apriori(usize),
    Bit,
    Pattern,
    Mask,
    Iterations,
    Coder,
    NoPath,
    ForcedPosition,
    NoTail,
}

// The reply of an entry: done, or refused.
pub type Reply = Result<(), Refusal>;

impl Refusal {
    // Its number, as the papers' tables have it.
    #[tactic(auto, unfolding(crate::specs::Refusals::told))]
    pub fn number(self) -> u32
        ensures { result ≡ (told self).number }
    {
        match self {
            Refusal::Text(_) => 1,
            Refusal::Shape => 2,
            Refusal::Polynomial => 15,
            Refusal::Branch => 3,
            Refusal::Length => 4,
            Refusal::Lists => 5,
            Refusal::Setting => 17,
            Refusal::Sample => 18,
            Refusal::Value(_) | Refusal::ValueInLine(_) => 6,
            Refusal::Apriori(_) => 16,
            Refusal::Bit => 7,
            Refusal::Pattern => 8,
            Refusal::Mask => 9,
            Refusal::Iterations => 10,
            Refusal::Coder => 11,
            Refusal::NoPath => 12,
            Refusal::ForcedPosition => 13,
            Refusal::NoTail => 14,
        }
    }

    // The place that it names, 0 where it names none.
    #[tactic(auto, unfolding(crate::specs::Refusals::told))]
    pub fn place(self) -> usize
        ensures { result ≡ (told self).place }
    {
        match self {
            Refusal::Text(line) | Refusal::ValueInLine(line) => line,
            Refusal::Value(index) => index,
            Refusal::Apriori(index) => index,
            _ => 0,
        }
    }
}

// The number of a reply: 0 stands for done.
#[tactic(auto, unfolding(crate::specs::Refusals::number_of))]
pub fn number_of(reply: Reply) -> u32
    ensures { result ≡ number_of reply }
{
    match reply {
        Ok(()) => 0,
        Err(why) => why.number(),
    }
}

// The place that a reply names: 0 where the call is done.
#[tactic(auto, unfolding(crate::specs::Refusals::place_of))]
pub fn place_of(reply: Reply) -> usize
    ensures { result ≡ place_of reply }
{
    let Err(why) = reply else {
        return 0;
    };
    why.place()
}

// The reply to one check: refused by `why` unless it passes.
#[tactic(auto, unfolding(crate::specs::Refusals::check))]
pub fn check(passes: bool, why: Refusal) -> Reply
    ensures { result ≡ check_of passes why }
{
    if passes { Ok(()) } else { Err(why) }
}

// The reply to two checks in turn: the first that refuses decides.
pub fn first_of(x: Reply, y: Reply) -> Reply
    ensures { result ≡ (x then y) }
{
    x.and(y)
}
