// The answers to the question what becomes of every frame of a width with an identifier, and their numbers.
#![tactic(auto)]

ghost use Rattle.std.specs.Prelude.{◌≡◌};
ghost use Rattle.decision.specs.Number.{number_of, told};

use codes::Refusal;

// Dropped, whatever the data; passes, whatever the data; the data must be seen.
#[derive(Clone, Copy)]
pub enum Decision {
    Dropped,
    Passes,
    MustSee,
}

// The number of a decision: 0 dropped, 1 passes, 2 the data must be seen.
#[tactic(auto, unfolding(crate::specs::Number::number_of, crate::specs::Number::said, machine::specs::Early::early_number))]
pub fn number_of(d: Decision) -> u32
    ensures { result ≡ number_of d }
{
    match d {
        Decision::Dropped => 0,
        Decision::Passes => 1,
        Decision::MustSee => 2,
    }
}

// The number that an answer tells: that of its decision, 0 where it is a refusal.
pub fn told(answer: Result<Decision, Refusal>) -> u32
    ensures { result ≡ told answer }
{
    answer.map_or(0, number_of)
}
