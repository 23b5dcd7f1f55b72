// The refusals and what a step answers, each with its number.
#![tactic(auto)]

ghost use Rattle.std.specs.Prelude.{cond, ◌≡◌};
ghost use Rattle.refusal.specs.Refusal.{Refused};
ghost use Rattle.refusal.specs.Refusal as spec;

// The refusals and their numbers. An accepted frame answers 0, which is the number of none.
#[derive(Clone, Copy, PartialEq, Eq)]
pub enum Refusal {
    Config = 1,
    Form = 2,
    Sender = 3,
    Stale = 4,
    Proof = 5,
    Command = 6,
    History = 7,
    Behind = 8,
    Reused = 9,
    Contradiction = 10,
    Split = 11,
    Nothing = 12,
    Full = 13,
}

impl Refusal {
    // The number of a refusal.
    pub fn number(self) -> u8
        ensures { result ≡ spec.number self }
    {
        self as u8
    }
}

// What a step answers: accepted, or why not.
pub type Answer = Result<(), Refusal>;

// The answer's number: 0 for an accepted frame, else the refusal's.
pub fn number(answer: Answer) -> u8
    ensures { result ≡ spec.answer_number answer }
{
    match answer {
        Ok(()) => 0,
        Err(refusal) => refusal.number(),
    }
}

// The answer of a rule before others: the refusal where its test holds, else what the later ones answer.
pub fn given(test: bool, refusal: Refusal, later: Answer) -> Answer
    ensures { result ≡ cond test (Refused refusal) later }
{
    if test { Err(refusal) } else { later }
}
