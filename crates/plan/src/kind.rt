//! Which answers program plantour gives.
ghost use Rattle.std.specs.Prelude.{◌≡◌};
ghost use Rattle.plan.specs.Answers.{kind_of};

// A tour; a refusal without a line, or one that carries the line of the plan; no answer of plantour's.
#[derive(Clone, Copy, Debug, PartialEq, Eq)]
pub enum Kind {
    Tour,
    Plain,
    Lined,
    Never,
}

// What an answer of this number is.
#[tactic(auto, unfolding(crate::specs::Answers::kind_of))]
pub fn kind_of(number: u32) -> Kind
    ensures { result ≡ kind_of number }
{
    match number {
        0 => Kind::Tour,
        2 | 3 | 10 => Kind::Lined,
        n if n < 7 => Kind::Plain,
        _ => Kind::Never,
    }
}
