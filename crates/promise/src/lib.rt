//! What is promised of an answer, and the answers themselves: that to a refusal and that to a tour.
#![tactic(auto)]

ghost use Rattle.std.specs.Prelude.{◌≡◌, ◌<◌, ◌≤◌};
ghost use Rattle.plan.specs.WellFormed.{WellFormed};
ghost use Rattle.plan.specs.Refusal.{line_of};
ghost use Rattle.promise.specs.Promise.{refusal_answer, tour_answer};

use answer::Answer;
use plan::{Plan, Refusal, cost_of, refusal_line, refusal_number};

// The answer to a refusal: its number and line, and 0 in all else.
pub fn refusal_answer(x: Refusal) -> Answer
    requires { line_of x ≤ 4294967295 }
    ensures { result ≡ refusal_answer x }
{
    Answer {
        number: refusal_number(x),
        line: refusal_line(x) as u32,
        cost: 0,
        kept: 0,
        count: 0,
        stem: 0,
        cycle: 0,
    }
}

// The answer to a tour that keeps these rules.
#[tactic(auto, using(plan::proofs::Charging::cost_small))]
pub fn tour_answer(p: Plan, kept: u64, stem: usize, cycle: usize) -> Answer
    requires { WellFormed p × (kept < 256) × (stem < 65536) × (cycle < 65536) }
    ensures { result ≡ tour_answer p kept stem cycle }
{
    let cost = cost_of(&p.weights, p.rules as usize, kept);
    Answer {
        number: 0,
        line: 0,
        cost: cost as u32,
        kept: kept as u32,
        count: u32::count_ones(kept as u32),
        stem: stem as u32,
        cycle: cycle as u32,
    }
}
