//! Acceptance of a run-in and a loop by an automaton, decided. Sets of states are bits: bit q stands for state q.
#![tactic(auto)]

ghost use Rattle.std.specs.Prelude.{◌≤◌};
ghost use Rattle.automata.specs.WellFormed.{Below};
ghost use Rattle.acceptance.specs.Rule.{Usable, Judged};

use automata::Automaton;
use rule::Rule;

mod narrow;
mod rule;
mod table;
mod tour;

// Whether the automaton accepts the tour of this run-in and this loop. It is the same for a hard rule and for a soft one: no run that
// accepts meets the trap. One of at most eight states is read by the table of sets.
pub fn accepts(a: Automaton, labels: &[u8; 128], places: usize, stem: &[u8], cycle: &[u8]) -> bool
    requires { Usable a × (places ≤ 128) × Below places stem.now × Below places cycle.now }
    ensures { Judged a labels.now stem.now cycle.now result }
{
    let mut steps = [0u64; 4096];
    table::fill(&a, labels, places, &mut steps);
    let rule = Rule {
        steps: &steps,
        states: a.states as usize,
        first: a.first as usize,
        accept: u64::from(a.accept),
        places,
    };
    if rule.states <= 8 {
        narrow::decide(rule, stem, cycle)
    } else {
        tour::decide(rule, stem, cycle)
    }
}
