// The table of steps: entry v * 32 + q is the set of the states to which state q leads at place v.
ghost use Rattle.std.specs.Prelude.{◌≤◌, ◌<◌};
ghost use Rattle.base.specs.Bits.{Members};
ghost use Rattle.automata.specs.Automaton.{step};
ghost use Rattle.acceptance.specs.Rule.{Usable, placed};
ghost use Rattle.acceptance.specs.Table.{Filled};

use automata::{Automaton, one, step_set};

// The states to which state q leads under a label.
fn steps_from(a: &Automaton, label: u8, q: usize) -> u64
    requires { Usable a.now × (q < a.now.states) }
    ensures { Members result (step a.now label q) }
{
    step_set(a, label, one(q))
}

// The row of place v.
fn fill_row(a: &Automaton, labels: &[u8; 128], v: usize, steps: &mut [u64; 4096])
    requires { Usable a.now × (v < 128) × Filled (placed a.now labels.now) a.now.states v 0 steps.old }
    ensures { Filled (placed a.now labels.now) a.now.states v a.now.states steps.new }
{
    for q in 0..a.states as usize {
        steps[v * 32 + q] = steps_from(a, labels[v], q);
    }
}

// The rows of all places.
pub fn fill(a: &Automaton, labels: &[u8; 128], places: usize, steps: &mut [u64; 4096])
    requires { Usable a.now × (places ≤ 128) × Filled (placed a.now labels.now) a.now.states 0 0 steps.old }
    ensures { Filled (placed a.now labels.now) a.now.states places 0 steps.new }
{
    for v in 0..places {
        fill_row(a, labels, v, steps);
    }
}
