//! The first index at which a proposed tour breaks.
ghost use Rattle.std.specs.Prelude.{◌≡◌, ◌+◌, ◌≤◌, ◌<◌, min, length};
ghost use Rattle.automata.specs.WellFormed.{Below};
ghost use Rattle.plan.specs.WellFormed.{WellFormed};
ghost use Rattle.checker.specs.Break.{first_break};
ghost use Rattle.checker.specs.Drive.{before, on_table, prior_of, Stopped, Charted, unlinked};
ghost use Rattle.checker.specs.Roads.{Blank};
ghost use Rattle.checker.specs.Outcome.{break_of};

use plan::Plan;

// The row of the table that stands for the time before the tour: its one road leads to the start.
const BEFORE: usize = 128;

// The table of the plan's roads.
fn chart(p: Plan, roads: &mut [u8])
    requires { WellFormed p × Blank roads.old × (length roads.old ≡ 16512) }
    ensures { Charted p roads.new }
{
    roadmap::chart(p, 0, roads);
    roads[BEFORE * 128 + p.start as usize] = 1;
}

// How many places of a list can be driven in turn, from place `from`.
fn driven(roads: &[u8], places: usize, from: usize, list: &[u8]) -> usize
    requires { (length roads.now ≡ 16512) × (places ≤ 128) × (from ≤ 128) }
    ensures { Stopped (on_table roads.now places) from list.now result }
{
    let mut u = from;
    for (i, v) in list.iter().enumerate() {
        let v = usize::from(*v);
        if places <= v {
            return i;
        }
        if roads[u * 128 + v] != 1 {
            return i;
        }
        u = v;
    }
    list.len()
}

// The sum of two lengths, held at the most that 64 bits hold.
fn held_sum(a: usize, b: usize) -> u64
    ensures { result ≡ min (a + b) 18446744073709551615 }
{
    a.saturating_add(b) as u64
}

// The place from which the loop is entered.
fn before_loop(stem: &[u8]) -> usize
    ensures { result ≡ prior_of before stem.now (length stem.now) }
{
    match stem.last() {
        Some(v) => usize::from(*v),
        None => BEFORE,
    }
}

// Whether the closing road is missing.
fn is_open(roads: &[u8], cycle: &[u8]) -> bool
    requires { (length roads.now ≡ 16512) × (0 < length cycle.now) × Below 128 cycle.now }
    ensures { result ≡ unlinked roads.now cycle.now }
{
    let last = usize::from(cycle[cycle.len() - 1]);
    let first = usize::from(cycle[0]);
    roads[last * 128 + first] != 1
}

// The first break, by way of the table. Of the plan only the number of places is looked at: the contract speaks of it.
fn break_in(p: Plan, roads: &[u8], stem: &[u8], cycle: &[u8]) -> Option<u64>
    requires { WellFormed p × Charted p roads.now }
    ensures { result ≡ break_of (first_break p stem.now cycle.now) }
{
    let places = p.places as usize;
    let r = stem.len();
    let l = cycle.len();
    let i = driven(roads, places, BEFORE, stem);
    if i < r {
        return Some(i as u64);
    }
    if l == 0 {
        return Some(r as u64);
    }
    let j = driven(roads, places, before_loop(stem), cycle);
    if j < l {
        return Some(held_sum(r, j));
    }
    if is_open(roads, cycle) {
        return Some(held_sum(r, l));
    }
    None
}

// The first break of a proposed tour of a plan, if it breaks; an index that 64 bits cannot hold is given as the greatest that they hold.
pub fn first_break(p: Plan, stem: &[u8], cycle: &[u8]) -> Option<u64>
    requires { WellFormed p }
    ensures { result ≡ break_of (first_break p stem.now cycle.now) }
{
    let mut roads = [0u8; 16512];
    chart(p, &mut roads);
    break_in(p, &roads, stem, cycle)
}
