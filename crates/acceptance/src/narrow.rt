// A tour read by an automaton of at most eight states. A set of states is a byte, and for each place and each set there is the set of the
// states to which its members lead: entry v * 256 + x for the set x at place v. So one look leads a set over a place.
// `tour` has a `follow` and a `turn` of its own, since it has no such table: it joins the sets of the members, and reads the loop from its end.
ghost use Rattle.std.specs.Prelude.{◌≡◌, ◌+◌, ◌*◌, ◌≤◌, ◌<◌, length, get_or, take, drop, eqb};
ghost use Rattle.std.specs.Int.Bits.{bit_and, bit_or};
ghost use Rattle.base.specs.Bits.{has_bit, Members};
ghost use Rattle.automata.specs.WellFormed.{Below};
ghost use Rattle.acceptance.specs.Decision.{after, decided};
ghost use Rattle.acceptance.specs.Table.{step_in, Turned};
ghost use Rattle.acceptance.specs.Sets.{Extended, Tabled, Begun, Worded};

use crate::rule::Rule;
use crate::tour::close_up;
use automata::one;

// The sets with one state more: behind the `size` entries from `at` on come those with `next` joined.
fn extend(sets: &mut [u8; 32768], at: usize, size: usize, next: u8)
    requires { at + (size + size) ≤ 32768 }
    ensures { Extended at size next sets.old size sets.new }
{
    for x in 0..size {
        sets[at + size + x] = sets[at + x] | next;
    }
}

// The sets of place v.
#[tactic(auto, using(crate::proofs::Tabling::tabled_first))]
fn fill_place(rule: Rule, v: usize, sets: &mut [u8; 32768])
    requires { (rule.states ≤ 8) × (v < 128) × Tabled rule.steps.now rule.states v 0 sets.old }
    ensures { Tabled rule.entry.steps.now rule.entry.states (v + 1) 0 sets.new }
{
    let at = v * 256;
    sets[at] = 0;
    for q in 0..rule.states {
        extend(sets, at, 1 << q, rule.steps[v * 32 + q] as u8);
    }
}

// The sets of all places.
fn fill(rule: Rule, sets: &mut [u8; 32768])
    requires { rule.states ≤ 8 }
    ensures { Tabled rule.entry.steps.now rule.entry.states rule.entry.places 0 sets.new }
{
    for v in 0..rule.places {
        fill_place(rule, v, sets);
    }
}

// The sets of place v, as a part of the table.
fn row(sets: &[u8; 32768], v: u8) -> &[u8]
    requires { v < 128 }
    ensures { (result.now ≡ take 256 (drop (v * 256) sets.now)) × (length result.now ≡ 256) }
{
    let at = usize::from(v) * 256;
    &sets[at..at + 256]
}

// Where a part of the loop leads from a state: to the states of `ends`, and to those of `good` with an accepting state met on the way.
#[derive(Clone, Copy)]
struct Reach {
    ends: u8,
    good: u8,
}

// Before the first place: at state q, and nowhere if there is no such state.
fn begun(q: usize, n: usize, accept: u8) -> Reach
    requires { n ≤ 8 }
    ensures { Begun q n accept result.ends result.good }
{
    let ends = if q < n { one(q) as u8 } else { 0 };
    Reach {
        ends,
        good: ends & accept,
    }
}

// One place farther, by the sets of that place.
fn advance(row: &[u8], reach: Reach, accept: u8) -> Reach
    requires { length row.now ≡ 256 }
    ensures { (result.ends ≡ get_or row.now reach.ends 0) × (result.good ≡ bit_or (get_or row.now reach.good 0) (bit_and result.ends accept)) }
{
    let ends = row[usize::from(reach.ends)];
    let good = row[usize::from(reach.good)] | (ends & accept);
    Reach { ends, good }
}

// The word of a state over the loop.
fn word(reach: Reach) -> u64
    ensures { result ≡ reach.ends + reach.good * 4294967296 }
{
    u64::from(reach.ends) + u64::from(reach.good) * 4294967296
}

// The words of four states from q on, over the loop.
fn pass(rule: Rule, sets: &[u8; 32768], cycle: &[u8], q: usize) -> [u64; 4]
    requires { (rule.states ≤ 8) × (q ≤ 8) × Tabled rule.steps.now rule.states rule.places 0 sets.now × Below rule.places cycle.now }
    ensures { Worded rule.entry.steps.now rule.entry.states rule.entry.accept cycle.now q result }
{
    let n = rule.states;
    let accept = rule.accept as u8;
    let mut four = [
        begun(q, n, accept),
        begun(q + 1, n, accept),
        begun(q + 2, n, accept),
        begun(q + 3, n, accept),
    ];
    for v in cycle {
        let row = row(sets, *v);
        four = [
            advance(row, four[0], accept),
            advance(row, four[1], accept),
            advance(row, four[2], accept),
            advance(row, four[3], accept),
        ];
    }
    [word(four[0]), word(four[1]), word(four[2]), word(four[3])]
}

// The words of a turn of the loop: four states at a time. (`tour` goes back through the loop instead, and joins sets: no twin of this.)
fn turn(rule: Rule, sets: &[u8; 32768], cycle: &[u8], rows: &mut [u64; 32])
    requires { (rule.states ≤ 8) × Tabled rule.steps.now rule.states rule.places 0 sets.now × Below rule.places cycle.now }
    ensures { Turned rule.entry.steps.now rule.entry.states rule.entry.accept cycle.now rule.entry.states rows.new }
{
    for q in (0..rule.states).step_by(4) {
        rows[q..q + 4].copy_from_slice(&pass(rule, sets, cycle, q));
    }
}

// The states to which the first state leads over the places of a list. (That of `tour` joins the sets of many states where this one looks a
// set up: a function lent for the step would be longer than the two loops.)
fn follow(rule: Rule, sets: &[u8; 32768], list: &[u8]) -> u8
    requires { (rule.states ≤ 8) × Tabled rule.steps.now rule.states rule.places 0 sets.now × Below rule.places list.now }
    ensures { Members result (after (step_in rule.entry.steps.now) rule.entry.states list.now (eqb rule.entry.first)) }
{
    let mut reached = one(rule.first) as u8;
    for v in list {
        reached = row(sets, *v)[usize::from(reached)];
    }
    reached
}

// Whether the rule of at most eight states accepts the tour.
pub fn decide(rule: Rule, stem: &[u8], cycle: &[u8]) -> bool
    requires { (rule.states ≤ 8) × Below rule.places stem.now × Below rule.places cycle.now }
    ensures { result ≡ decided (step_in rule.entry.steps.now) rule.entry.states rule.entry.first (has_bit rule.entry.accept) stem.now cycle.now }
{
    let mut sets = [0; 32768];
    fill(rule, &mut sets);
    let set = follow(rule, &sets, stem);
    let mut rows = [0; 32];
    turn(rule, &sets, cycle, &mut rows);
    close_up(rule.states, u64::from(set), &rows)
}
