// A tour read by way of a table of steps. Of the loop's turn there is a word for each state q: bit r tells that q leads to r, and bit
// 32 + r that an accepting state is met on the way.
ghost use Rattle.std.specs.Prelude.{◌≡◌, [], ◌+◌, ◌≤◌, ◌<◌, length, drop, eqb};
ghost use Rattle.base.specs.Below.{any_below};
ghost use Rattle.base.specs.Bits.{has_bit, Members};
ghost use Rattle.automata.specs.WellFormed.{Below};
ghost use Rattle.acceptance.specs.Decision.{after, decided};
ghost use Rattle.acceptance.specs.Table.{step_in, gathered, Marked, Turned, related, Linked, passing, Passed, returning, Closed};

use crate::rule::Rule;
use automata::{has, one};

// The sets of a part of a table joined, those at the members of `set`.
#[tactic(auto, using(crate::proofs::Gathers::lowest_below, crate::proofs::Gathers::gathering_end))]
fn gather(table: &[u64], at: usize, set: u64) -> u64
    requires { (set < 4294967296) × (at + 32 ≤ length table.now) }
    ensures { Members result (gathered table.now at set) }
{
    let mut out = 0;
    let mut left = set;
    while left != 0 {
        let q = u64::trailing_zeros(left) as usize;
        out |= table[at + q];
        left &= left - 1;
    }
    out
}

// The states to which the first state leads over the places of a list.
fn follow(rule: Rule, list: &[u8]) -> u64
    requires { Below 128 list.now }
    ensures { Members result (after (step_in rule.entry.steps.now) rule.entry.states list.now (eqb rule.entry.first)) × (result < 4294967296) }
{
    let steps = rule.steps;
    let mut reached = one(rule.first);
    for v in list {
        reached = gather(steps, usize::from(*v) * 32, reached);
    }
    reached
}

// A word with its lower half in the upper one too, where the state accepts.
#[tactic(auto, using(crate::proofs::Words::marked_here, crate::proofs::Words::marked_not))]
fn marked(word: u64, accepting: bool) -> u64
    ensures { Marked word accepting result }
{
    if accepting {
        word | (word % 4294967296) * 4294967296
    } else {
        word
    }
}

// The words of a turn of no places.
fn begin(rule: Rule, rows: &mut [u64; 32])
    ensures { Turned rule.entry.steps.now rule.entry.states rule.entry.accept [] rule.entry.states rows.new }
{
    for q in 0..rule.states {
        rows[q] = marked(one(q), has(rule.accept, q));
    }
}

// The words of a turn from place i of the loop on; `old` has those from the next place on.
fn put_before(rule: Rule, cycle: &[u8], i: usize, old: &[u64; 32], rows: &mut [u64; 32])
    requires { Below 128 cycle.now × (i < length cycle.now) × Turned rule.steps.now rule.states rule.accept (drop (i + 1) cycle.now) rule.states old.now }
    ensures { Turned rule.entry.steps.now rule.entry.states rule.entry.accept (drop i cycle.now) rule.entry.states rows.new }
{
    let at = usize::from(cycle[i]) * 32;
    for q in 0..rule.states {
        let next = gather(old, 0, rule.steps[at + q]);
        rows[q] = marked(next, has(rule.accept, q));
    }
}

// The words of a turn of the loop.
fn turn(rule: Rule, cycle: &[u8], rows: &mut [u64; 32])
    requires { Below 128 cycle.now }
    ensures { Turned rule.entry.steps.now rule.entry.states rule.entry.accept cycle.now rule.entry.states rows.new }
{
    begin(rule, rows);
    for i in (0..cycle.len()).rev() {
        let old = *rows;
        put_before(rule, cycle, i, &old, rows);
    }
}

// Of each state the set of itself and of the states that one turn leads to.
#[tactic(auto, using(crate::proofs::Links::linked_put))]
fn single(n: usize, rows: &[u64; 32], links: &mut [u64; 32])
    requires { n ≤ 32 }
    ensures { Linked (related rows.now) n 0 links.new }
{
    for q in 0..n {
        links[q] = (rows[q] % 4294967296) | one(q);
    }
}

// A set, with `mid` joined where state k is in it.
#[tactic(auto, using(crate::proofs::Links::pass_take, crate::proofs::Links::pass_leave))]
fn passed(word: u64, k: usize, mid: u64) -> u64
    requires { k < 32 }
    ensures { Members result (passing word k mid) }
{
    if has(word, k) { word | mid } else { word }
}

// By way of state k too, which leads to the states of `mid`.
fn through(n: usize, k: usize, mid: u64, links: &mut [u64; 32])
    requires { (n ≤ 32) × (k < n) }
    ensures { Passed k mid links.old n links.new }
{
    for set in &mut links[..n] {
        *set = passed(*set, k, mid);
    }
}

// Of each state the set of the states that any number of turns leads to.
fn link(n: usize, rows: &[u64; 32], links: &mut [u64; 32])
    requires { n ≤ 32 }
    ensures { Linked (related rows.now) n n links.new }
{
    single(n, rows, links);
    for k in 0..n {
        through(n, k, links[k], links);
    }
}

// Whether state s is in a set and returns to itself by turns, with an accepting state met in the first.
#[tactic(auto, unfolding(crate::specs::Table::returning))]
fn comes_back(rows: &[u64; 32], links: &[u64; 32], set: u64, s: usize) -> bool
    requires { s < 32 }
    ensures { result ≡ returning rows.now links.now set s }
{
    has(set, s) && has(gather(links, 0, rows[s] >> 32), s)
}

// Whether from the states of a set, by turns, a state is reached that comes back.
pub fn close_up(n: usize, set: u64, rows: &[u64; 32]) -> bool
    requires { (n ≤ 32) × (set < 4294967296) }
    ensures { Closed n set rows.now result }
{
    let mut links = [0; 32];
    link(n, rows, &mut links);
    let reached = gather(&links, 0, set);
    (0..n).any(|s| comes_back(rows, &links, reached, s))
}

// Whether the rule accepts the tour.
pub fn decide(rule: Rule, stem: &[u8], cycle: &[u8]) -> bool
    requires { Below 128 stem.now × Below 128 cycle.now }
    ensures { result ≡ decided (step_in rule.entry.steps.now) rule.entry.states rule.entry.first (has_bit rule.entry.accept) stem.now cycle.now }
{
    let set = follow(rule, stem);
    let mut rows = [0; 32];
    turn(rule, cycle, &mut rows);
    close_up(rule.states, set, &rows)
}
