//! A plan: places with labels, one-way roads, a start, a hard rule and up to eight soft rules with weights.
#![tactic(auto)]

pub mod kind;
pub mod size;

ghost use Rattle.std.specs.Prelude.{◌≡◌, cond, ◌≤◌, ◌<◌};
ghost use Rattle.base.specs.Bits.{bit};
ghost use Rattle.plan.specs.Cost.{keeps, cost_of};
ghost use Rattle.plan.specs.Key.{tie, key_of};
ghost use Rattle.plan.specs.Refusal.{number, line_of, index_of};
ghost use Rattle.plan.specs.Returned as returned;
ghost use Rattle.plan.specs.declared.Refusal.TheVariants.{Line};

use automata::Automaton;
use text::fault::{Fault, fault_line, fault_number};

// A one-way road between two places.
#[derive(Clone, Copy, Debug, PartialEq, Eq)]
pub struct Road {
    pub from: u8,
    pub to: u8,
}

// A plan by value. Place v, for v below `places`, has the label labels[v]; the first `road_count` of `roads` are its roads;
// soft rule i + 1 of the file, for i below `rules`, is soft[i] with the weight weights[i]. Memory is fixed, so a count says how far an array
// goes; the weights are by themselves, since costs and keys read no rule.
#[derive(Clone, Copy)]
pub struct Plan {
    pub marks: u32,
    pub places: u32,
    pub start: u32,
    pub road_count: u32,
    pub rules: u32,
    pub labels: [u8; 128],
    pub roads: [Road; 1024],
    pub hard: Automaton,
    pub soft: [Automaton; 8],
    pub weights: [u32; 8],
}

// Why a plan, the text of an answer or a proposed tour is turned away; what it is numbered, and with which line it comes, is said in specs/Refusal.
#[derive(Clone, Copy, Debug, PartialEq, Eq)]
pub enum Refusal {
    PlanTooLong,
    Line(Fault),
    ProductTooLarge,
    BufferTooShort,
    NoTour,
    BlockTooShort,
    Contradiction,
    Broken(u64),
}

impl From<Fault> for Refusal {
    ghost from_gives = { λ fault r. r ≡ Line fault };

    fn from(fault: Fault) -> Refusal {
        Refusal::Line(fault)
    }
}

// The number of a refusal.
pub fn refusal_number(refusal: Refusal) -> u32
    ensures { result ≡ number refusal }
{
    match refusal {
        Refusal::PlanTooLong => 1,
        Refusal::Line(fault) => fault_number(fault),
        Refusal::ProductTooLarge => 4,
        Refusal::BufferTooShort => 5,
        Refusal::NoTour => 6,
        Refusal::BlockTooShort => 7,
        Refusal::Contradiction => 8,
        Refusal::Broken(_) => 9,
    }
}

// The line that comes with it, 0 where there is none.
pub fn refusal_line(refusal: Refusal) -> usize
    ensures { result ≡ line_of refusal }
{
    match refusal {
        Refusal::Line(fault) => fault_line(fault),
        _ => 0,
    }
}

// The index that comes with it, 0 where there is none.
pub fn refusal_index(refusal: Refusal) -> u64
    ensures { result ≡ index_of refusal }
{
    match refusal {
        Refusal::Broken(index) => index,
        _ => 0,
    }
}

// The number of the refusal that a host is told, 0 where there is none.
pub fn number_of<T>(answer: &Result<T, Refusal>) -> u32
    ensures { result ≡ returned.number_of answer.now }
{
    match answer {
        Ok(_) => 0,
        Err(refusal) => refusal_number(*refusal),
    }
}

// The line that comes with it, 0 where there is none.
pub fn line_of<T>(answer: &Result<T, Refusal>) -> usize
    ensures { result ≡ returned.line_of answer.now }
{
    match answer {
        Ok(_) => 0,
        Err(refusal) => refusal_line(*refusal),
    }
}

// The index that comes with it, 0 where there is none.
pub fn index_of<T>(answer: &Result<T, Refusal>) -> u64
    ensures { result ≡ returned.index_of answer.now }
{
    match answer {
        Ok(_) => 0,
        Err(refusal) => refusal_index(*refusal),
    }
}

// Bit i of a kept byte: 1 where soft rule i + 1 is kept.
fn kept_bit(kept: u64, i: u64) -> u64
    requires { i < 8 }
    ensures { (result ≡ bit kept i) × (result < 2) }
{
    (kept >> i) & 1
}

// The amount that a rule is charged with: nothing where it is kept.
fn left_out(kept: u64, i: u64, amount: u64) -> u64
    requires { i < 8 }
    ensures { (result ≡ cond (keeps kept i) 0 amount) × (result ≤ amount) }
{
    if kept_bit(kept, i) == 1 { 0 } else { amount }
}

// What the first `rules` rules cost that are not kept.
#[tactic(auto, using(crate::proofs::Charging::cost_next), unfolding(crate::specs::Cost::cost_of, base::specs::Below::sum_below))]
pub fn cost_of(weights: &[u32; 8], rules: usize, kept: u64) -> u64
    requires { rules ≤ 8 }
    ensures { (result ≡ cost_of weights.now rules kept) × (result ≤ 34359738368) }
{
    let mut cost: u64 = 0;
    for (i, weight) in weights[..rules].iter().enumerate() {
        cost += left_out(kept, i as u64, u64::from(*weight));
    }
    cost
}

// How the first `rules` rules rank a kept byte among those of its cost.
#[tactic(auto, using(crate::proofs::Charging::tie_next, crate::proofs::Charging::tie_small), unfolding(crate::specs::Key::tie))]
fn tie_of(rules: usize, kept: u64) -> u64
    requires { rules ≤ 8 }
    ensures { (result ≡ tie rules kept) × (result < 256) }
{
    let mut tie = 0;
    for i in 0..rules {
        tie = tie * 2 + left_out(kept, i as u64, 1);
    }
    tie
}

// The key of a kept byte: the smaller, the better.
#[tactic(auto, unfolding(crate::specs::Key::key_of))]
pub fn key_of(weights: &[u32; 8], rules: usize, kept: u64) -> u64
    requires { rules ≤ 8 }
    ensures { result ≡ key_of weights.now rules kept }
{
    cost_of(weights, rules, kept) * 256 + tie_of(rules, kept)
}
