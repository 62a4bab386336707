//! Tours drawn by hand: whether a proposed tour is one of the plan, whether the hard rule accepts it, what it keeps and what it costs.
#![tactic(auto)]

ghost use Rattle.std.specs.Prelude.{◌≡◌, ◌++◌, ◌≤◌, ◌<◌, length, drop};
ghost use Rattle.checker.specs.Block.{block_of};
ghost use Rattle.plan.specs.Cost.{KeptIs};
ghost use Rattle.plan.specs.WellFormed.{WellFormed};
ghost use Rattle.checker.specs.Check.{worth_of, Worthy, RuledOf, CheckOf};
ghost use Rattle.acceptance.specs.Rule.{Usable, Judged};
ghost use Rattle.checker.specs.Worth.{Known, KeptBit};

use acceptance::accepts;
use answer::{put_head, put_little};
use automata::Automaton;
use plan::size::size_of;
use plan::{Plan, Refusal, cost_of, index_of, line_of, number_of};
use reader::read_plan;
use scan::first_break;

pub mod scan;

// What a tour is worth: whether the hard rule accepts it, the soft rules that do as bits, and its cost.
#[derive(Clone, Copy, Debug, Default, PartialEq, Eq)]
pub struct Worth {
    pub accepts: bool,
    pub kept: u64,
    pub cost: u64,
}

// What the tour is worth; all of it is 0 on a refusal.
pub fn worth_of(check: Result<Worth, Refusal>) -> Worth
    ensures { result ≡ worth_of check }
{
    check.unwrap_or_default()
}

// A tour of a plan, drawn in places of the plan.
#[derive(Clone, Copy)]
struct Tour<'a> {
    plan: Plan,
    stem: &'a [u8],
    cycle: &'a [u8],
    ghost well: { WellFormed plan },
    ghost known: { Known plan stem.now cycle.now },
}

impl Tour<'_> {
    // Whether a rule accepts it.
    fn accepted_by(&self, a: Automaton) -> bool
        requires { Usable a }
        ensures { Judged a self.now.plan.labels self.now.stem.now self.now.cycle.now result }
    {
        accepts(
            a,
            &self.plan.labels,
            self.plan.places as usize,
            self.stem,
            self.cycle,
        )
    }

    // Bit i of its kept byte: `weight`, its power of 2, where soft rule i + 1 accepts it.
    fn kept_of(&self, i: usize, weight: u64) -> u64
        requires { i < self.now.plan.rules }
        ensures { KeptBit self.now.plan self.now.stem.now self.now.cycle.now i weight result }
    {
        if self.accepted_by(self.plan.soft[i]) {
            weight
        } else {
            0
        }
    }

    // Its kept byte.
    fn kept(&self) -> u64
        ensures { KeptIs self.now.plan self.now.stem.now self.now.cycle.now result }
    {
        let mut kept = 0;
        let mut weight = 1;
        for i in 0..self.plan.rules as usize {
            kept += self.kept_of(i, weight);
            weight *= 2;
        }
        kept
    }

    // What it is worth.
    fn worth(&self) -> Worth
        ensures { Worthy self.now.plan self.now.stem.now self.now.cycle.now result }
    {
        let accepts = self.accepted_by(self.plan.hard);
        let kept = self.kept();
        let cost = cost_of(&self.plan.weights, self.plan.rules as usize, kept);
        Worth {
            accepts,
            kept,
            cost,
        }
    }
}

// The answer to a plan that was read: the refusal of a product that is too large or of a tour that breaks, or what the tour is worth.
fn check_plan(p: Plan, stem: &[u8], cycle: &[u8]) -> Result<Worth, Refusal>
    requires { WellFormed p }
    ensures { RuledOf (Ok p) stem.now cycle.now result }
{
    if size_of(p).is_none() {
        return Err(Refusal::ProductTooLarge);
    }
    match first_break(p, stem, cycle) {
        Some(i) => Err(Refusal::Broken(i)),
        None => {
            let tour = Tour {
                plan: p,
                stem,
                cycle,
            };
            Ok(tour.worth())
        }
    }
}

// The answer to a plan file and a proposed tour.
pub fn check_tour(plan: &[u8], runin: &[u8], cycle: &[u8]) -> Result<Worth, Refusal>
    ensures { CheckOf plan.now runin.now cycle.now result }
{
    check_plan(read_plan(plan)?, runin, cycle)
}

// The block of a check: the first 24 bytes of `block`. Its later bytes are unchanged.
pub fn put_check(check: Result<Worth, Refusal>, block: &mut [u8])
    requires { 24 ≤ length block.old }
    ensures { block.new ≡ block_of check ++ drop 24 block.old }
{
    let worth = worth_of(check);
    put_head(
        block,
        number_of(&check),
        worth.kept,
        u64::from(worth.accepts),
        line_of(&check),
        worth.cost,
    );
    put_little(block, 12, 4, 0);
    put_little(block, 16, 8, index_of(&check));
}
