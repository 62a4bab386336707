//! The same as words of bits: the places that a place leads to, and those that lead to it, 64 to a word.
ghost use Rattle.std.specs.Prelude.{◌≡◌, ◌<◌, length, replicate};
ghost use Rattle.plan.specs.WellFormed.{WellFormed};
ghost use Rattle.roadmap.specs.Words.{single, Gains, Paths};

use crate::each_joined;
use plan::Plan;

// Adds the road from place a to place b.
fn add_road(words: &mut [u64], a: usize, b: usize)
    requires { (length words.old ≡ 256) × (a < 128) × (b < 128) }
    ensures { Gains (single a b) words.old words.new }
{
    words[b / 64 * 128 + a] |= 1u64 << (b % 64);
}

// Puts into two blank tables which place of the plan leads to which: along its roads, and to itself where a place has none that
// leaves it; and the same turned round.
pub fn road_words(p: Plan, roads: &mut [u64], broads: &mut [u64])
    requires { WellFormed p × (roads.old ≡ replicate 256 0) × (broads.old ≡ replicate 256 0) }
    ensures { Paths p roads.new broads.new }
{
    let mut add = |a: usize, b: usize| {
        add_road(roads, a, b);
        add_road(broads, b, a);
    };
    each_joined(&p, &mut add);
}
