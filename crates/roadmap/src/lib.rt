//! Which place of a plan leads to which, as a table, for all that look it up.
#![tactic(auto)]

pub mod words;

ghost use Rattle.std.specs.Prelude.{◌≡◌, ℕ, ◌+◌, ◌≤◌, ◌<◌, length};
ghost use Rattle.std.specs.List.{FoldsTo};
ghost use Rattle.plan.specs.WellFormed.{WellFormed};
ghost use Rattle.roadmap.specs.Chart.{charted};
ghost use Rattle.roadmap.specs.Joined.{AtPair, pairs};

use plan::Plan;

// Calls `join` with each two places that are joined, one after the other: along each road, and with a place twice where no road leaves it.
fn each_joined<F: FnMut(usize, usize)>(p: &Plan, join: &mut F)
    requires well_formed { WellFormed p.now }
    requires ready { (xs : _) (f : F) → FoldsTo (AtPair F.step) join.old xs f → (a b : ℕ) → a < 128 → b < 128 → F.pre f a b }
    ensures { FoldsTo (AtPair F.step) join.old (pairs p.now) join.new }
{
    let mut exits = [false; 128];
    for road in &p.roads[..p.road_count as usize] {
        let a = usize::from(road.from);
        exits[a] = true;
        join(a, usize::from(road.to));
    }
    for (a, has_exit) in exits[..p.places as usize].iter().enumerate() {
        if !*has_exit {
            join(a, a);
        }
    }
}

// Puts into a table of 128 rows of 128 bytes, which begins at `at`, which place leads to which: along the plan's roads, and to itself
// where a place has none that leaves it.
pub fn chart(p: Plan, at: usize, table: &mut [u8])
    requires { WellFormed p × (at + 16384 ≤ length table.old) }
    ensures { table.new ≡ charted p at table.old }
{
    let mut mark = |u: usize, v: usize| {
        table[at + (u * 128 + v)] = 1;
    };
    each_joined(&p, &mut mark);
}
