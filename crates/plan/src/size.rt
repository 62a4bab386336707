//! The size of the product that a plan is searched in, and the bound on it: 2,048.
ghost use Rattle.std.specs.Prelude.{◌≡◌, ◌*◌, ◌≤◌, min};
ghost use Rattle.plan.specs.Size.{size, Sized};

use crate::Plan;

// n times a factor, held at 2,049.
fn grown(n: u32, factor: u64) -> u32
    requires { (n ≤ 2049) × (factor ≤ 4294967296) }
    ensures { (result ≡ min (n * factor) 2049) × (result ≤ 2049) }
{
    u64::min(u64::from(n) * factor, 2049) as u32
}

// The size of the product, held at 2,049.
fn held_size(plan: Plan) -> usize
    requires { plan.rules ≤ 8 }
    ensures { result ≡ min (size plan) 2049 }
{
    let mut n = grown(
        grown(1, u64::from(plan.places)),
        u64::from(plan.hard.states),
    );
    for a in &plan.soft[..plan.rules as usize] {
        n = grown(n, u64::from(a.states) + 1);
    }
    n as usize
}

// How many nodes the product has, or nothing where it is too large to be planned in.
pub fn size_of(plan: Plan) -> Option<usize>
    requires { plan.rules ≤ 8 }
    ensures { Sized plan result }
{
    let nodes = held_size(plan);
    if 2048 < nodes { None } else { Some(nodes) }
}
