//! Pairs of places, each noted by a bit.
ghost use Rattle.std.specs.Prelude.{◌≡◌, ◌<◌, length};
ghost use Rattle.reader.specs.Pairs.{noted, noting};

use automata::{has, one};

// Whether the pair a, b is noted.
pub fn noted(pairs: &[u32], a: usize, b: usize) -> bool
    requires { (length pairs.now ≡ 512) × (a < 128) × (b < 128) }
    ensures { result ≡ noted pairs.now a b }
{
    let i = a * 128 + b;
    has(u64::from(pairs[i / 32]), i % 32)
}

// Notes it.
pub fn note(pairs: &mut [u32], a: usize, b: usize)
    requires { (length pairs.old ≡ 512) × (a < 128) × (b < 128) }
    ensures { pairs.new ≡ noting pairs.old a b }
{
    let i = a * 128 + b;
    pairs[i / 32] |= one(i % 32) as u32;
}
