// A rule laid out over the places.
ghost use Rattle.std.specs.Prelude.{◌^◌, ℕ, ◌≤◌, ◌<◌, slice_index};

// Entry v * 32 + q of `steps` is the set of the states to which state q leads at place v. Bit q of `accept` is set where state q accepts.
#[derive(Clone, Copy)]
pub struct Rule<'a> {
    pub steps: &'a [u64; 4096],
    pub states: usize,
    pub first: usize,
    pub accept: u64,
    pub places: usize,
    ghost few: { states ≤ 16 },
    ghost begins: { first < states },
    ghost accepting: { accept < 2 ^ states },
    ghost near: { places ≤ 128 },
    ghost narrow: { (t : ℕ) → slice_index steps.now t < 2 ^ states },
}
