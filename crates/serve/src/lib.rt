//! The places that come next.
#![tactic(auto)]

ghost use Rattle.std.specs.Prelude.{◌≡◌};
ghost use Rattle.serve.specs.Upcoming.{upcoming_places, Offset};

// The index at which the places to come from step t on begin: in the stem if t is below its length, else in the cycle. It
// is 0 where the cycle is empty.
pub fn offset(stem: u64, cycle: u64, t: u64) -> u64
    ensures { Offset stem cycle t result }
{
    if t < stem {
        return t;
    }
    if cycle == 0 {
        return 0;
    }
    (t - stem) % cycle
}

// The places to come from step t on, as a part of the caller's stem or cycle, so that none is copied. The stem is
// followed by the cycle for ever; the part ends where the stem or this turn of the cycle does, and is empty where an
// empty cycle leaves nothing to come.
pub fn upcoming<'a>(stem: &'a [u8], cycle: &'a [u8], t: u64) -> &'a [u8]
    ensures { result.now ≡ upcoming_places stem.now cycle.now t }
{
    let places = stem.len() as u64;
    let at = offset(places, cycle.len() as u64, t) as usize;
    if t < places {
        return &stem[at..];
    }
    &cycle[at..]
}
