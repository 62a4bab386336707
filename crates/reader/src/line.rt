//! Lines of a plan file that hold more than one number.
ghost use Rattle.std.specs.Prelude.{◌≡◌, ◌≤◌, length};
ghost use Rattle.reader.specs.Pairs.{noted_of};
ghost use Rattle.text.specs.Line.{after};
ghost use Rattle.reader.specs.Line.{road_fits, road_from, two_numbers, move_fits, move_from, five_numbers, RoadRead, MoveRead};

use crate::pairs::{note, noted};
use text::fault::Fault;
use text::line::{Cursor, Line, Numbers, bad_form, judged, pair};
use text::read::{line_at, number_at, number_behind};

fn road_fits(xs: Numbers, bound: u32) -> bool
    ensures { result ≡ road_fits xs bound }
{
    xs.first < bound && xs.second < bound
}

// The two numbers behind the key that stands at index `from`, and the index behind them.
fn two_numbers(s: &[u8], from: usize, key: &[u8]) -> Option<(Numbers, usize)>
    ensures { result ≡ two_numbers s.now from key.now }
{
    let (x, at) = number_behind(s, from, key, b',')?;
    let (y, at) = number_at(s, at, b'\n')?;
    Some((pair(x, y), at))
}

// A line `key=a,b`, both below `bound` and not a pair that is noted, behind the line that ended with `prior`. If it has no fault, its
// pair is noted.
pub fn road_line(
    s: &[u8],
    prior: Result<Cursor, Fault>,
    key: &[u8],
    bound: u32,
    pairs: &mut [u32],
) -> Line
    requires { (bound ≤ 128) × (length pairs.old ≡ 512) }
    ensures { RoadRead (after prior (λ at. road_from s.now at key.now bound (noted_of pairs.old))) bound pairs.old result pairs.new }
{
    let from = prior?.at;
    let Some((xs, at)) = two_numbers(s, from, key) else {
        return Err(bad_form(s, from));
    };
    if !road_fits(xs, bound) {
        return Err(Fault::Range(line_at(s, from)));
    }
    let x = xs.first as usize;
    let y = xs.second as usize;
    let again = noted(pairs, x, y);
    note(pairs, x, y);
    if again {
        Err(Fault::Doubled(line_at(s, from)))
    } else {
        Ok((xs, Cursor { at }))
    }
}

fn move_fits(xs: Numbers, states: u32, labels: u32) -> bool
    ensures { result ≡ move_fits xs states labels }
{
    xs.first < states
        && xs.second < labels
        && xs.third < labels
        && xs.fourth < labels
        && xs.fifth < states
}

// The numbers of a move behind the key that stands at index `from`, any 0 where there are four, and the index behind them.
fn five_numbers(s: &[u8], from: usize, key: &[u8]) -> Option<(Numbers, usize)>
    ensures { result ≡ five_numbers s.now from key.now }
{
    let (first, at) = number_behind(s, from, key, b',')?;
    let (second, at) = number_at(s, at, b',')?;
    let (third, at) = number_at(s, at, b',')?;
    if let Some((fifth, next)) = number_at(s, at, b'\n') {
        let xs = Numbers {
            first,
            second,
            third,
            fourth: 0,
            fifth,
        };
        return Some((xs, next));
    }
    let (fourth, at) = number_at(s, at, b',')?;
    let (fifth, at) = number_at(s, at, b'\n')?;
    let xs = Numbers {
        first,
        second,
        third,
        fourth,
        fifth,
    };
    Some((xs, at))
}

// A line `key=q,need,bar,r` or `key=q,need,bar,any,r`, behind the line that ended with `prior`: q and r are below `states`, the others
// below `labels`.
pub fn move_line(
    s: &[u8],
    prior: Result<Cursor, Fault>,
    key: &[u8],
    states: u32,
    labels: u32,
) -> Line
    requires { (states ≤ 4000000000) × (labels ≤ 4000000000) }
    ensures { MoveRead (after prior (λ at. move_from s.now at key.now states labels)) states labels result }
{
    let from = prior?;
    let Some((xs, at)) = five_numbers(s, from.at, key) else {
        return Err(bad_form(s, from.at));
    };
    judged(s, from.at, at, move_fits(xs, states, labels), xs)
}
