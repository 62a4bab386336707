//! A line of a text, read: its numbers with the next cursor, or its fault. A line is read behind the line before, of which it is
//! told the cursor or the fault: that fault is handed on, so that the first of a sequence of lines decides.
ghost use Rattle.std.specs.Prelude.{◌≡◌, ◌≤◌};
ghost use Rattle.text.specs.Line.{pair, bad_form, judged, within, after, one_from, OneRead, start, ended};

use crate::fault::Fault;
use crate::read::{line_at, number_behind};

// Where the next line begins.
#[derive(Clone, Copy, Debug, PartialEq, Eq)]
pub struct Cursor {
    pub at: usize,
}

// The numbers of a line in their order, 0 where it has fewer.
#[derive(Clone, Copy, Debug, PartialEq, Eq)]
pub struct Numbers {
    pub first: u32,
    pub second: u32,
    pub third: u32,
    pub fourth: u32,
    pub fifth: u32,
}

pub type Line = Result<(Numbers, Cursor), Fault>;

// Two numbers.
pub fn pair(x: u32, y: u32) -> Numbers
    ensures { result ≡ pair x y }
{
    Numbers {
        first: x,
        second: y,
        third: 0,
        fourth: 0,
        fifth: 0,
    }
}

// What is wrong with the line at index `from` if it has a bad form.
pub fn bad_form(s: &[u8], from: usize) -> Fault
    ensures { result ≡ bad_form s.now from }
{
    Fault::Form(line_at(s, from))
}

// The line at index `from` of good form, with the next one at index `at`: what was read of it, if its numbers fit their ranges.
pub fn judged<T: Copy>(
    s: &[u8],
    from: usize,
    at: usize,
    fit: bool,
    x: T,
) -> Result<(T, Cursor), Fault>
    ensures { result ≡ judged s.now from at fit x }
{
    if fit {
        Ok((x, Cursor { at }))
    } else {
        Err(Fault::Range(line_at(s, from)))
    }
}

#[tactic(auto, unfolding(crate::specs::Line::within))]
fn within(x: u32, low: u32, bound: u32) -> bool
    ensures { result ≡ within x low bound }
{
    low <= x && x < bound
}

// A line `key=a` with a from `low` to below `bound`, behind the line that ended with `prior`: the number a, and the next cursor.
pub fn line_of_one(
    s: &[u8],
    prior: Result<Cursor, Fault>,
    key: &[u8],
    low: u32,
    bound: u32,
) -> Result<(u32, Cursor), Fault>
    requires { bound ≤ 4000000000 }
    ensures { OneRead (after prior (λ at. one_from s.now at key.now low bound)) bound result }
{
    let from = prior?;
    let Some((x, at)) = number_behind(s, from.at, key, b'\n') else {
        return Err(bad_form(s, from.at));
    };
    judged(s, from.at, at, within(x, low, bound), x)
}

// Before the first line.
pub fn top() -> Cursor
    ensures { result ≡ start }
{
    Cursor { at: 0 }
}

// Whether the text ends behind the line that ended with `last`, as a line that is still there has a bad form.
pub fn finish(s: &[u8], last: Result<Cursor, Fault>) -> Result<(), Fault>
    ensures { result ≡ after last (ended s.now) }
{
    let end = last?;
    if end.at < s.len() {
        return Err(bad_form(s, end.at));
    }
    Ok(())
}
