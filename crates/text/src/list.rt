//! Lists of numbers in a text, joined by commas: a line that holds one is read, and its numbers are written out as bytes.
ghost use Rattle.std.specs.Prelude.{◌≡◌, cond, ◌++◌, ◌+◌, ◌≤◌, ◌<◌, ltb, length, drop};
ghost use Rattle.text.specs.Line.{after, told};
ghost use Rattle.text.specs.List.{entries, items_at, list_from, places_of};
ghost use Rattle.text.specs.Runs.{Stands, Ran, listing};

use crate::fault::Fault;
use crate::line::{Cursor, bad_form, judged};
use crate::read::{key_at, number_at};

// Where the first number of a list stands, and how many it has.
#[derive(Clone, Copy, Debug, PartialEq, Eq)]
pub struct Span {
    pub at: usize,
    pub count: usize,
}

// How many numbers there are, whether all are below the bound, and the index behind them. A number above the bound does not end a
// list, as a bad form further on comes first: so `fit` stands beside the rest.
#[derive(Clone, Copy, Debug, PartialEq, Eq)]
pub struct Run {
    pub count: usize,
    pub fit: bool,
    pub next: usize,
}

// The numbers from index `at` on that are each ended by a comma.
fn run_at(s: &[u8], at: usize, bound: u32) -> Run
    requires { bound ≤ 4000000000 }
    ensures { Ran s.now at bound result }
{
    let mut fit = true;
    let mut next = at;
    for count in 0..s.len() {
        let Some((x, i)) = number_at(s, next, b',') else {
            return Run { count, fit, next };
        };
        fit = fit && x < bound;
        next = i;
    }
    Run {
        count: s.len(),
        fit,
        next,
    }
}

// The numbers from index `at` on, joined by commas; there is at least one.
fn entries_at(s: &[u8], at: usize, bound: u32) -> Option<Run>
    requires { bound ≤ 4000000000 }
    ensures { result ≡ listing bound (entries (length s.now) s.now at) }
{
    let run = run_at(s, at, bound);
    let (x, next) = number_at(s, run.next, b'\n')?;
    Some(Run {
        count: run.count + 1,
        fit: run.fit && x < bound,
        next,
    })
}

// The list at index `at`, which may be empty.
fn list_at(s: &[u8], at: usize, bound: u32) -> Option<Run>
    requires { bound ≤ 4000000000 }
    ensures { result ≡ listing bound (items_at s.now at) }
{
    if at < s.len() && s[at] == b'\n' {
        return Some(Run {
            count: 0,
            fit: true,
            next: at + 1,
        });
    }
    entries_at(s, at, bound)
}

// A line `key=a,b,..`, every number below `bound`, behind the line that ended with `prior`: its list, and the next cursor.
pub fn list_line(
    s: &[u8],
    prior: Result<Cursor, Fault>,
    key: &[u8],
    bound: u32,
) -> Result<(Span, Cursor), Fault>
    requires { bound ≤ 4000000000 }
    ensures { result ≡ after prior (λ at. let x = list_from s.now at key.now bound in told x.line x.list) }
{
    let from = prior?;
    let Some(at) = key_at(s, from.at, key) else {
        return Err(bad_form(s, from.at));
    };
    let Some(run) = list_at(s, at, bound) else {
        return Err(bad_form(s, from.at));
    };
    let list = Span {
        at,
        count: run.count,
    };
    judged(s, from.at, run.next, run.fit, list)
}

// The byte that ends the number n of a list of so many.
fn ender(n: usize, count: usize) -> u8
    requires { n < count }
    ensures { result ≡ cond (ltb (n + 1) count) 44 10 }
{
    if n + 1 < count { b',' } else { b'\n' }
}

// The numbers of a list over the first bytes of `out`.
pub fn put_list(s: &[u8], list: Span, out: &mut [u8])
    requires stands { Stands s.now list }
    requires count_in_bounds { list.count ≤ length out.old }
    ensures { out.new ≡ places_of s.now list ++ drop list.count out.old }
{
    let mut next = list.at;
    for n in 0..list.count {
        let Some((x, i)) = number_at(s, next, ender(n, list.count)) else {
            return;
        };
        out[n] = (x % 256) as u8;
        next = i;
    }
}
