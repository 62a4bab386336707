//! Tours as people write them down: a text with a line `runin=` and a line `loop=` behind it, as program plantour prints them. Lines
//! before these two are passed over, and what follows them is not looked at.
#![tactic(auto)]

ghost use Rattle.std.specs.Prelude.{◌≡◌, true, ◌&&◌, eqb, length, drop, unwrap_or};
ghost use Rattle.text.specs.Scan.{starts_with};
ghost use Rattle.drawn.specs.declared.Lack.TheVariants.{Faulty};
ghost use Rattle.drawn.specs.Drawing.{line_with, draft_at, drafted, roomy, fitting, read_tour, runin_of, loop_of, written};

use text::fault::Fault;
use text::line::Cursor;
use text::list::{Span, list_line, put_list};
use text::read::key_at;

// How many places run-in and loop have. (`drive` has lengths of its own: no crate below both knows of tours.)
#[derive(Clone, Copy, Debug, PartialEq, Eq)]
pub struct Lengths {
    pub stem: usize,
    pub cycle: usize,
}

// Why a text has no tour: no line begins with `runin=`; a line has a fault; or a list has more places than its buffer has room for.
#[derive(Clone, Copy, Debug, PartialEq, Eq)]
pub enum Lack {
    Missing,
    Faulty(Fault),
    Long,
}

impl From<Fault> for Lack {
    ghost from_gives = { λ fault r. r ≡ Faulty fault };

    fn from(fault: Fault) -> Lack {
        Lack::Faulty(fault)
    }
}

// Where the places of the two lines stand.
#[derive(Clone, Copy)]
pub struct Draft {
    pub stem: Span,
    pub cycle: Span,
}

// Whether a line begins at index `at`, and begins with the key.
fn begins(s: &[u8], at: usize, fresh: bool, key: &[u8]) -> bool
    ensures { result ≡ (fresh && starts_with key.now (drop at s.now)) }
{
    fresh && key_at(s, at, key).is_some()
}

// The index of the first line that begins with the key, if there is one.
fn line_with(s: &[u8], key: &[u8]) -> Option<usize>
    ensures { result ≡ line_with key.now true 0 s.now }
{
    let mut fresh = true;
    for (i, b) in s.iter().enumerate() {
        if begins(s, i, fresh, key) {
            return Some(i);
        }
        fresh = *b == b'\n';
    }
    None
}

// The line `runin=` at index `at`, and the line `loop=` behind it.
fn draft_at(s: &[u8], at: usize) -> Result<Draft, Fault>
    ensures { result ≡ drafted (draft_at s.now at) }
{
    let (stem, cursor) = list_line(s, Ok(Cursor { at }), b"runin=", 256)?;
    let (cycle, _) = list_line(s, Ok(cursor), b"loop=", 256)?;
    Ok(Draft { stem, cycle })
}

// Whether buffers of these lengths have room for so many places. (`readback` asks the same of its record: two tests, no plainer as a trait.)
fn roomy(x: Lengths, runin: usize, cycle: usize) -> bool
    ensures { result ≡ roomy x runin cycle }
{
    x.stem <= runin && x.cycle <= cycle
}

// The tour of lines that have no fault.
#[tactic(auto, unfolding(crate::specs::Drawing::fitting))]
fn fitting(x: Lengths, runin: usize, cycle: usize) -> Result<Lengths, Lack>
    ensures { result ≡ fitting x runin cycle }
{
    if roomy(x, runin, cycle) {
        Ok(x)
    } else {
        Err(Lack::Long)
    }
}

// Reads the tour of a text: its places over the front of run-in and loop, and how many there are; or why there is none, with no byte
// touched.
pub fn read_tour(s: &[u8], runin: &mut [u8], cycle: &mut [u8]) -> Result<Lengths, Lack>
    ensures value { result ≡ read_tour s.now (length runin.old) (length cycle.old) }
    ensures runin_after { runin.new ≡ written result (runin_of s.now) runin.old }
    ensures cycle_after { cycle.new ≡ written result (loop_of s.now) cycle.old }
{
    let Some(at) = line_with(s, b"runin=") else {
        return Err(Lack::Missing);
    };
    let draft = draft_at(s, at)?;
    let x = Lengths {
        stem: draft.stem.count,
        cycle: draft.cycle.count,
    };
    let tour = fitting(x, runin.len(), cycle.len())?;
    put_list(s, draft.stem, runin);
    put_list(s, draft.cycle, cycle);
    Ok(tour)
}
