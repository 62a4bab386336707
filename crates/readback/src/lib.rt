//! The reader of an answer's text: what program plantour printed, back as numbers and places, or why it is turned away.
#![tactic(auto)]

ghost use Rattle.std.specs.Prelude.{◌≡◌, ◌&&◌, ◌++◌, ◌≤◌, eqb, ltb, length, drop};
ghost use Rattle.text.specs.Line.{told, first_of};
ghost use Rattle.plan.specs.Answers.{blank};
ghost use Rattle.readback.specs.Reading.{known, answer_from, draft_of, drafted, agrees, roomy, judge, read_answer, runin_of, loop_of, written};
ghost use Rattle.readback.specs.Reply.{record_of};
ghost use Rattle.readback.specs.Block.{block_of};

use answer::{put_head, put_little};
use plan::kind::{Kind, kind_of};
use plan::{Refusal, line_of, number_of};
use text::fault::Fault;
use text::line::{Cursor, bad_form, finish, judged, line_of_one, top};
use text::list::{Span, list_line, put_list};
use text::read::number_behind;

// What the text of an answer says: the answer's number, the line of the plan, cost, kept, and how many places run-in and
// loop have.
#[derive(Clone, Copy, Debug, Default, PartialEq, Eq)]
pub struct Record {
    pub number: u32,
    pub line: u32,
    pub cost: u32,
    pub kept: u32,
    pub stem: usize,
    pub cycle: usize,
}

// What the lines of a whole text make: the record, and where the places stand.
#[derive(Clone, Copy)]
pub struct Draft {
    pub says: Record,
    pub stem: Span,
    pub cycle: Span,
}

// Whether this is the number of an answer that plantour gives.
fn known(number: u32) -> bool
    ensures { result ≡ known number }
{
    kind_of(number) != Kind::Never
}

// The line `answer=n`: its number, and the next cursor.
fn answer_line(s: &[u8], from: Cursor) -> Result<(u32, Cursor), Fault>
    ensures { let l = answer_from s.now from.at in result ≡ told l (first_of l) }
{
    let Some((x, at)) = number_behind(s, from.at, b"answer=", b'\n') else {
        return Err(bad_form(s, from.at));
    };
    judged(s, from.at, at, known(x), x)
}

fn read_lines(s: &[u8]) -> Result<Draft, Fault>
    ensures { result ≡ drafted (draft_of s.now) }
{
    let (number, cursor) = answer_line(s, top())?;
    let (line, cursor) = line_of_one(s, Ok(cursor), b"line=", 0, 65536)?;
    let (cost, cursor) = line_of_one(s, Ok(cursor), b"cost=", 0, 32000001)?;
    let (kept, cursor) = line_of_one(s, Ok(cursor), b"kept=", 0, 256)?;
    let (stem, cursor) = list_line(s, Ok(cursor), b"runin=", 128)?;
    let (cycle, cursor) = list_line(s, Ok(cursor), b"loop=", 128)?;
    finish(s, Ok(cursor))?;
    let says = Record {
        number,
        line,
        cost,
        kept,
        stem: stem.count,
        cycle: cycle.count,
    };
    Ok(Draft { says, stem, cycle })
}

fn blank(x: Record) -> bool
    ensures { result ≡ blank x.cost x.kept x.stem x.cycle }
{
    x.cost == 0 && x.kept == 0 && x.stem == 0 && x.cycle == 0
}

// Whether the numbers of a record do not contradict each other: a tour has line 0 and a loop; a refusal without a line has line 0
// and blanks, one with a line has another line and blanks.
fn agrees(x: Record) -> bool
    ensures { result ≡ agrees x }
{
    match kind_of(x.number) {
        Kind::Tour => x.line == 0 && 0 < x.cycle,
        Kind::Plain => x.line == 0 && blank(x),
        Kind::Lined => 0 < x.line && blank(x),
        Kind::Never => false,
    }
}

// Whether buffers of these lengths have room for the places.
fn roomy(x: Record, runin: usize, cycle: usize) -> bool
    ensures { result ≡ roomy x runin cycle }
{
    x.stem <= runin && x.cycle <= cycle
}

// What a record whose lines have no fault is answered with: the buffers have room, and then its numbers agree.
#[tactic(auto, unfolding(crate::specs::Reading::judge))]
fn judge(x: Record, runin: usize, cycle: usize) -> Result<Record, Refusal>
    ensures { result ≡ judge x runin cycle }
{
    if !roomy(x, runin, cycle) {
        return Err(Refusal::BufferTooShort);
    }
    if !agrees(x) {
        return Err(Refusal::Contradiction);
    }
    Ok(x)
}

// Reads the text of an answer: its record, with the places over the front of run-in and loop; or why it is turned away,
// with no byte touched.
pub fn read_answer(s: &[u8], runin: &mut [u8], cycle: &mut [u8]) -> Result<Record, Refusal>
    ensures value { result ≡ read_answer s.now (length runin.old) (length cycle.old) }
    ensures runin_after { runin.new ≡ written result (runin_of s.now) runin.old }
    ensures cycle_after { cycle.new ≡ written result (loop_of s.now) cycle.old }
{
    let draft = read_lines(s)?;
    let says = judge(draft.says, runin.len(), cycle.len())?;
    put_list(s, draft.stem, runin);
    put_list(s, draft.cycle, cycle);
    Ok(says)
}

// What was read; all of it is 0 on a refusal.
pub fn record_of(reply: Result<Record, Refusal>) -> Record
    ensures { result ≡ record_of reply }
{
    reply.unwrap_or_default()
}

// The block of a reply: the first 32 bytes of `block`. Its later bytes are unchanged.
pub fn put_reply(reply: Result<Record, Refusal>, block: &mut [u8])
    requires { 32 ≤ length block.old }
    ensures { block.new ≡ block_of reply ++ drop 32 block.old }
{
    let x = record_of(reply);
    put_head(
        block,
        number_of(&reply),
        u64::from(x.kept),
        u64::from(x.number),
        line_of(&reply),
        u64::from(x.cost),
    );
    put_little(block, 12, 4, u64::from(x.line));
    put_little(block, 16, 8, x.stem as u64);
    put_little(block, 24, 8, x.cycle as u64);
}
