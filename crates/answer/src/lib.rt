//! What the planner answers: as the sixteen bytes of the answer block, and as the six lines of a text.
#![tactic(auto)]

ghost use Rattle.std.specs.Prelude.{◌≡◌, ◌++◌, ◌+◌, ◌*◌, ◌≤◌, length, drop};
ghost use Rattle.text.specs.Over.{Wrote};
ghost use Rattle.answer.specs.Block.{little, head_of, block_of};
ghost use Rattle.answer.specs.Text.{figures, text_of};

use text::write::{put_list_line, put_number_line};

// An answer but for its places, by the numbers that a C host and a text are told: `number` is 0 for a tour, else that of the refusal, and `line`
// the faulty line of the plan or 0. `count` is how many soft rules `kept` keeps, `stem` and `cycle` are the lengths of run-in and loop.
#[derive(Clone, Copy)]
pub struct Answer {
    pub number: u32,
    pub line: u32,
    pub cost: u32,
    pub kept: u32,
    pub count: u32,
    pub stem: u32,
    pub cycle: u32,
}

// The n lowest bytes of x, the lowest first, from `at` on.
pub fn put_little(block: &mut [u8], at: usize, n: usize, x: u64)
    requires { at + n ≤ length block.old }
    ensures { Wrote block.old at (little n x) block.new (at + n) }
{
    let mut rest = x;
    for byte in block[at..at + n].iter_mut() {
        *byte = (rest % 256) as u8;
        rest /= 256;
    }
}

// The first 12 bytes of a block of numbers; `third` is what byte 2 says there.
pub fn put_head(block: &mut [u8], number: u32, kept: u64, third: u64, line: usize, cost: u64)
    requires { 12 ≤ length block.old }
    ensures { Wrote block.old 0 (head_of number kept third line cost) block.new 12 }
{
    put_little(block, 0, 1, u64::from(number));
    put_little(block, 1, 1, kept);
    put_little(block, 2, 1, third);
    put_little(block, 3, 1, 0);
    put_little(block, 4, 4, line as u64);
    put_little(block, 8, 4, cost);
}

// The answer block (01, "For the host and for the rig"): the first 16 bytes of `block`. Its later bytes are unchanged.
pub fn put_block(a: Answer, block: &mut [u8])
    requires { 16 ≤ length block.old }
    ensures { block.new ≡ block_of a ++ drop 16 block.old }
{
    put_head(
        block,
        a.number,
        u64::from(a.kept),
        u64::from(a.count),
        a.line as usize,
        u64::from(a.cost),
    );
    put_little(block, 12, 2, u64::from(a.stem));
    put_little(block, 14, 2, u64::from(a.cycle));
}

// The four lines that hold a number.
fn put_figures(a: Answer, out: &mut [u8]) -> usize
    requires { length (figures a) ≤ length out.old }
    ensures { Wrote out.old 0 (figures a) out.new result }
{
    let mut at = put_number_line(out, 0, b"answer=", a.number);
    at = put_number_line(out, at, b"line=", a.line);
    at = put_number_line(out, at, b"cost=", a.cost);
    put_number_line(out, at, b"kept=", a.kept)
}

// The six lines of program plantour (01, "For the host and for the rig"), over the first bytes of `out`; gives how many.
// The later bytes of `out` are unchanged. Four bytes are room for a place with its comma.
pub fn write_text(a: Answer, runin: &[u8], cycle: &[u8], out: &mut [u8]) -> usize
    requires { 128 + 4 * (length runin.now + length cycle.now) ≤ length out.old }
    ensures value { result ≡ length (text_of a runin.now cycle.now) }
    ensures out_after { out.new ≡ text_of a runin.now cycle.now ++ drop result out.old }
{
    let mut at = put_figures(a, out);
    at = put_list_line(out, at, b"runin=", runin);
    put_list_line(out, at, b"loop=", cycle)
}
