//! What a host calls: the entries of the library, on numbers and byte slices. Crate `moxiltra_c` exports them to C.
#![tactic(auto)]

ghost use Rattle.serve.specs.Upcoming.{Offset};
ghost use Rattle.moxiltra.specs.Entries.{buffers, Promise, Reading, Checking};

use answer::put_block;
use checker::put_check;
use plan::{Refusal, number_of, refusal_number};
use planner::file_answer;
use readback::put_reply;

// Plans a tour. Returns 0 or the number of the refusal, and fills the first 16 bytes of the answer block. A tour is written
// over the front of run-in and loop buffer; on a refusal no byte of them changes.
#[tactic(auto, using(crate::proofs::Blocks::block_short, crate::proofs::Blocks::block_told))]
pub fn plan_tour(plan: &[u8], block: &mut [u8], runin: &mut [u8], cycle: &mut [u8]) -> u32
    ensures { Promise plan.now (buffers block.old runin.old cycle.old) (buffers block.new runin.new cycle.new) result }
{
    if block.len() < 16 {
        return refusal_number(Refusal::BlockTooShort);
    }
    let a = file_answer(plan, runin, cycle);
    put_block(a, block);
    a.number
}

// The index at which the places to come from step t on begin: in the run-in if t is below its length, else in the loop; 0
// where the loop is empty.
pub fn upcoming_offset(runin: u64, cycle: u64, t: u64) -> u64
    ensures { Offset runin cycle t result }
{
    serve::offset(runin, cycle, t)
}

// Reads the text of an answer, as program plantour prints it. Returns 0 or the number of the refusal, and fills the first 32
// bytes of the block. The places are written over the front of run-in and loop buffer; on a refusal no byte of them changes.
#[tactic(auto, using(crate::proofs::Blocks::reply_short, crate::proofs::Blocks::reply_told))]
pub fn read_answer(text: &[u8], block: &mut [u8], runin: &mut [u8], cycle: &mut [u8]) -> u32
    ensures { Reading text.now (buffers block.old runin.old cycle.old) (buffers block.new runin.new cycle.new) result }
{
    if block.len() < 32 {
        return refusal_number(Refusal::BlockTooShort);
    }
    let reply = readback::read_answer(text, runin, cycle);
    put_reply(reply, block);
    number_of(&reply)
}

// Checks a proposed tour. Returns 0 or the number of the refusal, and fills the first 24 bytes of the block.
#[tactic(auto, using(crate::proofs::Blocks::check_short, crate::proofs::Blocks::check_told))]
pub fn check_tour(plan: &[u8], runin: &[u8], cycle: &[u8], block: &mut [u8]) -> u32
    ensures { Checking plan.now runin.now cycle.now block.old block.new result }
{
    if block.len() < 24 {
        return refusal_number(Refusal::BlockTooShort);
    }
    let check = checker::check_tour(plan, runin, cycle);
    put_check(check, block);
    number_of(&check)
}
