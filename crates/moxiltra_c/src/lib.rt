//! The entries of a C host, as `host/plantour.h` declares them: each is the function of that name of crate `moxiltra`, under the
//! same clause. A slice is a pointer and then a length.
#![tactic(auto)]

ghost use Rattle.serve.specs.Upcoming.{Offset};
ghost use Rattle.moxiltra.specs.Entries.{buffers, Promise, Reading, Checking};

// Plans a tour. Returns 0 or the number of the refusal, and fills the first 16 bytes of the answer block. A tour is written
// over the front of run-in and loop buffer; on a refusal no byte of them changes.
#[unsafe(no_mangle)]
pub extern "C" fn plan_tour(
    plan: &[u8],
    block: &mut [u8],
    runin: &mut [u8],
    cycle: &mut [u8],
) -> u32
    ensures { Promise plan.now (buffers block.old runin.old cycle.old) (buffers block.new runin.new cycle.new) result }
{
    moxiltra::plan_tour(plan, block, runin, cycle)
}

// The index at which the places to come from step t on begin: in the run-in if t is below its length, else in the loop; 0
// where the loop is empty.
#[unsafe(no_mangle)]
pub extern "C" fn upcoming_offset(runin: u64, cycle: u64, t: u64) -> u64
    ensures { Offset runin cycle t result }
{
    moxiltra::upcoming_offset(runin, cycle, t)
}

// Reads the text of an answer, as program plantour prints it. Returns 0 or the number of the refusal, and fills the first 32
// bytes of the block. The places are written over the front of run-in and loop buffer; on a refusal no byte of them changes.
#[unsafe(no_mangle)]
pub extern "C" fn read_answer(
    text: &[u8],
    block: &mut [u8],
    runin: &mut [u8],
    cycle: &mut [u8],
) -> u32
    ensures { Reading text.now (buffers block.old runin.old cycle.old) (buffers block.new runin.new cycle.new) result }
{
    moxiltra::read_answer(text, block, runin, cycle)
}

// Checks a proposed tour. Returns 0 or the number of the refusal, and fills the first 24 bytes of the block.
#[unsafe(no_mangle)]
pub extern "C" fn check_tour(plan: &[u8], runin: &[u8], cycle: &[u8], block: &mut [u8]) -> u32
    ensures { Checking plan.now runin.now cycle.now block.old block.new result }
{
    moxiltra::check_tour(plan, runin, cycle, block)
}
