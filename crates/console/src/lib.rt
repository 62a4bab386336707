//! Plan files answered in text.
#![tactic(auto)]

ghost use Rattle.std.specs.Prelude.{◌+◌, ◌*◌, ◌≤◌, length, take};
ghost use Rattle.console.specs.Printed.{Printed};

use answer::write_text;
use planner::file_answer;
use std::io;

// The six lines that answer a plan file, from `answer=` to `loop=`; gives how many bytes they have. The file is the first n bytes of `room`, and
// its answer goes over the first bytes of it: once a tour is in its buffers the file is not needed any more.
pub fn answer_text(room: &mut [u8], n: usize, runin: &mut [u8], cycle: &mut [u8]) -> usize
    requires { (n ≤ length room.old) × (128 + 4 * (length runin.old + length cycle.old) ≤ length room.old) }
    ensures { Printed (take n room.old) runin.old cycle.old runin.new cycle.new room.old room.new result }
{
    let a = file_answer(&room[..n], runin, cycle);
    let stem = a.stem as usize;
    let turn = a.cycle as usize;
    write_text(a, &runin[..stem], &cycle[..turn], room)
}

// Prints what the planner answers to a plan file, which is the first n bytes of `room`; its answer is written there, too. Run-in and
// loop have room for every tour, so that refusal 5 is never given.
pub fn print_answer(rt: &impl Print, room: &mut [u8; 90240], n: usize) -> io::Result<()>
    requires { n ≤ 90240 }
{
    let mut runin = [0u8; 2048];
    let mut cycle = [0u8; 20480];
    let size = answer_text(room, n, &mut runin, &mut cycle);
    rt.write_all(&room[..size])
}
