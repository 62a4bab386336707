//! Reads a plan on standard input and prints its answer: six lines, from `answer=` to `loop=`.
#![tactic(auto)]

use std::io;

// One byte more than the longest plan has is taken: of a longer input no more is read, and it is refused.
fn main(rt: HostRuntime) -> io::Result<()> {
    let mut room = [0u8; 90240];
    let n = frames::read_full(&mut rt.stdin(), &mut room[..60001]);
    console::print_answer(&rt, &mut room, n)
}
