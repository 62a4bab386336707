//! Reads plan files from standard input, in frames, and writes, for each, the number of its outcome and the line that comes
//! with it. A plan whose product is too large is no plan here.
#![tactic(auto)]

use plan::size::size_of;
use plan::{Refusal, line_of, number_of};
use std::io;

// The refusal of a plan file, or its number of nodes.
fn size_in(text: &[u8]) -> Result<usize, Refusal> {
    size_of(reader::read_plan(text)?).ok_or(Refusal::ProductTooLarge)
}

fn tell(rt: &impl Print, text: &[u8]) -> io::Result<()> {
    let size = size_in(text);
    println!(rt; "{} {}", number_of(&size), line_of(&size))
}

fn main(rt: HostRuntime) -> io::Result<()> {
    let mut input = rt.stdin();
    let mut buffer = [0u8; 65536];
    for _ in 0..frames::MOST {
        let Some(n) = frames::next(&mut input, &mut buffer) else {
            break;
        };
        tell(&rt, &buffer[..n])?;
    }
    Ok(())
}
