//! Checks proposed tours, and writes a line for each. On standard input a tour comes as three frames: the plan file, the run-in and the
//! loop. The line has number, line, index, accepts, cost and kept.
#![tactic(auto)]

use checker::{check_tour, worth_of};
use plan::{index_of, line_of, number_of};
use std::io;

fn tell(rt: &impl Print, plan: &[u8], runin: &[u8], cycle: &[u8]) -> io::Result<()> {
    let check = check_tour(plan, runin, cycle);
    let worth = worth_of(check);
    let number = number_of(&check);
    let line = line_of(&check);
    let index = index_of(&check);
    let accepts = u32::from(worth.accepts);
    println!(rt;
        "{number} {line} {index} {accepts} {} {}",
        worth.cost, worth.kept
    )
}

// The plan has room for one byte more than the longest, a list for 100,000 places.
fn main(rt: HostRuntime) -> io::Result<()> {
    let mut input = rt.stdin();
    let mut plan = [0u8; 60001];
    let mut runin = [0u8; 110000];
    let mut cycle = [0u8; 110000];
    for _ in 0..frames::MOST {
        let n = frames::next(&mut input, &mut plan).unwrap_or(0);
        let stem = frames::next(&mut input, &mut runin).unwrap_or(0);
        let Some(turn) = frames::next(&mut input, &mut cycle) else {
            break;
        };
        tell(&rt, &plan[..n], &runin[..stem], &cycle[..turn])?;
    }
    Ok(())
}
