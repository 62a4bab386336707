//! Reads texts of answers back, and writes a line for each. On standard input a text comes as the last of three frames; before it
//! stand the run-in buffer and the loop buffer, as they are lent. The line has the number and the line of the reply; number, line,
//! cost, kept and both lengths of what was read; and a sum over each buffer as the call leaves it.
#![tactic(auto)]

ghost use Rattle.std.specs.Prelude.{◌<◌};

use plan::{line_of, number_of};
use readback::{read_answer, record_of};
use std::io;

// The sum with one byte more. By the factor the order of the bytes is seen, and by the one that is added how many zeros there are.
fn grown(sum: u64, b: u8) -> u64
    requires { sum < 65521 }
    ensures { result < 65521 }
{
    (sum * 31 + u64::from(b) + 1) % 65521
}

// A sum over all bytes of a buffer.
fn sum_of(bytes: &[u8]) -> u64 {
    let mut sum: u64 = 1;
    for b in bytes {
        sum = grown(sum, *b);
    }
    sum
}

fn tell(rt: &impl Print, text: &[u8], runin: &mut [u8], cycle: &mut [u8]) -> io::Result<()> {
    let reply = read_answer(text, runin, cycle);
    let x = record_of(reply);
    print!(rt; "{} {} ", number_of(&reply), line_of(&reply))?;
    print!(rt;
        "{} {} {} {} {} {} ",
        x.number, x.line, x.cost, x.kept, x.stem, x.cycle
    )?;
    println!(rt; "{} {}", sum_of(runin), sum_of(cycle))
}

// A buffer has room for 100,000 places, and a text for the longest frame.
fn main(rt: HostRuntime) -> io::Result<()> {
    let mut input = rt.stdin();
    let mut runin = [0u8; 110000];
    let mut cycle = [0u8; 110000];
    let mut text = [0u8; 1000000];
    for _ in 0..frames::MOST {
        let stem = frames::next(&mut input, &mut runin).unwrap_or(0);
        let turn = frames::next(&mut input, &mut cycle).unwrap_or(0);
        let Some(n) = frames::next(&mut input, &mut text) else {
            break;
        };
        tell(&rt, &text[..n], &mut runin[..stem], &mut cycle[..turn])?;
    }
    Ok(())
}
