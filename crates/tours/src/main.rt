//! Prints the answers to plan files from standard input, in frames, each as `plantour` does.
#![tactic(auto)]

use std::io;

fn main(rt: HostRuntime) -> io::Result<()> {
    let mut input = rt.stdin();
    let mut room = [0u8; 90240];
    for _ in 0..frames::MOST {
        let Some(n) = frames::next(&mut input, &mut room) else {
            break;
        };
        console::print_answer(&rt, &mut room, n)?;
    }
    Ok(())
}
