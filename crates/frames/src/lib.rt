//! Texts on an input, one after the other, each in a frame: its length in six digits, a line's end, and its bytes.
#![tactic(auto)]

ghost use Rattle.std.specs.Prelude.{◌≡◌, ◌-◌, ◌≤◌, length, take, IfSome};
ghost use Rattle.std.specs.Io.KnownBytes.{Consumes};
ghost use Rattle.frames.specs.Frame.{length_in, Taken, TakenFrom};

use std::io::Read;

// A program takes so many frames at most: nothing says that the input ends, so its loop counts them down.
pub const MOST: u32 = 100000;

fn digit(b: u8) -> usize
    ensures { (result ≡ b - 48) × (result ≤ 207) }
{
    usize::from(b.saturating_sub(b'0'))
}

// The length that the first six bytes say.
fn length_in(head: &[u8; 7]) -> usize
    ensures { result ≡ length_in head.now }
{
    let thousands = digit(head[0]) * 100 + digit(head[1]) * 10 + digit(head[2]);
    let ones = digit(head[3]) * 100 + digit(head[4]) * 10 + digit(head[5]);
    thousands * 1000 + ones
}

// Reads until the buffer is full, the input ends or a read fails; gives how many bytes it put at the buffer's front.
pub fn read_full<R: Read>(input: &mut R, buffer: &mut [u8]) -> usize
    ensures front { result ≤ length buffer.new }
    ensures bytes { Consumes (R.remaining input.old) (R.remaining input.new) (take result buffer.new) }
{
    // A read gives as many bytes as there are: the number of turns is not known.
    let mut done = 0;
    while done < buffer.len() {
        match input.read(&mut buffer[done..]) {
            Ok(0) | Err(_) => break,
            Ok(n) => done += n,
        }
    }
    done
}

// The next frame: how many bytes it has. They go to the front of the buffer, as far as the input has them. There is none where the
// input ends, or where the buffer has no room.
pub fn next<R: Read>(input: &mut R, buffer: &mut [u8]) -> Option<usize>
    ensures taken { Taken result buffer.old buffer.new }
    ensures bytes { IfSome result (λ n. TakenFrom n (R.remaining input.old) (R.remaining input.new) buffer.new) }
{
    let mut head = [0u8; 7];
    let got = read_full(input, &mut head);
    if got < 7 {
        return None;
    }
    let n = length_in(&head);
    if buffer.len() < n {
        return None;
    }
    Some(read_full(input, &mut buffer[..n]))
}
