//! checktour PLAN TOUR: checks a tour drawn by hand. PLAN names a plan file, TOUR a text with the lines `runin=` and `loop=` as plantour
//! prints them. Six lines tell what the checker answers, from `number=` to `kept=`. Where there is no plan or no tour to check, a
//! sentence on standard error tells why.
#![tactic(auto)]

ghost use Rattle.std.specs.Prelude.{◌≡◌, ◌≤◌, length, IfOk, OnErr, IfSome};

use checker::{Worth, check_tour, worth_of};
use drawn::{Lack, read_tour};
use frames::read_full;
use plan::{Refusal, index_of, line_of, number_of};
use std::env::{Env, FillError};
use std::io::{Read, Write};
use std::rt::Files;
use std::{fs, io, str};
use text::fault::fault_line;

// The longest text that is read for a tour.
const MOST: usize = 2000000;

// What the system says of a name that is too long, and of one that is no text: no such name can be opened.
const NAME_TOO_LONG: i32 = 36;

const NOT_TEXT: i32 = 84;

fn print_line(rt: &impl Print, key: &str, x: u64) -> io::Result<()> {
    println!(rt; "{key}={x}")
}

fn print_check(rt: &impl Print, check: Result<Worth, Refusal>) -> io::Result<()> {
    let worth = worth_of(check);
    print_line(rt, "number", u64::from(number_of(&check)))?;
    print_line(rt, "line", line_of(&check) as u64)?;
    print_line(rt, "index", index_of(&check))?;
    print_line(rt, "accepts", u64::from(worth.accepts))?;
    print_line(rt, "cost", worth.cost)?;
    print_line(rt, "kept", worth.kept)
}

fn say_long(rt: &impl Eprint) -> io::Result<()> {
    eprintln!(rt; "checktour: the tour is too long")
}

fn say_lack(rt: &impl Eprint, lack: Lack) -> io::Result<()> {
    match lack {
        Lack::Missing => eprintln!(rt; "checktour: no line of the tour begins with runin="),
        Lack::Faulty(fault) => {
            eprintln!(rt;
                "checktour: line {} of the tour has a fault",
                fault_line(fault)
            )
        }
        Lack::Long => say_long(rt),
    }
}

// Says the sentence with the reason of the error, without the number that std puts behind it.
fn say_unread(rt: &impl Eprint, sentence: &str, error: io::Error) -> io::Result<()> {
    let mut told = [0u8; 512];
    write!(&mut told[..], "{error}")?;
    let reason = str::from_utf8(&told)
        .unwrap_or("")
        .split(" (os error ")
        .next()
        .unwrap_or("");
    eprintln!(rt; "{sentence}: {reason}")
}

// Checks the tour of a text, by way of the buffers.
fn check_text<R: Print + Eprint>(
    rt: &R,
    plan: &[u8],
    text: &[u8],
    runin: &mut [u8],
    cycle: &mut [u8],
) -> io::Result<()> {
    match read_tour(text, runin, cycle) {
        Ok(x) => print_check(rt, check_tour(plan, &runin[..x.stem], &cycle[..x.cycle])),
        Err(lack) => say_lack(rt, lack),
    }
}

// Opens the file that argument i names. A folder is told by a read of no byte.
fn open_file<R: Env + Files>(rt: &R, i: usize) -> io::Result<R::File> {
    let mut name = [0u8; 4096];
    let Ok(n) = rt.arg(i, &mut name) else {
        return Err(io::Error::from_raw_os_error(NAME_TOO_LONG));
    };
    let Ok(path) = str::from_utf8(&name[..n]) else {
        return Err(io::Error::from_raw_os_error(NOT_TEXT));
    };
    let mut file = fs::open(rt, path)?;
    file.read(&mut [])?;
    Ok(file)
}

// Reads the file that argument i names, as far as the buffer has room; gives how many bytes it has. Where it cannot be read, the
// sentence is said with the reason.
fn read_file<R: Env + Files + Eprint>(
    rt: &R,
    i: usize,
    sentence: &str,
    buffer: &mut [u8],
) -> io::Result<Option<usize>>
    ensures ok { IfOk result (λ f. IfSome f (λ n. n ≤ length buffer.new)) }
    ensures err { OnErr result (buffer.new ≡ buffer.old) }
{
    match open_file(rt, i) {
        Ok(mut file) => Ok(Some(read_full(&mut file, buffer))),
        Err(error) => {
            say_unread(rt, sentence, error)?;
            Ok(None)
        }
    }
}

// Plan and text have room for one byte more than the longest: of a longer file no more is read.
fn check_files<R: Env + Files + Print + Eprint>(
    rt: &R,
    plan: &mut [u8; 60001],
    text: &mut [u8; 2000001],
    runin: &mut [u8; 1000000],
    cycle: &mut [u8; 1000000],
) -> io::Result<()> {
    let Some(p) = read_file(rt, 1, "checktour: the plan cannot be read", plan)? else {
        return Ok(());
    };
    let Some(t) = read_file(rt, 2, "checktour: the tour cannot be read", text)? else {
        return Ok(());
    };
    if MOST < t {
        return say_long(rt);
    }
    check_text(rt, &plan[..p], &text[..t], runin, cycle)
}

// Whether there is an argument i, however long it is.
fn has_arg(rt: &impl Env, i: usize) -> bool {
    !matches!(rt.arg(i, &mut []), Err(FillError::NotPresent))
}

fn main(rt: HostRuntime) -> io::Result<()> {
    if !has_arg(&rt, 2) || has_arg(&rt, 3) {
        return eprintln!(rt; "usage: checktour PLAN TOUR");
    }
    let mut plan = [0u8; 60001];
    let mut text = [0u8; 2000001];
    let mut runin = [0u8; 1000000];
    let mut cycle = [0u8; 1000000];
    check_files(&rt, &mut plan, &mut text, &mut runin, &mut cycle)
}
