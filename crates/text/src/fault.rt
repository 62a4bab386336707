//! What is wrong with a line.
ghost use Rattle.std.specs.Prelude.{◌≡◌};
ghost use Rattle.text.specs.Fault.{number, line_of};

// Its form, the range of its numbers, or that a line before has the same ones; with the line, from 1.
#[derive(Clone, Copy, Debug, PartialEq, Eq)]
pub enum Fault {
    Form(usize),
    Range(usize),
    Doubled(usize),
}

// The number of a fault.
pub fn fault_number(fault: Fault) -> u32
    ensures { result ≡ number fault }
{
    match fault {
        Fault::Form(_) => 2,
        Fault::Range(_) => 3,
        Fault::Doubled(_) => 10,
    }
}

// The line that has it.
pub fn fault_line(fault: Fault) -> usize
    ensures { result ≡ line_of fault }
{
    match fault {
        Fault::Form(line) | Fault::Range(line) | Fault::Doubled(line) => line,
    }
}
