//! Blocks of lines: labels, roads, moves, and the automata of the hard rule and of the soft rules. Each is read from a cursor, and
//! gives what was read with the next one; the first fault ends it.
ghost use Rattle.std.specs.Prelude.{◌≡◌, ◌^◌, ◌≤◌, Ok};
ghost use Rattle.text.specs.Line.{told};
ghost use Rattle.text.specs.declared.line.Numbers.{Numbers};
ghost use Rattle.automata.specs.Automaton.{no_move};
ghost use Rattle.automata.specs.WellFormed.{no_automaton};
ghost use Rattle.reader.specs.Blocks.{label_block, road_block, move_block, automaton_block, hard_block, soft_block, soft_blocks};

use crate::line::{move_line, road_line};
use automata::{Automaton, Move};
use plan::Road;
use text::fault::Fault;
use text::line::{Cursor, line_of_one};

// The labels of n places, each below `bound`.
pub fn label_block(
    s: &[u8],
    from: Cursor,
    n: usize,
    bound: u32,
) -> Result<([u8; 128], Cursor), Fault>
    requires { (n ≤ 128) × (bound ≤ 256) }
    ensures { (xs : Numbers) → let b = label_block s.now (Ok (xs, from)) n bound in result ≡ told b.line b.labels }
{
    let mut cursor = from;
    let mut labels = [0; 128];
    for label in &mut labels[..n] {
        let (x, next) = line_of_one(s, Ok(cursor), b"label=", 0, bound)?;
        *label = x as u8;
        cursor = next;
    }
    Ok((labels, cursor))
}

// n roads between places below `bound`, each once.
pub fn road_block(
    s: &[u8],
    from: Cursor,
    n: usize,
    bound: u32,
) -> Result<([Road; 1024], Cursor), Fault>
    requires { (n ≤ 1024) × (bound ≤ 128) }
    ensures { (xs : Numbers) → let b = road_block s.now (Ok (xs, from)) n bound in result ≡ told b.line b.roads }
{
    let mut cursor = from;
    let mut roads = [Road { from: 0, to: 0 }; 1024];
    let mut pairs = [0; 512];
    for road in &mut roads[..n] {
        let (xs, next) = road_line(s, Ok(cursor), b"road=", bound, &mut pairs)?;
        *road = Road {
            from: xs.first as u8,
            to: xs.second as u8,
        };
        cursor = next;
    }
    Ok((roads, cursor))
}

// A move of zeros.
fn no_move() -> Move
    ensures { result ≡ no_move }
{
    Move {
        from: 0,
        need: 0,
        bar: 0,
        any: 0,
        to: 0,
    }
}

// n moves between states below `states`, under labels below `labels`.
pub fn move_block(
    s: &[u8],
    from: Cursor,
    n: usize,
    states: u32,
    labels: u32,
) -> Result<([Move; 64], Cursor), Fault>
    requires { (n ≤ 64) × (states ≤ 256) × (labels ≤ 256) }
    ensures { (xs : Numbers) → let b = move_block s.now (Ok (xs, from)) n states labels in result ≡ told b.line b.moves }
{
    let mut cursor = from;
    let mut moves = [no_move(); 64];
    for m in &mut moves[..n] {
        let (xs, next) = move_line(s, Ok(cursor), b"move=", states, labels)?;
        *m = Move {
            from: xs.first as u8,
            need: xs.second as u8,
            bar: xs.third as u8,
            any: xs.fourth as u8,
            to: xs.fifth as u8,
        };
        cursor = next;
    }
    Ok((moves, cursor))
}

// 2 to the m.
pub fn power(m: u32) -> u32
    requires { m ≤ 16 }
    ensures { (result ≡ 2 ^ m) × (result ≤ 65536) }
{
    1 << m
}

// How many labels m marks can make.
pub fn label_count(m: u32) -> u32
    requires { m ≤ 8 }
    ensures { (result ≡ 2 ^ m) × (result ≤ 256) }
{
    power(m)
}

// The lines of an automaton of so many states behind the one that says it: first, accept, moves and the moves.
pub fn automaton_block(
    s: &[u8],
    from: Cursor,
    states: u32,
    labels: u32,
) -> Result<(Automaton, Cursor), Fault>
    requires { (states ≤ 16) × (labels ≤ 256) }
    ensures { (xs : Numbers) → let b = automaton_block s.now (Ok (xs, from)) states labels in result ≡ told b.line b.automaton }
{
    let (first, cursor) = line_of_one(s, Ok(from), b"first=", 0, states)?;
    let (accept, cursor) = line_of_one(s, Ok(cursor), b"accept=", 0, power(states))?;
    let (move_count, cursor) = line_of_one(s, Ok(cursor), b"moves=", 0, 65)?;
    let (moves, cursor) = move_block(s, cursor, move_count as usize, states, labels)?;
    let automaton = Automaton {
        states,
        first,
        accept,
        move_count,
        moves,
    };
    Ok((automaton, cursor))
}

// The hard rule.
pub fn hard_block(s: &[u8], from: Cursor, labels: u32) -> Result<(Automaton, Cursor), Fault>
    requires { labels ≤ 256 }
    ensures { (xs : Numbers) → let b = hard_block s.now (Ok (xs, from)) labels in result ≡ told b.line b.automaton }
{
    let (states, cursor) = line_of_one(s, Ok(from), b"hard=", 1, 17)?;
    automaton_block(s, cursor, states, labels)
}

// One soft rule: its automaton and its weight.
pub fn soft_block(s: &[u8], from: Cursor, labels: u32) -> Result<((Automaton, u32), Cursor), Fault>
    requires { labels ≤ 256 }
    ensures { (xs : Numbers) → let b = soft_block s.now (Ok (xs, from)) labels in result ≡ told b.line (b.automaton, b.weight) }
{
    let (states, cursor) = line_of_one(s, Ok(from), b"soft=", 1, 9)?;
    let (weight, cursor) = line_of_one(s, Ok(cursor), b"weight=", 0, 4000001)?;
    let (automaton, cursor) = automaton_block(s, cursor, states, labels)?;
    Ok(((automaton, weight), cursor))
}

pub fn no_automaton() -> Automaton
    ensures { result ≡ no_automaton }
{
    Automaton {
        states: 0,
        first: 0,
        accept: 0,
        move_count: 0,
        moves: [no_move(); 64],
    }
}

// n soft rules: their automata and their weights.
pub fn soft_blocks(
    s: &[u8],
    from: Cursor,
    n: usize,
    labels: u32,
) -> Result<(([Automaton; 8], [u32; 8]), Cursor), Fault>
    requires { (n ≤ 8) × (labels ≤ 256) }
    ensures { (xs : Numbers) → let b = soft_blocks s.now (Ok (xs, from)) n labels in result ≡ told b.line (b.soft, b.weights) }
{
    let mut cursor = from;
    let mut soft = [no_automaton(); 8];
    let mut weights = [0; 8];
    // By index: a rule goes to two arrays.
    for i in 0..n {
        let ((automaton, weight), next) = soft_block(s, cursor, labels)?;
        soft[i] = automaton;
        weights[i] = weight;
        cursor = next;
    }
    Ok(((soft, weights), cursor))
}
