//! The map of a plan file: its lines through the last road.
ghost use Rattle.std.specs.Prelude.{◌≡◌, ◌≤◌, IfOk};
ghost use Rattle.text.specs.Line.{told};
ghost use Rattle.reader.specs.Map.{map_of};

use crate::block::{label_block, label_count, road_block};
use plan::Road;
use text::fault::Fault;
use text::line::{Cursor, line_of_one, top};

// Places with labels, the start and the roads. The fields are a plan's.
#[derive(Clone, Copy)]
pub struct Map {
    pub marks: u32,
    pub places: u32,
    pub start: u32,
    pub road_count: u32,
    pub labels: [u8; 128],
    pub roads: [Road; 1024],
}

pub fn read_map(s: &[u8]) -> Result<(Map, Cursor), Fault>
    ensures value { let m = map_of s.now in result ≡ told m.line m.map }
    ensures marks { IfOk result (λ x. x.0.marks ≤ 8) }
{
    let (_, cursor) = line_of_one(s, Ok(top()), b"tour=", 1, 2)?;
    let (marks, cursor) = line_of_one(s, Ok(cursor), b"marks=", 0, 9)?;
    let (places, cursor) = line_of_one(s, Ok(cursor), b"places=", 1, 129)?;
    let (labels, cursor) = label_block(s, cursor, places as usize, label_count(marks))?;
    let (start, cursor) = line_of_one(s, Ok(cursor), b"start=", 0, places)?;
    let (road_count, cursor) = line_of_one(s, Ok(cursor), b"roads=", 0, 1025)?;
    let (roads, cursor) = road_block(s, cursor, road_count as usize, places)?;
    let map = Map {
        marks,
        places,
        start,
        road_count,
        labels,
        roads,
    };
    Ok((map, cursor))
}
