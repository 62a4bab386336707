//! The reader of a plan file: the plan, or why it is turned away.
#![tactic(auto)]

mod block;
pub mod line;
pub mod map;
mod pairs;

ghost use Rattle.std.specs.Prelude.{◌≡◌};
ghost use Rattle.reader.specs.Reading.{draft_of, read_plan, lines_read};

use block::{hard_block, label_count, soft_blocks};
use map::{Map, read_map};
use plan::{Plan, Refusal};
use text::fault::Fault;
use text::line::{finish, line_of_one};

// The plan that the lines of a whole plan file make, or the first fault of a line.
fn read_lines(s: &[u8]) -> Result<Plan, Fault>
    ensures { result ≡ lines_read s.now }
{
    let (map, cursor) = read_map(s)?;
    let Map {
        marks,
        places,
        start,
        road_count,
        labels,
        roads,
    } = map;
    let bound = label_count(marks);
    let (hard, cursor) = hard_block(s, cursor, bound)?;
    let (rules, cursor) = line_of_one(s, Ok(cursor), b"rules=", 0, 9)?;
    let ((soft, weights), cursor) = soft_blocks(s, cursor, rules as usize, bound)?;
    finish(s, Ok(cursor))?;
    Ok(Plan {
        marks,
        places,
        start,
        road_count,
        rules,
        labels,
        roads,
        hard,
        soft,
        weights,
    })
}

// The plan file in s: more than 60,000 bytes are turned away unread, then the first faulty line decides.
pub fn read_plan(s: &[u8]) -> Result<Plan, Refusal>
    ensures { result ≡ read_plan s.now }
{
    if 60000 < s.len() {
        return Err(Refusal::PlanTooLong);
    }
    read_lines(s).map_err(Refusal::Line)
}
