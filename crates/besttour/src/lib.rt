//! The tour of the best component: what a plan comes to once the component is found.
#![tactic(auto)]

ghost use Rattle.std.specs.Prelude.{length};
ghost use Rattle.promise.specs.Promise.{Planned};
ghost use Rattle.search.specs.Desk.{Room, AsLong};
ghost use Rattle.besttour.specs.Tables.{Rooms, Lists, Targeted};

use answer::Answer;
use choice::{Choice, kept_of};
use drive::drive;
use nodes::arcs::Arcs;
use plan::{Plan, Refusal};
use promise::{refusal_answer, tour_answer};
use search::desk::Desk;

// The product's start node and how many nodes it reaches; a node, the colours and the number of nodes of the best component, if there is one.
#[derive(Clone, Copy)]
pub struct Target {
    pub start: usize,
    pub reached: usize,
    pub best: Option<Choice>,
}

// The tour of the best component, driven into the buffers; or the refusal where there is no component to choose.
pub fn drive_best(
    p: Plan,
    forth: &Arcs,
    back: &Arcs,
    t: Target,
    colours: &[u16],
    order: &[u16],
    members: &[u16],
    desk: &mut Desk,
    runin: &mut [u8],
    cycle: &mut [u8],
) -> Answer
    requires target { Targeted p forth.now back.now colours.now order.now members.now t }
    requires lists { Lists back.now order.now members.now }
    requires room { Room back.now desk.old }
    requires rooms { Rooms p (length runin.old) (length cycle.old) }
    ensures long { AsLong desk.old desk.new }
    ensures planned { Planned p runin.old cycle.old runin.new cycle.new result }
{
    let Some(best) = t.best else {
        return refusal_answer(Refusal::NoTour);
    };
    let lengths = drive(
        forth,
        back,
        colours,
        t.start,
        best.node,
        p.rules as usize + 1,
        best.mask as usize,
        &order[..t.reached],
        &members[..best.size],
        desk,
        runin,
        cycle,
    );
    tour_answer(p, kept_of(best.mask), lengths.stem, lengths.cycle)
}
