//! What packets do, event by event.

ghost use Rattle.std.specs.Prelude.{◌≡◌, Some, IfOk};
ghost use Rattle.hq_chart.specs.Rows.{bar_of, bar_of_stage, copies_shape_if, copies_shape_of, first_ahead};
ghost use Rattle.hq_chart.specs.Rows.{is_ahead, moved, rows_of, shape_of, with_stage};

use crate::shape::{Mark, Phase, Shape};
use hq_events::Event;
use hq_tables::Placed;
use std::alloc::{AllocError, Global};

/// What a packet does, and since which event.
#[derive(Clone, Copy, Debug)]
pub enum Stage {
    /// It isn't launched yet.
    Ahead,
    /// It is launched, and not active yet.
    Waits { since: usize },
    /// It is active.
    Active { since: usize },
    /// It is complete.
    Done,
}

/// A packet's row: its queue, and what it does.
#[derive(Clone, Copy, Debug)]
pub struct Row {
    pub queue: u16,
    pub stage: Stage,
}

impl Row {
    /// Whether it is a packet of this queue that isn't launched yet.
    fn is_ahead(&self, queue: u32) -> bool
        ensures { result ≡ is_ahead queue self.now }
    {
        u32::from(self.queue) == queue && matches!(self.stage, Stage::Ahead)
    }
}

/// The packets' rows before the first event.
pub fn rows_of(alloc: Global, packets: &[Placed]) -> Result<Vec<Row>, AllocError>
    ensures { IfOk result (λ rows. rows.items ≡ rows_of packets.now) }
{
    packets
        .iter()
        .map(|placed| Row {
            queue: placed.queue,
            stage: Stage::Ahead,
        })
        .collect::<Vec<Row>>(alloc)
}

/// The first packet of a queue that isn't launched yet.
fn first_ahead(rows: &[Row], queue: u32) -> Option<usize>
    ensures { result ≡ first_ahead rows.now queue }
{
    rows.iter().position(|row| row.is_ahead(queue))
}

/// Has a packet do something else, if there is such a packet.
fn set_stage(rows: &mut [Row], packet: usize, stage: Stage)
    ensures { rows.new ≡ with_stage rows.old packet stage }
{
    if let Some(row) = rows.get(packet) {
        let queue = row.queue;
        rows[packet] = Row { queue, stage };
    }
}

/// What packets do behind the event of a place.
pub fn advance(rows: &mut [Row], place: usize, event: Event)
    ensures { rows.new ≡ moved rows.old place event }
{
    match event {
        Event::Launch { queue } => {
            if let Some(packet) = first_ahead(rows, queue) {
                set_stage(rows, packet, Stage::Waits { since: place });
            }
        }
        Event::Enter { packet } => {
            set_stage(rows, packet as usize, Stage::Active { since: place })
        }
        Event::Complete { packet } | Event::Finish { packet } => {
            set_stage(rows, packet as usize, Stage::Done)
        }
        _ => {}
    }
}

/// The bar of what a packet does, up to an event.
fn bar_of_stage(stage: Stage, packet: usize, to: usize) -> Option<Shape>
    ensures { result ≡ bar_of_stage stage packet to }
{
    match stage {
        Stage::Waits { since } => Some(Shape::Bar {
            phase: Phase::Waits,
            packet,
            from: since,
            to,
        }),
        Stage::Active { since } => Some(Shape::Bar {
            phase: Phase::Active,
            packet,
            from: since,
            to,
        }),
        _ => None,
    }
}

/// The bar of what a packet does, up to an event, if there is such a packet.
pub fn bar_of(rows: &[Row], packet: usize, to: usize) -> Option<Shape>
    ensures { result ≡ bar_of rows.now packet to }
{
    match rows.get(packet) {
        Some(row) => bar_of_stage(row.stage, packet, to),
        None => None,
    }
}

fn mark_of(mark: Mark, packet: u32, at: usize) -> Option<Shape>
    ensures { result ≡ Some (Shape.Mark mark packet at) }
{
    Some(Shape::Mark {
        mark,
        packet: packet as usize,
        at,
    })
}

fn agent_mark_of(mark: Mark, agent: u32, at: usize) -> Option<Shape>
    ensures { result ≡ Some (Shape.AgentMark mark agent at) }
{
    Some(Shape::AgentMark { mark, agent, at })
}

/// What is drawn of an event of copies.
fn copies_shape_of(place: usize, event: Event) -> Option<Shape>
    ensures { result ≡ copies_shape_of place event }
{
    match event {
        Event::FillLane { packet, .. } => mark_of(Mark::Fills, packet, place),
        Event::PushLane { packet, .. } => mark_of(Mark::Pushes, packet, place),
        Event::DropLane { packet, .. } => mark_of(Mark::Drops, packet, place),
        Event::FillAgent { agent, .. } => agent_mark_of(Mark::Fills, agent, place),
        Event::PushAgent { agent, .. } => agent_mark_of(Mark::Pushes, agent, place),
        Event::DropAgent { agent, .. } => agent_mark_of(Mark::Drops, agent, place),
        _ => None,
    }
}

/// What is drawn of an event of copies where these are asked for.
fn copies_shape_if(copies: bool, place: usize, event: Event) -> Option<Shape>
    ensures { result ≡ copies_shape_if copies place event }
{
    if copies {
        copies_shape_of(place, event)
    } else {
        None
    }
}

/// What is drawn of the event of a place; of one of copies only where these are asked for.
pub fn shape_of(copies: bool, rows: &[Row], place: usize, event: Event) -> Option<Shape>
    ensures { result ≡ shape_of copies rows.now place event }
{
    match event {
        Event::Submit => Some(Shape::Submission { at: place }),
        Event::Observe { packet, .. } => mark_of(Mark::Sees, packet, place),
        Event::Fetch { packet } | Event::Read { packet, .. } => mark_of(Mark::Reads, packet, place),
        Event::Deliver { packet } | Event::Store { packet, .. } => {
            mark_of(Mark::Stores, packet, place)
        }
        Event::Enter { packet } | Event::Complete { packet } | Event::Finish { packet } => {
            bar_of(rows, packet as usize, place)
        }
        Event::FillLane { .. }
        | Event::PushLane { .. }
        | Event::DropLane { .. }
        | Event::FillAgent { .. }
        | Event::PushAgent { .. }
        | Event::DropAgent { .. } => copies_shape_if(copies, place, event),
        Event::Launch { .. } | Event::Rest => None,
    }
}
