//! The parts of a picture as text.

ghost use Rattle.std.specs.Prelude.{◌≡◌, ◌+◌, ◌<◌, ◌^◌, OnOk, Some, option_map, slice_get, length, codes};
ghost use Rattle.std.specs.Io.KnownBytes.{Appends};
ghost use Rattle.hq_chart.specs.Chart.{agent_label, agent_line, agents_drawn, agent_text, height_of, host_text};
ghost use Rattle.hq_chart.specs.Chart.{outline_text, size_text, legend_text, opening_text, end_line, end_note};
ghost use Rattle.hq_chart.specs.Chart.{end_text, agents_text, bar_text, label_of, label_text, mark_text, left_text};
ghost use Rattle.hq_chart.specs.Chart.{part_text, head_text, phase_word, rows_text, refusal_text, shape_text};
ghost use Rattle.hq_chart.specs.Chart.{events_text};
ghost use Rattle.hq_chart.specs.Rows.{rows_after};

use crate::rows::{Row, advance, bar_of, shape_of};
use crate::shape::{Mark, Phase, Shape};
use crate::spots::{Spot, agent_line, agents_drawn, height_of, spot_of};
use hq_events::Event;
use hq_job::Job;
use hq_report::ShownPacket;
use hq_text::Name;
use std::io::Write;
use std::{fmt, io};

/// How the picture looks, and what its signs mean.
const STYLES: &[u8] = b"<style>text{font:11px monospace}path{fill:none;stroke:#000}\
      .w{stroke-dasharray:3 2}.a{fill:#56b4e9;fill-opacity:.4}\
      .r{fill:#fff;stroke:#000}.x{stroke:#d55e00;stroke-width:2}</style>\n\
      <rect x='-160' width='100%' height='100%' fill='#fff'/>\n\
      <text x='-156' y='14'>dashed: launched; filled: active; ring: reads;</text>\n\
      <text x='-156' y='28'>dot: stores; tick: a signal at 0, a submission;</text>\n\
      <text x='-156' y='42'>v: a copy is taken, ^: written back, x: dropped</text>\n";

impl fmt::Display for Phase {
    ghost output = { λ p. Some (phase_word p) };

    fn fmt<W: fmt::Write>(&self, f: &mut fmt::Formatter<W>) -> fmt::Result {
        match self {
            Phase::Waits => f.write_str("w"),
            Phase::Active => f.write_str("a"),
        }
    }
}

/// The outline of a bar.
#[derive(Clone, Copy, Debug)]
struct Outline {
    from: usize,
    to: usize,
    y: usize,
}

impl fmt::Display for Outline {
    ghost output = { λ o. Some (outline_text o.from o.to o.y) };

    fn fmt<W: fmt::Write>(&self, f: &mut fmt::Formatter<W>) -> fmt::Result {
        let from = self.from;
        let to = self.to;
        let y = self.y;
        write!(f, "M{from}0 {y}m0-5v10H{to}0v-10z")
    }
}

/// A bar in a row.
#[derive(Clone, Copy, Debug)]
struct BarText {
    phase: Phase,
    outline: Outline,
    shown: ShownPacket,
}

impl fmt::Display for BarText {
    ghost output = { λ b. Some (bar_text b.phase b.outline b.shown) };

    fn fmt<W: fmt::Write>(&self, f: &mut fmt::Formatter<W>) -> fmt::Result {
        let phase = self.phase;
        let outline = self.outline;
        let shown = self.shown;
        write!(
            f,
            "<path class='{phase}' d='{outline}'><title>{shown}</title></path>\n"
        )
    }
}

/// A mark in a row.
#[derive(Clone, Copy, Debug)]
struct MarkText {
    mark: Mark,
    at: usize,
    y: usize,
}

impl fmt::Display for MarkText {
    ghost output = { λ m. Some (mark_text m.mark m.at m.y) };

    fn fmt<W: fmt::Write>(&self, f: &mut fmt::Formatter<W>) -> fmt::Result {
        let at = self.at;
        let y = self.y;
        match self.mark {
            Mark::Sees => write!(f, "<path d='M{at}0 {y}v-7'/>\n"),
            Mark::Reads => write!(f, "<circle class='r' cx='{at}0' cy='{y}' r='3'/>\n"),
            Mark::Stores => write!(f, "<circle cx='{at}0' cy='{y}' r='3'/>\n"),
            Mark::Fills => write!(f, "<path d='M{at}0 {y}m-3-3l3 6 3-6'/>\n"),
            Mark::Pushes => write!(f, "<path d='M{at}0 {y}m-3 3l3-6 3 6'/>\n"),
            Mark::Drops => write!(f, "<path d='M{at}0 {y}m-3-3l6 6m-6 0l6-6'/>\n"),
        }
    }
}

/// Writes a shape.
fn write_shape<W: Write>(writer: &mut W, job: &Job, shape: Shape) -> io::Result<()>
    ensures { OnOk result (Appends (W.contents writer.old) (W.contents writer.new) (shape_text job.now shape)) }
{
    match shape {
        Shape::Submission { at } => write!(writer, "<path d='M{at}0 50v8'/>\n"),
        Shape::Bar {
            phase,
            packet,
            from,
            to,
        } => match spot_of(job, packet) {
            Some(spot) => {
                let bar = BarText {
                    phase,
                    outline: Outline {
                        from,
                        to,
                        y: spot.y,
                    },
                    shown: spot.shown,
                };
                write!(writer, "{bar}")
            }
            None => Ok(()),
        },
        Shape::AgentMark { mark, agent, at } => {
            let y = agent_line(job, agent as usize);
            let mark = MarkText { mark, at, y };
            write!(writer, "{mark}")
        }
        Shape::Mark { mark, packet, at } => match spot_of(job, packet) {
            Some(spot) => {
                let mark = MarkText {
                    mark,
                    at,
                    y: spot.y,
                };
                write!(writer, "{mark}")
            }
            None => Ok(()),
        },
    }
}

/// Writes a shape where there is one.
fn write_part<W: Write>(writer: &mut W, job: &Job, shape: Option<Shape>) -> io::Result<()>
    ensures { OnOk result (Appends (W.contents writer.old) (W.contents writer.new) (part_text job.now shape)) }
{
    match shape {
        Some(shape) => write_shape(writer, job, shape),
        None => Ok(()),
    }
}

/// How large the picture is.
#[derive(Clone, Copy, Debug)]
struct SizeText {
    width: usize,
    height: usize,
}

impl fmt::Display for SizeText {
    ghost output = { λ s. Some (size_text s.width s.height) };

    fn fmt<W: fmt::Write>(&self, f: &mut fmt::Formatter<W>) -> fmt::Result {
        let width = self.width;
        let height = self.height;
        write!(
            f,
            "width='{width}0' height='{height}' viewBox='-160 0 {width}0 {height}'"
        )
    }
}

/// Writes the label of the host's row, which is there where queues are rings.
fn write_host<W: Write>(writer: &mut W, rings: bool) -> io::Result<()>
    ensures { OnOk result (Appends (W.contents writer.old) (W.contents writer.new) (host_text rings)) }
{
    if rings {
        writer.write_all(b"<text x='-156' y='58'>host</text>\n")
    } else {
        Ok(())
    }
}

/// Writes how the picture looks, and the label of the host's row.
fn write_legend<W: Write>(writer: &mut W, rings: bool) -> io::Result<()>
    ensures { OnOk result (Appends (W.contents writer.old) (W.contents writer.new) (legend_text rings)) }
{
    writer.write_all(STYLES)?;
    write_host(writer, rings)
}

/// How wide the picture is, in events.
fn width_of(events: &[Event]) -> usize
    ensures { result ≡ length events.now + 40 }
{
    events.len() + 40
}

/// The tag that opens the picture.
#[derive(Clone, Copy, Debug)]
struct Opening(SizeText);

impl fmt::Display for Opening {
    ghost output = { λ o. Some (opening_text o.0.width o.0.height) };

    fn fmt<W: fmt::Write>(&self, f: &mut fmt::Formatter<W>) -> fmt::Result {
        let size = self.0;
        write!(f, "<svg xmlns='http://www.w3.org/2000/svg' {size}>\n")
    }
}

/// Writes the tag that opens the picture.
fn write_opening<W: Write>(
    writer: &mut W,
    job: &Job,
    copies: bool,
    events: &[Event],
) -> io::Result<()>
    ensures { OnOk result
        (Appends (W.contents writer.old) (W.contents writer.new)
        (opening_text (length events.now + 40) (height_of job.now copies))) }
{
    let opening = Opening(SizeText {
        width: width_of(events),
        height: height_of(job, copies),
    });
    write!(writer, "{opening}")
}

/// Writes how the picture begins: its size, by how many events it has, and what its signs mean.
pub fn write_head<W: Write>(
    writer: &mut W,
    job: &Job,
    copies: bool,
    events: &[Event],
) -> io::Result<()>
    ensures { OnOk result
        (Appends (W.contents writer.old) (W.contents writer.new) (head_text job.now copies (length events.now))) }
{
    write_opening(writer, job, copies, events)?;
    write_legend(writer, job.rings())
}

/// A row's number and its queue's name.
#[derive(Clone, Copy, Debug)]
struct LabelText(Spot);

impl fmt::Display for LabelText {
    ghost output = { λ l. Some (label_of l.0) };

    fn fmt<W: fmt::Write>(&self, f: &mut fmt::Formatter<W>) -> fmt::Result {
        let y = self.0.y;
        let shown = self.0.shown;
        let number = self.0.shown.number;
        let queue = self.0.shown.queue;
        write!(
            f,
            "<text x='-156' y='{y}' dy='4'>{number} {queue}<title>{shown}</title></text>\n"
        )
    }
}

/// Writes a row's label.
fn write_label<W: Write>(writer: &mut W, job: &Job, packet: usize) -> io::Result<()>
    ensures { OnOk result (Appends (W.contents writer.old) (W.contents writer.new) (label_text job.now packet)) }
{
    match spot_of(job, packet) {
        Some(spot) => {
            let label = LabelText(spot);
            write!(writer, "{label}")
        }
        None => Ok(()),
    }
}

/// Writes the rows' labels.
pub fn write_rows<W: Write>(writer: &mut W, job: &Job) -> io::Result<()>
    ensures { OnOk result
        (Appends (W.contents writer.old) (W.contents writer.new) (rows_text job.now (length job.now.packets))) }
{
    for packet in 0..job.packets().len() {
        write_label(writer, job, packet)?;
    }
    Ok(())
}

/// An agent's row: its name, and how far it lies below the upper edge.
#[derive(Clone, Copy, Debug)]
struct AgentText {
    name: Name,
    y: usize,
}

impl fmt::Display for AgentText {
    ghost output = { λ a. Some (agent_text a.name a.y) };

    fn fmt<W: fmt::Write>(&self, f: &mut fmt::Formatter<W>) -> fmt::Result {
        let name = self.name;
        let y = self.y;
        write!(f, "<text x='-156' y='{y}' dy='4'>agent {name}</text>\n")
    }
}

/// What is written of an agent's row, if the job has the agent.
fn agent_of(job: &Job, agent: usize) -> Option<AgentText>
    requires { agent < 2 ^ 32 }
    ensures { result ≡ option_map (λ name. record { name = name; y = agent_line job.now agent })
        (slice_get job.now.agents agent) }
{
    let name = job.agent_names().get(agent)?;
    Some(AgentText {
        name: *name,
        y: agent_line(job, agent),
    })
}

/// Writes an agent's label.
fn write_agent<W: Write>(writer: &mut W, job: &Job, agent: usize) -> io::Result<()>
    requires { agent < 2 ^ 32 }
    ensures { OnOk result (Appends (W.contents writer.old) (W.contents writer.new) (agent_label job.now agent)) }
{
    match agent_of(job, agent) {
        Some(text) => write!(writer, "{text}"),
        None => Ok(()),
    }
}

/// Writes the labels of agents' rows, which are there where copies are asked for.
pub fn write_agents<W: Write>(writer: &mut W, job: &Job, copies: bool) -> io::Result<()>
    ensures { OnOk result
        (Appends (W.contents writer.old) (W.contents writer.new) (agents_text job.now (agents_drawn job.now copies))) }
{
    for agent in 0..agents_drawn(job, copies) {
        write_agent(writer, job, agent)?;
    }
    Ok(())
}

/// Writes the shapes of events, of those of copies only where these are asked for.
pub fn write_events<W: Write>(
    writer: &mut W,
    job: &Job,
    copies: bool,
    rows: &mut [Row],
    events: &[Event],
) -> io::Result<()>
    ensures written { OnOk result
        (Appends (W.contents writer.old) (W.contents writer.new) (events_text job.now copies rows.old 0 events.now)) }
    ensures rows { OnOk result (rows.new ≡ rows_after rows.old 0 events.now) }
{
    for (place, event) in events.iter().enumerate() {
        let shape = shape_of(copies, rows, place, *event);
        write_part(writer, job, shape)?;
        advance(rows, place, *event);
    }
    Ok(())
}

/// Writes the bars of packets that aren't complete, up to the end.
pub fn write_open<W: Write>(
    writer: &mut W,
    job: &Job,
    rows: &[Row],
    events: &[Event],
) -> io::Result<()>
    ensures { OnOk result
        (Appends (W.contents writer.old) (W.contents writer.new) (left_text job.now rows.now (length events.now))) }
{
    let end = events.len();
    for packet in 0..rows.len() {
        let bar = bar_of(rows, packet, end);
        write_part(writer, job, bar)?;
    }
    Ok(())
}

/// Writes the line down the picture at which it ends.
fn write_end_line<W: Write>(
    writer: &mut W,
    job: &Job,
    copies: bool,
    events: &[Event],
) -> io::Result<()>
    ensures { OnOk result
        (Appends (W.contents writer.old) (W.contents writer.new)
        (end_line (length events.now) (height_of job.now copies))) }
{
    let place = events.len();
    let height = height_of(job, copies);
    write!(writer, "<path class='x' d='M{place}0 46V{height}'/>\n")
}

/// The event that ends a picture, by its place.
#[derive(Clone, Copy, Debug)]
struct EndNote(usize);

impl fmt::Display for EndNote {
    ghost output = { λ n. Some (end_note n.0) };

    fn fmt<W: fmt::Write>(&self, f: &mut fmt::Formatter<W>) -> fmt::Result {
        let place = self.0;
        write!(
            f,
            "<text x='{place}0' y='58' dx='4'>event {place} is not enabled</text>\n"
        )
    }
}

/// Writes the note beside it.
fn write_end_note<W: Write>(writer: &mut W, events: &[Event]) -> io::Result<()>
    ensures { OnOk result (Appends (W.contents writer.old) (W.contents writer.new) (end_note (length events.now))) }
{
    let note = EndNote(events.len());
    write!(writer, "{note}")
}

/// Writes that the event behind these isn't enabled.
fn write_refusal<W: Write>(
    writer: &mut W,
    job: &Job,
    copies: bool,
    events: &[Event],
) -> io::Result<()>
    ensures { OnOk result
        (Appends (W.contents writer.old) (W.contents writer.new) (refusal_text job.now copies (length events.now))) }
{
    write_end_line(writer, job, copies, events)?;
    write_end_note(writer, events)
}

/// Writes how the picture ends: with the refusal of the event behind these, or without.
pub fn write_end<W: Write>(
    writer: &mut W,
    job: &Job,
    copies: bool,
    events: &[Event],
    is_refused: bool,
) -> io::Result<()>
    ensures { OnOk result
        (Appends (W.contents writer.old) (W.contents writer.new)
        (end_text job.now copies (length events.now) is_refused)) }
{
    if is_refused {
        write_refusal(writer, job, copies, events)
    } else {
        Ok(())
    }
}

/// Writes the tag that closes the picture.
pub fn write_closing<W: Write>(writer: &mut W) -> io::Result<()>
    ensures { OnOk result (Appends (W.contents writer.old) (W.contents writer.new) (codes "</svg>\n")) }
{
    writer.write_all(b"</svg>\n")
}
