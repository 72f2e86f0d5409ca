//! Queues and their packets.

ghost use Rattle.std.specs.Prelude.{◌≡◌, OnOk, Some, codes, length, if◌then◌else◌};
ghost use Rattle.std.specs.Io.KnownBytes.{Appends};
ghost use Rattle.hq_graph.specs.Graph.{ClusterText, ClustersText, Each, NodeText, Wrote, agent_name};
ghost use Rattle.hq_graph.specs.Graph.{bit_text, cluster_text, color_text, head_text, kernel_of, kernel_place};
ghost use Rattle.hq_graph.specs.Graph.{label_text, node_of, node_text, node_there, queue_label, queue_line};
ghost use Rattle.hq_graph.specs.Graph.{queue_text, work_of, work_of_kernel, work_text};
ghost use Rattle.hq_graph.specs.Known.{Sees};

use crate::sight::Sight;
use crate::waiting::is_stuck;
use crate::words::NameWord;
use hq_job::Job;
use hq_packet::{Head, Packet};
use hq_report::{KindWord, ScopeWord};
use hq_tables::{Kernel, Placed, Queue};
use hq_text::Name;
use std::io::Write;
use std::{fmt, io};

/// What a packet does: a kernel by its name, a service by its number, or nothing.
#[derive(Clone, Copy)]
pub enum Work {
    Kernel(Name),
    Service(u16),
    Nothing,
}

impl fmt::Display for Work {
    ghost output = { λ w. Some (work_text w) };

    fn fmt<W: fmt::Write>(&self, f: &mut fmt::Formatter<W>) -> fmt::Result {
        match self {
            Work::Kernel(name) => write!(f, " {name}"),
            Work::Service(kind) => write!(f, " service {kind}"),
            Work::Nothing => f.write_str(""),
        }
    }
}

/// The place of the first kernel that has the object.
fn kernel_place(kernels: &[Kernel], object: u64) -> Option<usize>
    ensures { result ≡ kernel_place kernels.now object }
{
    kernels.iter().position(|kernel| kernel.object == object)
}

/// The first kernel that has the object.
fn kernel_of(job: &Job, object: u64) -> Option<Kernel>
    ensures { result ≡ kernel_of job.now object }
{
    let kernels = job.kernels();
    let place = kernel_place(kernels, object)?;
    let kernel = kernels.get(place)?;
    Some(*kernel)
}

/// What runs a kernel that there is.
fn work_of_kernel(kernel: Option<Kernel>) -> Work
    ensures { result ≡ work_of_kernel kernel }
{
    match kernel {
        Some(kernel) => Work::Kernel(kernel.name),
        None => Work::Nothing,
    }
}

/// What a packet does.
pub fn work_of(job: &Job, packet: &Packet) -> Work
    ensures { result ≡ work_of job.now packet.now }
{
    match packet {
        Packet::Kernel(kernel) => work_of_kernel(kernel_of(job, kernel.object)),
        Packet::Agent(call) => Work::Service(call.kind),
        Packet::And(_) | Packet::Or(_) => Work::Nothing,
    }
}

/// The barrier bit's word, where it is set.
fn bit_word(bit: bool) -> &'static str
    ensures { result.now ≡ bit_text bit }
{
    if bit { "bit " } else { "" }
}

/// A packet's barrier bit and fences.
#[derive(Clone, Copy, Debug)]
struct HeadText(Head);

impl fmt::Display for HeadText {
    ghost output = { λ h. Some (head_text h.0) };

    fn fmt<W: fmt::Write>(&self, f: &mut fmt::Formatter<W>) -> fmt::Result {
        let bit = bit_word(self.0.barrier);
        let acquire = ScopeWord(self.0.acquire);
        let release = ScopeWord(self.0.release);
        write!(f, "{bit}acquire {acquire} release {release}")
    }
}

/// A packet as it is drawn: its number, the packet, and what it does.
#[derive(Clone, Copy)]
pub struct Node {
    pub number: usize,
    pub packet: Packet,
    pub work: Work,
}

/// What stands in a packet's node.
#[derive(Clone, Copy)]
struct LabelText(Node);

impl fmt::Display for LabelText {
    ghost output = { λ l. Some (label_text l.0) };

    fn fmt<W: fmt::Write>(&self, f: &mut fmt::Formatter<W>) -> fmt::Result {
        let number = self.0.number;
        let kind = KindWord(self.0.packet);
        let work = self.0.work;
        let head = HeadText(self.0.packet.head());
        write!(f, "{number} {kind}{work}\\n{head}")
    }
}

/// The colour of a packet that can never complete.
fn color_word(stuck: bool) -> &'static str
    ensures { result.now ≡ color_text stuck }
{
    if stuck {
        " color=red fontcolor=red"
    } else {
        ""
    }
}

/// A packet's node.
#[derive(Clone, Copy)]
struct NodeLine {
    node: Node,
    stuck: bool,
}

impl fmt::Display for NodeLine {
    ghost output = { λ l. Some (node_text l.node l.stuck) };

    fn fmt<W: fmt::Write>(&self, f: &mut fmt::Formatter<W>) -> fmt::Result {
        let number = self.node.number;
        let label = LabelText(self.node);
        let color = color_word(self.stuck);
        write!(f, "p{number} [label=\"{label}\"{color}];\n")
    }
}

/// The node of a packet, where it is of this queue.
fn node_of(job: &Job, queue: usize, p: usize) -> Option<Node>
    ensures { result ≡ node_of job.now queue p }
{
    let placed = job.packets().get(p)?;
    if placed.queue as usize == queue {
        Some(Node {
            number: p,
            packet: placed.packet,
            work: work_of(job, &placed.packet),
        })
    } else {
        None
    }
}

/// Writes a node, if there is one.
fn write_there<W: Write>(writer: &mut W, node: Option<Node>, stuck: bool) -> io::Result<()>
    ensures { OnOk result (Appends (W.contents writer.old) (W.contents writer.new) (node_there node stuck)) }
{
    match node {
        Some(node) => {
            let line = NodeLine { node, stuck };
            write!(writer, "{line}")
        }
        None => Ok(()),
    }
}

/// Writes the node of a packet, where it is of this queue.
fn write_node<W: Write>(
    writer: &mut W,
    job: &Job,
    sight: &Sight,
    queue: usize,
    p: usize,
) -> io::Result<()>
    requires sees { Sees sight.now }
    ensures { OnOk result
        (Wrote (W.contents writer.old) (W.contents writer.new) (NodeText job.now sight.now.before.now queue p)) }
{
    let stuck = is_stuck(sight, p);
    let node = node_of(job, queue, p);
    write_there(writer, node, stuck)
}

/// Writes the nodes of a queue's packets.
fn write_nodes<W: Write>(writer: &mut W, job: &Job, sight: &Sight, queue: usize) -> io::Result<()>
    requires sees { Sees sight.now }
    ensures { OnOk result
        (Wrote (W.contents writer.old) (W.contents writer.new)
        (Each (NodeText job.now sight.now.before.now queue) (length job.now.packets))) }
{
    for p in 0..job.packets().len() {
        write_node(writer, job, sight, queue, p)?;
    }
    Ok(())
}

/// The name of an agent.
fn agent_name(job: &Job, agent: usize) -> Option<Name>
    ensures { result ≡ agent_name job.now agent }
{
    let name = job.agent_names().get(agent)?;
    Some(*name)
}

/// What is told of a queue: its name, its agent and how many slots it has.
#[derive(Clone, Copy)]
struct QueueLabel {
    queue: Queue,
    agent: Option<Name>,
}

impl fmt::Display for QueueLabel {
    ghost output = { λ l. Some (queue_label l.queue l.agent) };

    fn fmt<W: fmt::Write>(&self, f: &mut fmt::Formatter<W>) -> fmt::Result {
        let name = self.queue.name;
        let size = self.queue.size;
        let agent = NameWord(self.agent);
        write!(f, "queue {name} agent {agent} slots {size}")
    }
}

/// Writes what opens a queue, with what is told of it.
fn write_labelled<W: Write>(writer: &mut W, number: usize, label: &QueueLabel) -> io::Result<()>
    ensures { OnOk result
        (Appends (W.contents writer.old) (W.contents writer.new)
        (cluster_text number label.now.queue label.now.agent)) }
{
    write!(writer, "subgraph cluster_{number} {{\nlabel=\"{label}\";\n")
}

/// Writes what opens a queue that there is.
fn write_queue<W: Write>(writer: &mut W, job: &Job, number: usize, queue: &Queue) -> io::Result<()>
    ensures { OnOk result
        (Appends (W.contents writer.old) (W.contents writer.new) (queue_text job.now number queue.now)) }
{
    let label = QueueLabel {
        queue: *queue,
        agent: agent_name(job, queue.agent as usize),
    };
    write_labelled(writer, number, &label)
}

/// Writes what opens a queue, if there is one.
fn write_queue_line<W: Write>(writer: &mut W, job: &Job, number: usize) -> io::Result<()>
    ensures { OnOk result (Appends (W.contents writer.old) (W.contents writer.new) (queue_line job.now number)) }
{
    match job.queues().get(number) {
        Some(queue) => write_queue(writer, job, number, queue),
        None => Ok(()),
    }
}

/// Writes what closes a queue or the whole graph.
pub fn write_close<W: Write>(writer: &mut W) -> io::Result<()>
    ensures { OnOk result (Appends (W.contents writer.old) (W.contents writer.new) (codes "}\n")) }
{
    writer.write_all(b"}\n")
}

/// Writes a queue and its packets.
fn write_cluster<W: Write>(writer: &mut W, job: &Job, sight: &Sight, queue: usize) -> io::Result<()>
    requires sees { Sees sight.now }
    ensures { OnOk result
        (Wrote (W.contents writer.old) (W.contents writer.new) (ClusterText job.now sight.now.before.now queue)) }
{
    write_queue_line(writer, job, queue)?;
    write_nodes(writer, job, sight, queue)?;
    write_close(writer)
}

/// Writes all queues and their packets.
pub fn write_clusters<W: Write>(writer: &mut W, job: &Job, sight: &Sight) -> io::Result<()>
    requires sees { Sees sight.now }
    ensures { OnOk result
        (Wrote (W.contents writer.old) (W.contents writer.new) (ClustersText job.now sight.now.before.now)) }
{
    for queue in 0..job.queues().len() {
        write_cluster(writer, job, sight, queue)?;
    }
    Ok(())
}
