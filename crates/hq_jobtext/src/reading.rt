//! Lines to tables, and tables to jobs.

ghost use Rattle.std.specs.Prelude.{◌≡◌, ◌⊎◌, ◌↔◌, Bool, IfOk, IfErr, OnErr, IsTrue};
ghost use Rattle.hq_lines.specs.Meaning as says;
ghost use Rattle.hq_lines.specs.Meaning.{view};
ghost use Rattle.hq_tables.specs.Adds.{Adds};
ghost use Rattle.hq_jobtext.specs.Answered.{Takes, StartFits, Finishes, no_memory};
ghost use Rattle.hq_tables.specs.AtEnd.{signal_reason};
ghost use Rattle.hq_tables.specs.Fits.{TablesFit};
ghost use Rattle.hq_jobtext.specs.JobText.{SaysVersion, misplaced, at_line};
ghost use Rattle.hq_tables.specs.TablesView.{tables_of};

use crate::fault::JobFault;
use hq_job::Job;
use hq_lines::{Line, Version, first_line, read_line};
use hq_signals::SignalFault;
use hq_tables::{Reason, Tables};
use std::alloc::Global;

/// Out of memory, told of line 0.
pub const NO_MEMORY: JobFault = JobFault {
    line: 0,
    reason: Reason::Memory,
};

/// A fault at a line, or out of memory at line 0.
pub fn fault_at(line: usize, reason: Reason) -> JobFault
    ensures { ((reason ≡ Reason.Memory) × (result ≡ no_memory))
        ⊎ ((¬ (reason ≡ Reason.Memory)) × (result ≡ at_line line reason)) }
{
    match reason {
        Reason::Memory => NO_MEMORY,
        _ => JobFault { line, reason },
    }
}

fn is_end(line: &Line) -> bool
    ensures { IsTrue result ↔ (view line.now ≡ says.End) }
{
    matches!(line, Line::End)
}

/// Adds what a line says.
fn add_line(tables: &mut Tables, line: Line) -> Result<(), Reason>
    requires fit { TablesFit (tables_of tables.old) }
    requires start { StartFits (view line) }
    ensures { Adds result (tables_of tables.old) (tables_of tables.new) (view line) }
{
    match line {
        Line::Agent(name) => tables.add_agent(name),
        Line::Buffer { name, at, bytes } => tables.add_buffer(name, at, bytes),
        Line::Args { name, at, bytes } => tables.add_arguments(name, at, bytes),
        Line::Signal {
            name,
            handle,
            start,
        } => tables.add_signal(name, handle, start),
        Line::Kernel { name, object, code } => tables.add_kernel(name, object, code),
        Line::Queue { name, agent, size } => tables.add_queue(name, agent, size),
        Line::To(name) => tables.turn_to(name),
        Line::Packet(packet) => tables.add_packet(packet),
        Line::End => Ok(()),
    }
}

/// Takes in a line behind the first, and says whether it is the end.
pub fn take_line(tables: &mut Tables, alloc: Global, line: &[u8]) -> Result<bool, Reason>
    requires { TablesFit (tables_of tables.old) }
    ensures { Takes result (tables_of tables.old) line.now (tables_of tables.new) }
{
    let said = read_line(alloc, line)?;
    let last = is_end(&said);
    add_line(tables, said)?;
    Ok(last)
}

/// Whether queues are rings, by the first line.
pub fn version_of(first: &[u8]) -> Result<bool, Reason>
    ensures version { IfOk result (λ rings. SaysVersion first.now rings) }
    ensures none { OnErr result ((rings : Bool) → ¬ SaysVersion first.now rings) }
    ensures fault { IfErr result (λ e. e ≡ misplaced first.now) }
{
    match first_line(first) {
        Ok(Version::One) => Ok(false),
        Ok(Version::Two) => Ok(true),
        Err(fault) => Err(Reason::from(fault)),
    }
}

fn reason_of(fault: SignalFault) -> Reason
    ensures { result ≡ signal_reason fault }
{
    match fault {
        SignalFault::Undershoot(handle) => Reason::Undershoot(handle),
        SignalFault::NeverZero(handle) => Reason::NeverZero(handle),
    }
}

/// The job of tables that are complete, whose end is line `line`.
pub fn finish(alloc: Global, line: usize, tables: Tables) -> Result<Job, JobFault>
    requires { TablesFit (tables_of tables) }
    ensures { Finishes (λ j. j) result line (tables_of tables) }
{
    if let Err(fault) = tables.verdict() {
        return Err(JobFault {
            line,
            reason: reason_of(fault),
        });
    }
    match Job::of_tables(alloc, tables) {
        Ok(job) => Ok(job),
        Err(_) => Err(NO_MEMORY),
    }
}
