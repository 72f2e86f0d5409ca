//! Conflicts that packets can have at all, by the parts of memory that they touch and by whether they read and write.

ghost use Rattle.std.specs.Prelude.{◌≡◌, ℕ, ◌<◌, ◌↔◌, IsTrue, IfOk, All, [], false, length};
ghost use Rattle.hq_job.specs.Plan.{plan};
ghost use Rattle.hq_bits.specs.Bits.{has};
ghost use Rattle.hq_model.specs.Job.{IsPacket, packet};
ghost use Rattle.hq_certcheck.specs.Covering.{AreFlagged, HasRows, IsPossible};

use crate::flags::{READ_WRITE, WRITE_READ, WRITE_WRITE, flags_in};
use hq_bits::{WORDS, has, insert, less};
use hq_footprint::Footprint;
use hq_job::Job;
use hq_parts::Parts;
use std::alloc::{AllocError, Global};

/// Which packets of a job may conflict: those that touch the same parts of memory, and of these those that read and
/// those that write, as bits.
#[derive(Drop)]
pub struct Possible {
    parts: Parts,
    readers: [u64; WORDS],
    writers: [u64; WORDS],
}

/// Whether a footprint reads nothing.
fn reads_nothing(foot: &Footprint) -> bool
    ensures { IsTrue result ↔ All (λ range. range.len ≡ 0) foot.now.reads }
{
    foot.reads.iter().all(|range| range.len == 0)
}

/// Whether a footprint writes nothing.
fn writes_nothing(foot: &Footprint) -> bool
    ensures { IsTrue result ↔ (foot.now.write.len ≡ 0) }
{
    foot.write.len == 0
}

/// The packets that read something, and those that write something.
fn readers_and_writers(job: &Job) -> ([u64; WORDS], [u64; WORDS])
    ensures readers { (s : ℕ) → IsPacket (plan job.now) s → has result.0 s ≡ false
        → (packet (plan job.now) s).reads ≡ [] }
    ensures writers { (s : ℕ) → IsPacket (plan job.now) s → has result.1 s ≡ false
        → (packet (plan job.now) s).writes ≡ [] }
{
    job.valid();
    let mut readers = [0; WORDS];
    let mut writers = [0; WORDS];
    for p in 0..job.packets().len() {
        let foot = &job.packet(p).bytes;
        if !reads_nothing(foot) {
            insert(&mut readers, p);
        }
        if !writes_nothing(foot) {
            insert(&mut writers, p);
        }
    }
    (readers, writers)
}

/// Takes in those of some packets that can be the second of a kind of conflict, if there can be a first, and lack its
/// flag.
fn suspect(found: &mut [u64], is_first: bool, others: &[u64], able: &[u64], flagged: &[u64])
    requires found { length found.old ≡ WORDS }
    requires others { length others.now ≡ WORDS }
    requires able { length able.now ≡ WORDS }
    requires flagged { length flagged.now ≡ WORDS }
    ensures kept { (s : ℕ) → IsTrue (has found.old s) → IsTrue (has found.new s) }
    ensures taken { IsTrue is_first → (s : ℕ) → IsTrue (has others.now s) → IsTrue (has able.now s)
        → has flagged.now s ≡ false → IsTrue (has found.new s) }
{
    if !is_first {
        return;
    }
    for place in 0..WORDS {
        found[place] |= less(others[place] & able[place], flagged[place]);
    }
}

impl Possible {
    /// What tells which packets of the job may conflict: the parts of memory that each touches, and which of them read
    /// something and which write something.
    ///
    /// # Errors
    ///
    /// `AllocError` where there is no memory.
    pub fn of(alloc: Global, job: &Job) -> Result<Possible, AllocError>
        ensures { IfOk result (IsPossible (plan job.now)) }
    {
        let parts = Parts::build(alloc, job)?;
        let (readers, writers) = readers_and_writers(job);
        Ok(Possible {
            parts,
            readers,
            writers,
        })
    }

    /// Packets of which some may lack flags for conflicts with p ahead of them: of those that aren't among them none
    /// does.
    pub fn suspects(&self, job: &Job, flags: &[u64], p: usize) -> [u64; WORDS]
        requires possible { IsPossible (plan job.now) self.now }
        requires rows { HasRows (length job.now.packets) flags.now }
        requires p_is { p < length job.now.packets }
        ensures { (s : ℕ) → IsPacket (plan job.now) s → has result s ≡ false
            → AreFlagged (plan job.now) flags.now p s }
    {
        job.valid();
        let others = self.parts.others(job, p);
        let reads = has(&self.readers, p);
        let writes = has(&self.writers, p);
        let mut found = [0; WORDS];
        suspect(
            &mut found,
            writes,
            others.bits(),
            &self.readers,
            flags_in(flags, p, WRITE_READ),
        );
        suspect(
            &mut found,
            writes,
            others.bits(),
            &self.writers,
            flags_in(flags, p, WRITE_WRITE),
        );
        suspect(
            &mut found,
            reads,
            others.bits(),
            &self.writers,
            flags_in(flags, p, READ_WRITE),
        );
        found
    }
}
