//! Certificates that are checked while they are read.

ghost use Rattle.std.specs.Prelude.{◌≡◌, ℕ, ◌⊎◌, [], ◌++◌, List, IfOk, IfErr, OnOk};
ghost use Rattle.hq_text.specs.Intake.{FaultOf, OfText};
ghost use Rattle.hq_text.specs.Lines.{lines_of};
ghost use Rattle.hq_text.specs.Turns.{Fails, Passes};
ghost use Rattle.hq_certread.specs.SoFar.{HasFault};
ghost use Rattle.hq_judging.specs.Check.{NoCertificate};
ghost use Rattle.hq_judging.specs.Checking.{FinishedOf, HasChecked, HasCheckedBut, StaysSaid, WasRead, WasReadFor};
ghost use Rattle.hq_judging.specs.declared.chunk.Chunk.{Chunk};
ghost use Rattle.hq_status.specs.Reports.{OfReader, ReaderReport, Reported};

use crate::check::say_faulty_text;
use crate::readers::ReadsCertificates;
use hq_cert::Certificate;
use hq_certcheck::Seen;
use hq_certread::{CertFault, Progress, ReadFault};
use hq_job::Job;
use hq_status::{Status, say_file};
use hq_text::{Source, TURNS, TakesLines, read_lines};
use std::alloc::Global;
use std::io::{Read, Write};

/// A job, and what the lines of its certificate's text left so far. Of lines of the certificate and of pair lines no
/// more is kept than a check asks for.
#[derive(Drop)]
pub struct Checking {
    pub job: Job,
    pub progress: Progress,
    pub seen: Seen,
}

/// A certificate that was read for a job, without its lines and its pair lines, and what is known of those.
#[derive(Drop)]
pub struct ReadCertificate {
    pub job: Job,
    pub certificate: Certificate,
    pub seen: Seen,
}

impl Checking {
    /// Before the first line of a certificate for this job.
    pub fn new(alloc: Global, job: Job) -> Checking
        ensures checked { HasChecked result [] result }
        ensures job { result.job ≡ job }
    {
        let seen = Seen::new(alloc, &job);
        Checking {
            job,
            progress: Progress::new(alloc),
            seen,
        }
    }

    /// Takes in all lines of a text, behind those that were taken in.
    ///
    /// # Errors
    ///
    /// `CertFault` with the first faulty line, or that there is no memory, at line 0. It is to be dropped then.
    pub fn take_text(&mut self, alloc: Global, text: &[u8]) -> Result<(), CertFault>
        ensures took { OnOk result
            ((from : Checking) (chunks : List Chunk) (lines : List (List ℕ)) → HasCheckedBut from chunks lines self.old
            → HasCheckedBut from chunks (lines ++ lines_of text.now) self.new × StaysSaid self.old self.new) }
        ensures fault { IfErr result
            (λ f. (from : Checking) (chunks : List Chunk) (lines more : List (List ℕ))
            → HasCheckedBut from chunks lines self.old → HasFault (lines ++ (lines_of text.now ++ more)) f) }
    {
        self.progress.take(alloc, text)?;
        if self
            .seen
            .take_lines(&self.job, self.progress.lines())
            .is_err()
        {
            return Err(Progress::no_memory());
        }
        if self
            .seen
            .take_pairs(alloc, &self.job, self.progress.pairs())
            .is_err()
        {
            return Err(Progress::no_memory());
        }
        self.progress.let_go()
    }

    /// The certificate of the lines, or that they have no end.
    ///
    /// # Errors
    ///
    /// `CertFault` with the line behind the last one.
    pub fn finish(self) -> Result<ReadCertificate, CertFault>
        ensures { (from : Checking) (lines : List (List ℕ)) → HasChecked from lines self
            → FinishedOf from result lines }
    {
        let Checking {
            job,
            progress,
            seen,
        } = self;
        let certificate = progress.finish()?;
        Ok(ReadCertificate {
            job,
            certificate,
            seen,
        })
    }
}

impl TakesLines for Checking {
    type Fault = CertFault;

    ghost Took = { HasChecked };

    ghost Refuses = { HasFault };

    fn take_lines(&mut self, alloc: Global, text: &[u8]) -> Result<(), CertFault> {
        self.take_text(alloc, text)
    }

    fn no_memory() -> CertFault {
        Progress::no_memory()
    }
}

/// The certificate that a source gives up to its end, checked as far as that can be while it comes.
pub fn read_source<S: Source>(
    alloc: Global,
    source: &mut S,
    checking: Checking,
) -> Result<ReadCertificate, ReadFault<CertFault>>
    requires { HasChecked checking [] checking }
    ensures found { IfOk result
        (λ known. OfText S S.Turned TURNS source.old source.new
        (λ text. WasReadFor checking (lines_of text) known)) }
    ensures fault { IfErr result
        (λ e. FaultOf e (λ f. OfText S S.Turned TURNS source.old source.new (λ text. HasFault (lines_of text) f))
        (Fails S S.Turned TURNS source.old source.new ⊎ Passes S S.Turned TURNS source.old source.new)) }
{
    let checking = read_lines(alloc, source, checking)?;
    match checking.finish() {
        Ok(known) => Ok(known),
        Err(fault) => Err(ReadFault::Text(fault)),
    }
}

/// The certificate of a reader's text; or, where there is no certificate, the status of the refusal, which is
/// written.
fn read_certificate<K: ReadsCertificates, R: Read, W: Write>(
    by: &K,
    alloc: Global,
    reader: &mut R,
    writer: &mut W,
    checking: Checking,
) -> Result<ReadCertificate, Status>
    requires { HasChecked checking [] checking }
    ensures found { IfOk result
        (λ known. (known.job ≡ checking.job)
        × OfReader R R.remaining reader.old reader.new (λ text. WasRead (lines_of text) known)) }
    ensures unwritten { OnOk result (writer.new ≡ writer.old) }
    ensures refused { IfErr result
        (Reported (ReaderReport R R.remaining reader.old reader.new NoCertificate) (W.contents writer.old)
        (W.contents writer.new)) }
{
    match by.read_source(alloc, reader, checking) {
        Ok(known) => Ok(known),
        Err(ReadFault::Reader) => Err(say_file(writer)),
        Err(ReadFault::Text(fault)) => Err(say_faulty_text(writer, fault)),
    }
}

/// The certificate of a reader's text for a job, whose lines and pair lines were checked as they came; or, where there
/// is none, the status of the refusal, which is written.
pub fn take_certificate<K: ReadsCertificates, R: Read, W: Write>(
    by: &K,
    alloc: Global,
    reader: &mut R,
    writer: &mut W,
    job: Job,
) -> Result<ReadCertificate, Status>
    ensures found { IfOk result
        (λ known. (known.job ≡ job)
        × OfReader R R.remaining reader.old reader.new (λ text. WasRead (lines_of text) known)) }
    ensures unwritten { OnOk result (writer.new ≡ writer.old) }
    ensures refused { IfErr result
        (Reported (ReaderReport R R.remaining reader.old reader.new NoCertificate) (W.contents writer.old)
        (W.contents writer.new)) }
{
    let checking = Checking::new(alloc, job);
    read_certificate(by, alloc, reader, writer, checking)
}
