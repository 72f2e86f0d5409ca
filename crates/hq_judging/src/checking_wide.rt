//! Certificates that several threads read and check while they come.

ghost use Rattle.std.specs.Prelude.{ℕ, ◌⊎◌, [], ◌++◌, List, IfOk, IfErr};
ghost use Rattle.hq_text.specs.Intake.{FaultOf, OfText};
ghost use Rattle.hq_text.specs.Lines.{lines_of};
ghost use Rattle.hq_text.specs.Turns.{ComesTo, Fails, Passes};
ghost use Rattle.hq_certread.specs.SoFar.{HasFault};
ghost use Rattle.hq_judging.specs.Checking.{FinishedOf, HasChecked, WasReadFor};
ghost use Rattle.hq_judging.specs.Chunks.{HasRead};

use crate::checking::{Checking, ReadCertificate, read_source};
use crate::chunks::Chunks;
use hq_certread::{CertFault, ReadFault};
use hq_text::{Came, Source, TURNS, pass_over};
use rayon::current_num_threads;
use std::alloc::Global;
use std::thread::Threads;

/// In how many turns a source is read on while threads look at what came before.
const STEP: u32 = 1_000;

/// A certificate as far as it came; or the first fault of its text, behind which nothing is held.
#[derive(Drop)]
pub enum Reading {
    Taking(Chunks),
    Faulty(CertFault),
}

impl Reading {
    /// Before the first byte, for so many threads beside the caller's.
    fn new(alloc: Global, checking: Checking, threads: usize) -> Reading
        requires { HasChecked checking [] checking }
        ensures { HasRead checking [] result }
    {
        Reading::Taking(Chunks::new(alloc, checking, threads))
    }

    /// Takes in what came, and reads on meanwhile.
    fn step<R: Threads, S: Source>(&mut self, rt: &R, alloc: Global, source: &mut S) -> Came
        ensures { (given : List ℕ) × ComesTo S S.Turned STEP source.old given source.new result
            × ((from : Checking) (text : List ℕ) → HasRead from text self.old → HasRead from (text ++ given) self.new) }
    {
        let Reading::Taking(chunks) = self else {
            return pass_over(source, STEP);
        };
        let (came, taken) = chunks.step(rt, alloc, source, STEP);
        if let Err(fault) = taken {
            *self = Reading::Faulty(fault);
        }
        came
    }

    /// The certificate of the text, which has come to its end, or what is wrong with it.
    fn finish<R: Threads>(self, rt: &R, alloc: Global) -> Result<ReadCertificate, CertFault>
        ensures { (from : Checking) (text : List ℕ) → HasRead from text self
            → FinishedOf from result (lines_of text) }
    {
        match self {
            Reading::Taking(chunks) => chunks.finish(rt, alloc),
            Reading::Faulty(fault) => Err(fault),
        }
    }
}

/// What `read_source` answers, with the text read and its pair lines checked by as many threads as there are
/// processors.
pub fn read_source_wide<R: Threads, S: Source>(
    rt: &R,
    alloc: Global,
    source: &mut S,
    checking: Checking,
) -> Result<ReadCertificate, ReadFault<CertFault>>
    requires { HasChecked checking [] checking }
    ensures found { IfOk result
        (λ known. OfText S S.Turned TURNS source.old source.new
        (λ text. WasReadFor checking (lines_of text) known)) }
    ensures fault { IfErr result
        (λ e. FaultOf e (λ f. OfText S S.Turned TURNS source.old source.new (λ text. HasFault (lines_of text) f))
        (Fails S S.Turned TURNS source.old source.new ⊎ Passes S S.Turned TURNS source.old source.new)) }
{
    let threads = current_num_threads(rt);
    if threads < 2 {
        return read_source(alloc, source, checking);
    }
    let mut reading = Reading::new(alloc, checking, threads - 1);
    for _step in 0..TURNS / STEP {
        match reading.step(rt, alloc, source) {
            Came::More => {}
            Came::End => {
                return match reading.finish(rt, alloc) {
                    Ok(known) => Ok(known),
                    Err(fault) => Err(ReadFault::Text(fault)),
                };
            }
            Came::Failed => return Err(ReadFault::Reader),
        }
    }
    Err(ReadFault::Reader)
}
