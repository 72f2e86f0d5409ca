//! Certificates from readers.

ghost use Rattle.std.specs.Prelude.{◌⊎◌, IfOk, IfErr, IfSome};
ghost use Rattle.hq_model.specs.Certificate as model;
ghost use Rattle.hq_text.specs.Intake.{FaultOf, GivesUnlessRead, OfText};
ghost use Rattle.hq_text.specs.Lines.{lines_of};
ghost use Rattle.hq_text.specs.Turns.{Fails, Passes, ReadTurn};
ghost use Rattle.hq_certread.specs.Gives.{no_memory};
ghost use Rattle.hq_certtext.specs.Grammar.{CertText};
ghost use Rattle.hq_certread.specs.SoFar.{HasFault};

use crate::fault::CertFault;
use crate::progress::Progress;
use hq_cert::Certificate;
use hq_text::{ReadFault, Source, TURNS, read_lines};
use std::alloc::Global;
use std::io::Read;

/// What a source gives up to its end, as a certificate.
fn read_source<S: Source>(
    alloc: Global,
    source: &mut S,
) -> Result<Certificate, ReadFault<CertFault>>
    ensures found { IfOk result
        (λ c. OfText S S.Turned TURNS source.old source.new (λ text. CertText (lines_of text) c)) }
    ensures fault { IfErr result
        (λ e. FaultOf e (λ f. OfText S S.Turned TURNS source.old source.new (λ text. HasFault (lines_of text) f))
        (Fails S S.Turned TURNS source.old source.new ⊎ Passes S S.Turned TURNS source.old source.new)) }
{
    match read_lines(alloc, source, Progress::new(alloc)) {
        Ok(progress) => progress.finish().map_err(ReadFault::Text),
        Err(fault) => Err(fault),
    }
}

/// The certificate that a reader's text is, or the first faulty line, as `parse` tells them of the whole text. Of
/// the text no more is held than what waits for the end of its line, and some 64 KiB. The reader gives the text in
/// at most 2,000,000 turns of at most 512 bytes; where it fails, in any way, or passes its turns, that is the
/// fault, also behind a faulty line.
///
/// # Errors
///
/// `ReadFault::Text` with the first faulty line, or that there is no memory, at line 0; `ReadFault::Reader` where
/// the reader failed or passed its turns.
pub fn read<R: Read>(alloc: Global, reader: &mut R) -> Result<Certificate, ReadFault<CertFault>>
    ensures found { IfSome (R.remaining reader.old) (λ text. IfOk result (λ c. CertText (lines_of text) c)) }
    ensures only { IfSome (R.remaining reader.old)
        (λ text. (c : model.Certificate) → CertText (lines_of text) c → GivesUnlessRead no_memory result c) }
    ensures fault { IfSome (R.remaining reader.old)
        (λ text. IfErr result (λ e. FaultOf e (λ f. HasFault (lines_of text) f) (Unit {0}))) }
    // The same of the turns that the reader was asked.
    ensures turned { IfOk result
        (λ c. OfText R (ReadTurn R.remaining) TURNS reader.old reader.new (λ text. CertText (lines_of text) c)) }
    ensures failed { IfErr result
        (λ e. FaultOf e
        (λ f. OfText R (ReadTurn R.remaining) TURNS reader.old reader.new (λ text. HasFault (lines_of text) f))
        (Fails R (ReadTurn R.remaining) TURNS reader.old reader.new
        ⊎ Passes R (ReadTurn R.remaining) TURNS reader.old reader.new)) }
{
    read_source(alloc, reader)
}
