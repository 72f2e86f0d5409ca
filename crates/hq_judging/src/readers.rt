//! Who reads a certificate: the caller's thread alone, or several. What is answered is the same.

ghost use Rattle.std.specs.Prelude.{◌⊎◌, [], IfErr, IfOk};
ghost use Rattle.hq_text.specs.Intake.{FaultOf, OfText};
ghost use Rattle.hq_text.specs.Lines.{lines_of};
ghost use Rattle.hq_text.specs.Turns.{Fails, Passes};
ghost use Rattle.hq_certread.specs.SoFar.{HasFault};
ghost use Rattle.hq_judging.specs.Checking.{HasChecked, WasReadFor};

use crate::checking::{Checking, ReadCertificate, read_source};
use crate::checking_wide::read_source_wide;
use hq_certread::{CertFault, ReadFault};
use hq_order::{Alone, Together};
use hq_text::{Source, TURNS};
use std::alloc::Global;
use std::thread::Threads;

/// What reads a certificate's text up to its end, and checks it meanwhile as far as that can be.
pub trait ReadsCertificates {
    /// The certificate that a source gives.
    fn read_source<S: Source>(
        &self,
        alloc: Global,
        source: &mut S,
        checking: Checking,
    ) -> Result<ReadCertificate, ReadFault<CertFault>>
        requires { HasChecked checking [] checking }
        ensures found { IfOk result
            (λ known. OfText S S.Turned TURNS source.old source.new
            (λ text. WasReadFor checking (lines_of text) known)) }
        ensures fault { IfErr result
            (λ e. FaultOf e (λ f. OfText S S.Turned TURNS source.old source.new (λ text. HasFault (lines_of text) f))
            (Fails S S.Turned TURNS source.old source.new ⊎ Passes S S.Turned TURNS source.old source.new)) };
}

impl ReadsCertificates for Alone {
    fn read_source<S: Source>(
        &self,
        alloc: Global,
        source: &mut S,
        checking: Checking,
    ) -> Result<ReadCertificate, ReadFault<CertFault>> {
        read_source(alloc, source, checking)
    }
}

impl<'a, R: Threads> ReadsCertificates for Together<'a, R> {
    fn read_source<S: Source>(
        &self,
        alloc: Global,
        source: &mut S,
        checking: Checking,
    ) -> Result<ReadCertificate, ReadFault<CertFault>> {
        read_source_wide(self.rt, alloc, source, checking)
    }
}
