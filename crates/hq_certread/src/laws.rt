//! What the texts of certificates and their faults have in common, each law the contract of a function.

ghost use Rattle.hq_certread.specs.TextFaults.{OneCertificate, FaultlessWhereCertificate, OneFirstFault};
ghost use Rattle.hq_certread.specs.LineForms.{WordMeans, NumberMeans, CitationMeans};

/// A text is one certificate's.
pub fn one_certificate()
    ensures { OneCertificate }
{}

/// A certificate's text has no fault.
pub fn faultless_where_certificate()
    ensures { FaultlessWhereCertificate }
{}

/// A text has one first fault.
pub fn one_first_fault()
    ensures { OneFirstFault }
{}

/// A line is refused for its words exactly where they have no form that may stand there, whatever their numbers are.
pub fn word_means()
    ensures { WordMeans }
{}

/// A line is refused for a number exactly where its words have a form that may stand there, but one of them is no
/// number or citation that its place takes: no number, one above 4294967295, a K out of turn, or `=` where a number
/// must stand. Whether the lines that it cites are there isn't looked at.
pub fn number_means()
    ensures { NumberMeans }
{}

/// A line is refused for what it cites exactly where it is right but for that: it spells a line or a pair line,
/// with numbers of 32 bits, that cites a line that isn't there. So a wrong number is told first.
pub fn citation_means()
    ensures { CitationMeans }
{}
