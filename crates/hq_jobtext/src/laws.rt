//! Laws of job texts. Each is the contract of a function with an empty body.

ghost use Rattle.hq_jobtext.specs.JobText.{OneJob, FaultlessWhereJob, OneFirstFault};
ghost use Rattle.hq_jobtext.specs.Rewritten.{RewrittenIsJob, OneRewritten};
ghost use Rattle.hq_jobtext.specs.LineMeans.{ByteMeans, WordMeans, NumberMeans, PacketMeans, HexMeans, QueueSizeMeans};

/// A text is one job's.
pub fn one_job()
    ensures { OneJob }
{}

/// A job's text has no fault.
pub fn faultless_where_job()
    ensures { FaultlessWhereJob }
{}

/// A text has one first fault.
pub fn one_first_fault()
    ensures { OneFirstFault }
{}

/// J1 is a text's first fault exactly where the line that it names has a byte below 32 or above 126, and all before
/// it is right: it is the first line and names no version, or a line behind it that has admitted lines before it,
/// or one behind the end.
pub fn byte_means()
    ensures { ByteMeans }
{}

/// J2 is a text's first fault exactly where the line that it names has no byte out of range, all before it is
/// right, and it is the first line and names no version, or stands behind the end, or its words have no form, or it
/// is a `to` line where queues are no rings.
pub fn word_means()
    ensures { WordMeans }
{}

/// J3 is a text's first fault exactly where the words of the line that it names have a form, but one of its numbers
/// is none, or out of its range, and all before it is right.
pub fn number_means()
    ensures { NumberMeans }
{}

/// J8 is a text's first fault exactly where the digits of the line that it names spell 64 bytes which are no
/// packet, with this first fault, and all before it is right.
pub fn packet_means()
    ensures { PacketMeans }
{}

/// J9 is a text's first fault exactly where the line that it names is right up to its digits, which spell no bytes
/// or not as many as they have to, and all before it is right.
pub fn hex_means()
    ensures { HexMeans }
{}

/// J10 is a text's first fault exactly where the line that it names is a queue's, and right but for the size, which
/// is from 1 to 1024 and no power of two, and all before it is right.
pub fn queue_size_means()
    ensures { QueueSizeMeans }
{}

/// A job's text with other heads on its packets is the text of the job with these heads.
pub fn rewritten_is_job()
    ensures { RewrittenIsJob }
{}

/// There is one text with these heads.
pub fn one_rewritten()
    ensures { OneRewritten }
{}
