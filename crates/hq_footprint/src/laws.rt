//! Laws for the layers above: calls without effect, whose contracts are the laws.

ghost use Rattle.hq_footprint.specs.Laws.{BytesCounted, BytesPlaced, BytesBounded, BytesApart, BytesShifted};
ghost use Rattle.hq_footprint.specs.Laws.{EntriesCounted, WithinHasBytes, InsideHasBytes, OverlapsShare};
ghost use Rattle.hq_footprint.specs.Laws.{ShareRenumbered, ConflictTurns, ResultsCounted, ResultsAreBytes};
ghost use Rattle.hq_footprint.specs.Laws.{KernelsSuit, ServicesSuit};

/// A range has as many bytes as its length says.
pub fn bytes_counted()
    ensures { BytesCounted }
{}

/// Byte number i of a range is its address and i.
pub fn bytes_placed()
    ensures { BytesPlaced }
{}

/// The bytes of a range are the addresses from its beginning to its end.
pub fn bytes_bounded()
    ensures { BytesBounded }
{}

/// No byte of a range comes twice.
pub fn bytes_apart()
    ensures { BytesApart }
{}

/// The bytes of a range further up are further up.
pub fn bytes_shifted()
    ensures { BytesShifted }
{}

/// A footprint has as many read entries as its read ranges have bytes.
pub fn entries_counted()
    ensures { EntriesCounted }
{}

/// A range with a byte lies within another exactly where the other has all its bytes.
pub fn within_has_bytes()
    ensures { WithinHasBytes }
{}

/// Each byte of a footprint whose ranges are inside some buffers is a byte of one of these.
pub fn inside_has_bytes()
    ensures { InsideHasBytes }
{}

/// Ranges share a byte exactly where they overlap by their numbers.
pub fn overlaps_share()
    ensures { OverlapsShare }
{}

/// Numbering the addresses anew, each with a number of its own, leaves what two lists share.
pub fn share_renumbered()
    ensures { ShareRenumbered }
{}

/// Footprints conflict in both orders or in none.
pub fn conflict_turns()
    ensures { ConflictTurns }
{}

/// A task writes as many bytes as there is room for, where it reads as many as it wants.
pub fn results_counted()
    ensures { ResultsCounted }
{}

/// What a task writes are bytes, where what it reads are.
pub fn results_are_bytes()
    ensures { ResultsAreBytes }
{}

/// The lengths of a kernel's ranges are those that its task wants.
pub fn kernels_suit()
    ensures { KernelsSuit }
{}

/// The lengths of a service's ranges are those that its task wants.
pub fn services_suit()
    ensures { ServicesSuit }
{}
