//! What the forms of lines have in common, each law the contract of a function.

ghost use Rattle.std.specs.Prelude.{◌≡◌, ℕ, List, None};
ghost use Rattle.hq_lines.specs.Meaning.{Meaning};
ghost use Rattle.hq_lines.specs.Says.{Says, SaysLine};
ghost use Rattle.hq_lines.specs.Heads.{SaysWithHead, PacketsBegin};
ghost use Rattle.hq_lines.specs.Order.{line_fault};
ghost use Rattle.hq_lines.specs.LineForms.{ByteMeans, WordMeans, NumberMeans, HexMeans, PacketMeans, QueueSizeMeans};

use crate::limits::{BLOCK, BUFFER, SLOTS};

/// A line says one thing at most.
pub fn one_meaning()
    ensures words { (words : List (List ℕ)) → (m n : Meaning) → Says words m → Says words n → m ≡ n }
    ensures line { (line : List ℕ) → (m n : Meaning) → SaysLine line m → SaysLine line n → m ≡ n }
{}

/// A line that says something has no fault.
pub fn no_fault()
    ensures { (line : List ℕ) → (m : Meaning) → SaysLine line m → line_fault line ≡ None }
{}

/// A line is refused for a byte exactly where one of its bytes is below 32 or above 126.
pub fn byte_means()
    ensures { ByteMeans }
{}

/// A line is refused for its words exactly where no byte is out of range and they have no form: where no kind of
/// line has this first word, so many words, and names and kernels' words like these, whatever stands in the places
/// of numbers and digits.
pub fn word_means()
    ensures { WordMeans }
{}

/// A line is refused for a number exactly where its words have a form, but one of those in the places of numbers is
/// no number, or one out of its range, whatever the digits are.
pub fn number_means()
    ensures { NumberMeans }
{}

/// A line is refused for its digits exactly where its words have a form and its numbers are right, but the digits
/// spell no bytes, or not as many as they have to.
pub fn hex_means()
    ensures { HexMeans }
{}

/// A line is refused for its packet exactly where it is a packet's, and its 128 digits spell 64 bytes with this
/// first fault.
pub fn packet_means()
    ensures { PacketMeans }
{}

/// A line is refused for a queue's size exactly where it is a queue's, and right but for the size, which is from 1
/// to 1024 and no power of two.
pub fn queue_size_means()
    ensures { QueueSizeMeans }
{}

/// The line for a packet with another head says the packet with that head.
pub fn says_with_head()
    ensures { SaysWithHead }
{}

/// A line that says something begins as packet lines do exactly where it says a packet.
pub fn packets_begin()
    ensures { PacketsBegin }
{}

/// The limits of lines, as the format has them.
pub fn limits()
    ensures slots { SLOTS ≡ 1024 }
    ensures buffer { BUFFER ≡ 65536 }
    ensures block { BLOCK ≡ 64 }
{}
