//! Texts of worked jobs, put together from lines.

use std::alloc::{AllocError, Global};

/// The head of a job text, and an agent.
pub const HEAD: &[u8] = b"hsaq 1\nagent a\n";

/// The same, of a job whose queues are rings.
pub const RINGS: &[u8] = b"hsaq 2\nagent a\n";

/// A buffer of eight bytes, arguments of a fill of its first four with 7 and of a copy of these to the next four,
/// and the kernels.
pub const BUFFER: &[u8] = b"buffer b 4096 8
args k0 256 00100000000000000700000000000000
args k1 512 00100000000000000410000000000000
kernel f 1 fill
kernel c 2 copy
";

/// The fill, with its barrier bit, and system scope at both fences.
pub const FILL: &[u8] = b"packet 0215010001000100010000000400000001000000010000000000000000000000\
             0100000000000000000100000000000000000000000000000000000000000000\n";

/// The copy, as the fill.
pub const COPY: &[u8] = b"packet 0215010001000100010000000400000001000000010000000000000000000000\
             0200000000000000000200000000000000000000000000000000000000000000\n";

/// The fill, which completes on the signal of handle 9, with agent scope at both fences.
pub const FILL_AGENT: &[u8] =
    b"packet 020a010001000100010000000400000001000000010000000000000000000000\
             0100000000000000000100000000000000000000000000000900000000000000\n";

/// The copy, with agent scope at both fences.
pub const COPY_AGENT: &[u8] =
    b"packet 020a010001000100010000000400000001000000010000000000000000000000\
             0200000000000000000200000000000000000000000000000000000000000000\n";

/// A barrier-AND that waits for the signal of handle 9.
pub const AND_S: &[u8] = b"packet 0300000000000000090000000000000000000000000000000000000000000000\
             0000000000000000000000000000000000000000000000000000000000000000\n";

/// The same, which completes on that of handle 10.
pub const AND_S_T: &[u8] =
    b"packet 0300000000000000090000000000000000000000000000000000000000000000\
             0000000000000000000000000000000000000000000000000a00000000000000\n";

/// The same, which completes on that of handle 11.
pub const AND_S_U: &[u8] =
    b"packet 0300000000000000090000000000000000000000000000000000000000000000\
             0000000000000000000000000000000000000000000000000b00000000000000\n";

/// A barrier-OR that waits for one of the signals of handles 10 and 11.
pub const OR_T_U: &[u8] = b"packet 05000000000000000a000000000000000b000000000000000000000000000000\
             0000000000000000000000000000000000000000000000000000000000000000\n";

/// The fill, which completes on the signal of handle 9, with a release to its agent.
pub const FILL_OUT: &[u8] =
    b"packet 0208010001000100010000000400000001000000010000000000000000000000\
             0100000000000000000100000000000000000000000000000900000000000000\n";

/// A barrier-AND from the signal of handle 9 to that of 10, with a release to the system.
pub const AND_OUT: &[u8] =
    b"packet 0310000000000000090000000000000000000000000000000000000000000000\
             0000000000000000000000000000000000000000000000000a00000000000000\n";

/// A barrier-AND from the signal of handle 10 to that of 11, with an acquire from the system.
pub const AND_IN: &[u8] = b"packet 03040000000000000a0000000000000000000000000000000000000000000000\
             0000000000000000000000000000000000000000000000000b00000000000000\n";

/// A barrier-AND that waits for the signal of handle 11.
pub const AND_U: &[u8] = b"packet 03000000000000000b0000000000000000000000000000000000000000000000\
             0000000000000000000000000000000000000000000000000000000000000000\n";

/// The copy, with an acquire from its agent.
pub const COPY_IN: &[u8] =
    b"packet 0202010001000100010000000400000001000000010000000000000000000000\
             0200000000000000000200000000000000000000000000000000000000000000\n";

/// The fill, which completes on the signal of handle 9, with system scope at both fences.
pub const FILL_SYSTEM: &[u8] =
    b"packet 0214010001000100010000000400000001000000010000000000000000000000\
             0100000000000000000100000000000000000000000000000900000000000000\n";

/// The copy, with system scope at both fences.
pub const COPY_SYSTEM: &[u8] =
    b"packet 0214010001000100010000000400000001000000010000000000000000000000\
             0200000000000000000200000000000000000000000000000000000000000000\n";

/// The copy, with no fence.
pub const COPY_FIRST: &[u8] =
    b"packet 0200010001000100010000000400000001000000010000000000000000000000\
             0200000000000000000200000000000000000000000000000000000000000000\n";

/// The fill, with its barrier bit and no fence.
pub const FILL_BIT: &[u8] =
    b"packet 0201010001000100010000000400000001000000010000000000000000000000\
             0100000000000000000100000000000000000000000000000000000000000000\n";

/// Arguments of a copy of the last four bytes to the first four.
pub const ARGS_BACK: &[u8] = b"args k4 768 04100000000000000010000000000000\n";

/// That copy, with its barrier bit, and system scope at both fences.
pub const COPY_BACK: &[u8] =
    b"packet 0215010001000100010000000400000001000000010000000000000000000000\
             0200000000000000000300000000000000000000000000000000000000000000\n";

/// A service that does nothing.
pub const NOP: &[u8] = b"packet 0400028000000000000000000000000000000000000000000000000000000000\
             0000000000000000000000000000000000000000000000000000000000000000\n";

/// The same, which completes on the signal of handle 9.
pub const NOP_S: &[u8] = b"packet 0400028000000000000000000000000000000000000000000000000000000000\
             0000000000000000000000000000000000000000000000000900000000000000\n";

/// A barrier-AND that waits for nothing.
pub const AND_NULLS: &[u8] =
    b"packet 0300000000000000000000000000000000000000000000000000000000000000\
             0000000000000000000000000000000000000000000000000000000000000000\n";

/// A barrier-OR that waits for one of the signals of handles 10 and 11, with its barrier bit, and an acquire from
/// the system.
pub const OR_BIT: &[u8] = b"packet 05050000000000000a000000000000000b000000000000000000000000000000\
             0000000000000000000000000000000000000000000000000000000000000000\n";

/// A reversal of four bytes.
pub const REV: &[u8] = b"packet 0200010001000100010000000400000001000000010000000000000000000000\
             0300000000000000000100000000000000000000000000000000000000000000\n";

/// The fill, with no fence.
pub const FILL_ALONE: &[u8] =
    b"packet 0200010001000100010000000400000001000000010000000000000000000000\
             0100000000000000000100000000000000000000000000000000000000000000\n";

/// A fill of the last four bytes with 5, with no fence.
pub const FILL_FIVES: &[u8] =
    b"packet 0200010001000100010000000400000001000000010000000000000000000000\
             0100000000000000000300000000000000000000000000000000000000000000\n";

/// Its arguments.
pub const ARGS_FIVES: &[u8] = b"args k3 768 04100000000000000500000000000000\n";

/// A fill of all eight bytes with 7, with its barrier bit, and system scope at both fences.
pub const FILL_EIGHT: &[u8] =
    b"packet 0215010001000100010000000800000001000000010000000000000000000000\
             0100000000000000000100000000000000000000000000000000000000000000\n";

/// A fill, and a copy of it behind it.
pub const FILL_COPY: &[&[u8]] = &[HEAD, BUFFER, b"queue q a 4\n", FILL, COPY, b"end\n"];

/// The fill again behind both.
pub const FILL_COPY_FILL: &[&[u8]] = &[HEAD, BUFFER, b"queue q a 4\n", FILL, COPY, FILL, b"end\n"];

/// A copy, and behind it one of its bytes back.
pub const TWO_COPIES: &[&[u8]] = &[
    HEAD,
    BUFFER,
    ARGS_BACK,
    b"queue q a 4\n",
    COPY,
    COPY_BACK,
    b"end\n",
];

/// No packet.
pub const NO_PACKET: &[&[u8]] = &[b"hsaq 1\nend\n"];

/// The fill and the copy, with no line feed at the end.
pub const NO_LAST_FEED: &[&[u8]] = &[HEAD, BUFFER, b"queue q a 4\n", FILL, COPY, b"end"];

/// A fill in one queue; in the other a barrier-AND that waits for it, and a copy.
pub const WAIT: &[&[u8]] = &[
    HEAD,
    BUFFER,
    b"signal s 9 1\nqueue p a 4\n",
    FILL_AGENT,
    b"queue r a 4\n",
    AND_S,
    COPY_AGENT,
    b"end\n",
];

/// The same with the queues exchanged.
pub const WAIT_EXCHANGED: &[&[u8]] = &[
    HEAD,
    BUFFER,
    b"signal s 9 1\nqueue r a 4\n",
    AND_S,
    COPY_AGENT,
    b"queue p a 4\n",
    FILL_AGENT,
    b"end\n",
];

/// The same with the queues on two agents.
pub const TWO_AGENTS: &[&[u8]] = &[
    HEAD,
    BUFFER,
    b"agent c\nsignal s 9 1\nqueue p a 4\n",
    FILL_SYSTEM,
    b"queue r c 4\n",
    AND_S,
    COPY_SYSTEM,
    b"end\n",
];

/// A fill, two barrier-AND packets that wait for it, a barrier-OR that waits for either, and a copy, in four queues.
pub const EITHER: &[&[u8]] = &[
    HEAD,
    BUFFER,
    b"signal s 9 1\nsignal t 10 1\nsignal u 11 1\nqueue q0 a 4\n",
    FILL_AGENT,
    b"queue q1 a 4\n",
    AND_S_T,
    b"queue q2 a 4\n",
    AND_S_U,
    b"queue q3 a 4\n",
    OR_T_U,
    COPY_AGENT,
    b"end\n",
];

/// A fill whose bytes go from its agent to the system, and from there to the agent of the copy, in four queues.
pub const CHAIN: &[&[u8]] = &[
    HEAD,
    BUFFER,
    b"agent c\nsignal s 9 1\nsignal t 10 1\nsignal u 11 1\nqueue p a 4\n",
    FILL_OUT,
    b"queue m a 4\n",
    AND_OUT,
    b"queue n c 4\n",
    AND_IN,
    b"queue r c 4\n",
    AND_U,
    COPY_IN,
    b"end\n",
];

/// A copy, and behind it a fill of what it read.
pub const READ_WRITE: &[&[u8]] = &[
    HEAD,
    BUFFER,
    b"queue q a 4\n",
    COPY_FIRST,
    FILL_BIT,
    b"end\n",
];

/// A reversal in place.
pub const REVERSE: &[&[u8]] = &[
    HEAD,
    b"buffer b 4096 4 01020304\nargs k 256 00100000000000000010000000000000\nkernel v 3 rev\nqueue q a 1\n",
    REV,
    b"end\n",
];

/// Three services in a ring with one place.
pub const RING: &[&[u8]] = &[RINGS, b"queue q a 1\n", NOP, NOP, NOP, b"end\n"];

/// Two rings with one place: a barrier-AND and a service behind it in the one, in the other the service that it
/// waits for.
pub const TWO_RINGS: &[&[u8]] = &[
    RINGS,
    b"signal s 9 1\nqueue q a 1\n",
    AND_S,
    b"queue r a 1\n",
    NOP_S,
    b"to q\n",
    NOP,
    b"end\n",
];

/// A barrier-AND with nothing to wait for.
pub const NULLS: &[&[u8]] = &[HEAD, b"queue q a 4\n", AND_NULLS, b"end\n"];

/// Two fills of other bytes, each in a queue of its own.
pub const TWO_FILLS: &[&[u8]] = &[
    HEAD,
    BUFFER,
    ARGS_FIVES,
    b"queue q a 4\n",
    FILL_ALONE,
    b"queue r a 4\n",
    FILL_FIVES,
    b"end\n",
];

/// A fill of all bytes, and a copy.
pub const EIGHT: &[&[u8]] = &[HEAD, BUFFER, b"queue q a 4\n", FILL_EIGHT, COPY, b"end\n"];

/// A service.
pub const ONE_NOP: &[&[u8]] = &[HEAD, b"queue q a 1\n", NOP, b"end\n"];

/// A barrier-OR whose signals start at 0.
pub const ONE_OR: &[&[u8]] = &[
    HEAD,
    b"signal t 10 0\nsignal u 11 0\nqueue q a 1\n",
    OR_BIT,
    b"end\n",
];

/// A fill, and behind it two copies of it.
pub const FILL_COPY_COPY: &[&[u8]] = &[HEAD, BUFFER, b"queue q a 4\n", FILL, COPY, COPY, b"end\n"];

/// The fill and the copy in a ring with one place.
pub const FILL_COPY_RING: &[&[u8]] = &[RINGS, BUFFER, b"queue q a 1\n", FILL, COPY, b"end\n"];

/// The text that these make, one behind the other.
pub fn joined(alloc: Global, parts: &[&[u8]]) -> Result<Vec<u8>, AllocError> {
    let mut text = Vec::new(alloc);
    for part in parts {
        text.extend_from_slice(part)?;
    }
    Ok(text)
}
