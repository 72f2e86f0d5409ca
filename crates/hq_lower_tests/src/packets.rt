use hq_calls::good;
use hq_packet::{Head, Kernel, KernelFields, Packet, PacketFault, Scope, decode, encode, laws};
use std::test::*;

/// Bytes that are 0 but at these places.
fn bytes_of(places: &[(usize, u8)]) -> [u8; 64] {
    let mut bytes = [0u8; 64];
    for (place, byte) in places {
        if let Some(at) = bytes.get_mut(*place) {
            *at = *byte;
        }
    }
    bytes
}

/// A fill of four bytes: kernel object 1, kernarg address 256, barrier bit, both scopes system.
fn fill() -> [u8; 64] {
    bytes_of(&[
        (0, 0x02),
        (1, 0x15),
        (2, 1),
        (4, 1),
        (6, 1),
        (8, 1),
        (12, 4),
        (16, 1),
        (20, 1),
        (32, 1),
        (41, 1),
    ])
}

/// The same with one byte changed.
fn with_byte(place: usize, byte: u8) -> [u8; 64] {
    let mut bytes = fill();
    if let Some(at) = bytes.get_mut(place) {
        *at = byte;
    }
    bytes
}

/// The packet of 64 bytes.
fn packet_of(bytes: &[u8; 64]) -> Result<Packet, Fail> {
    good(decode(bytes))
}

/// Whether a packet is encoded in these bytes.
fn is_encoded(packet: &Packet, bytes: &[u8; 64]) -> bool {
    encode(packet).as_slice() == bytes.as_slice()
}

/// Whether these bytes are encoded as they are, once they are decoded.
fn are_encoded(bytes: &[u8; 64]) -> Result<bool, Fail> {
    Ok(good(laws::encode_decoded(bytes))?.as_slice() == bytes.as_slice())
}

/// A packet's head and completion signal.
fn common(packet: &Packet) -> (Head, u64) {
    (packet.head(), packet.completion())
}

/// A kernel dispatch's head, dimensions, first grid size, kernel object and kernarg address.
fn kernel_of(packet: &Packet) -> Option<(Head, u8, u32, u64, u64)> {
    match packet {
        Packet::Kernel(kernel) => Some((
            kernel.head,
            kernel.dimensions,
            kernel.grid[0],
            kernel.object,
            kernel.kernarg,
        )),
        _ => None,
    }
}

#[test]
fn a_kernel_dispatch(rt: HostRuntime) -> Result<(), Fail> {
    let bytes = fill();
    let packet = packet_of(&bytes)?;
    let head = Head {
        barrier: true,
        acquire: Scope::System,
        release: Scope::System,
    };
    assert!(rt; kernel_of(&packet) == Some((head, 1, 4, 1, 256)));
    assert!(rt; common(&packet) == (head, 0));
    assert!(rt; is_encoded(&packet, &bytes));
    assert!(rt; are_encoded(&bytes)?);
    Ok(())
}

#[test]
fn a_barrier_and(rt: HostRuntime) -> Result<(), Fail> {
    let bytes = bytes_of(&[(0, 0x03), (8, 9)]);
    let packet = packet_of(&bytes)?;
    assert!(rt; matches!(&packet, Packet::And(_)));
    assert!(rt; is_encoded(&packet, &bytes));
    Ok(())
}

/// An agent dispatch's kind, return address and first argument.
fn call_of(packet: &Packet) -> Option<(u16, u64, u64)> {
    match packet {
        Packet::Agent(call) => Some((call.kind, call.ret, call.args[0])),
        _ => None,
    }
}

#[test]
fn an_agent_dispatch(rt: HostRuntime) -> Result<(), Fail> {
    let bytes = bytes_of(&[
        (0, 0x04),
        (1, 0x0a),
        (3, 0x80),
        (9, 0x10),
        (16, 0x4d),
        (56, 9),
    ]);
    let packet = packet_of(&bytes)?;
    let head = Head {
        barrier: false,
        acquire: Scope::Agent,
        release: Scope::Agent,
    };
    assert!(rt; common(&packet) == (head, 9));
    assert!(rt; call_of(&packet) == Some((32768, 4096, 77)));
    assert!(rt; is_encoded(&packet, &bytes));
    Ok(())
}

/// A barrier-OR's first two dependency signals.
fn deps_of(packet: &Packet) -> Option<(u64, u64)> {
    match packet {
        Packet::Or(barrier) => Some((barrier.deps[0], barrier.deps[1])),
        _ => None,
    }
}

/// Whether a packet's bytes are decoded.
fn is_decoded(packet: &Packet) -> bool {
    laws::decode_encoded(packet).is_ok()
}

#[test]
fn a_barrier_or(rt: HostRuntime) -> Result<(), Fail> {
    let bytes = bytes_of(&[(0, 0x05), (1, 0x05), (8, 10), (16, 11)]);
    let packet = packet_of(&bytes)?;
    let head = Head {
        barrier: true,
        acquire: Scope::System,
        release: Scope::None,
    };
    assert!(rt; common(&packet) == (head, 0));
    assert!(rt; deps_of(&packet) == Some((10, 11)));
    assert!(rt; is_decoded(&packet));
    assert!(rt; is_encoded(&packet, &bytes));
    Ok(())
}

#[test]
fn a_dispatch_of_its_fields(rt: HostRuntime) -> Result<(), Fail> {
    let fields = KernelFields {
        head: Head {
            barrier: true,
            acquire: Scope::System,
            release: Scope::System,
        },
        dimensions: 1,
        group: [1, 1, 1],
        grid: [4, 1, 1],
        private_size: 0,
        group_size: 0,
        object: 1,
        kernarg: 256,
        completion: 0,
    };
    let kernel = good(Kernel::new(fields))?;
    assert!(rt; is_encoded(&Packet::Kernel(kernel), &fill()));
    let refused = Kernel::new(KernelFields {
        dimensions: 4,
        ..fields
    });
    assert_eq!(rt; refused.err(), Some(PacketFault::ReservedField(2)));
    Ok(())
}

#[test]
fn another_head(rt: HostRuntime) -> Result<(), Fail> {
    let packet = packet_of(&fill())?;
    let head = Head {
        barrier: false,
        acquire: Scope::None,
        release: Scope::Agent,
    };
    assert!(rt; is_encoded(&packet.with_head(head), &with_byte(1, 0x08)));
    Ok(())
}

/// What is wrong with 64 bytes.
fn fault_of(bytes: &[u8; 64]) -> Option<PacketFault> {
    decode(bytes).err()
}

#[test]
fn each_fault(rt: HostRuntime) {
    for (place, byte, fault) in [
        (0, 0x06, PacketFault::ReservedFormat),
        (0, 0x00, PacketFault::Vendor),
        (0, 0x01, PacketFault::Invalid),
        (1, 0x35, PacketFault::HeaderReserved),
        (1, 0x17, PacketFault::FenceScope),
        (3, 0x01, PacketFault::ReservedField(2)),
        (10, 0x01, PacketFault::ReservedField(10)),
        (48, 0x01, PacketFault::ReservedField(48)),
        (2, 0x00, PacketFault::Dimensions),
        (4, 0x00, PacketFault::ZeroSize),
        (12, 0x00, PacketFault::ZeroSize),
        (16, 0x02, PacketFault::UnusedNotOne),
        (16, 0x00, PacketFault::UnusedNotOne),
    ] {
        assert_eq!(rt;
            fault_of(&with_byte(place, byte)),
            Some(fault),
            "byte {place}"
        );
    }
}
