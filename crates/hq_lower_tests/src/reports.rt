use hq_calls::good;
use hq_jobtext::JobFault;
use hq_packet::PacketFault;
use hq_report::{JobRefusal, PacketRefusal};
use hq_tables::Reason;
use std::alloc::Global;
use std::test::*;

/// Whether a fault of a job is told so.
fn is_told(alloc: Global, fault: JobFault, told: &str) -> Result<bool, Fail> {
    let text = good(format!(in alloc; "{}", JobRefusal(fault)))?;
    Ok(text.as_str() == told)
}

/// Whether a fault of a packet is told so.
fn is_packet_told(alloc: Global, fault: PacketFault, told: &str) -> Result<bool, Fail> {
    let text = good(format!(in alloc; "{}", PacketRefusal(fault)))?;
    Ok(text.as_str() == told)
}

#[test]
fn refusals_by_their_codes(rt: HostRuntime) -> Result<(), Fail> {
    let reason = Reason::Packet(PacketFault::ReservedField(10));
    let fault = JobFault { line: 9, reason };
    assert!(rt; is_told(rt.alloc(), fault, "refused line 9 J8 P6 10")?);
    assert!(rt; is_packet_told(rt.alloc(), PacketFault::Dimensions, "refused P7")?);
    Ok(())
}
