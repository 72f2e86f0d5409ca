//! A kernel dispatch's dimensions and their sizes.

ghost use Rattle.std.specs.Prelude.{◌≡◌, ◌≤◌, None, Some, MatchResult, nat_le, true, false};
ghost use Rattle.std.specs.List.{list_any};
ghost use Rattle.hq_packet.specs.Sizes.{AreSizes};
ghost use Rattle.hq_packet.specs.Faults.{first_of, size_tests, is_zero, is_not_one};

use crate::fault::PacketFault;

/// Whether a size is zero.
fn has_zero(sizes: &[u32]) -> bool
    ensures { result ≡ list_any is_zero sizes.now }
{
    sizes.iter().any(|size| *size == 0)
}

/// Whether a size is other than one.
fn has_other(sizes: &[u32]) -> bool
    ensures { result ≡ list_any is_not_one sizes.now }
{
    sizes.iter().any(|size| *size != 1)
}

/// Setup of a dispatch, of which only the lower two bits aren't reserved.
pub fn check_setup(setup: u16) -> Result<(), PacketFault>
    ensures { MatchResult result (λ _. nat_le 4 setup ≡ false)
        (λ fault. (nat_le 4 setup ≡ true) × (fault ≡ PacketFault.ReservedField 2)) }
{
    if setup >= 4 {
        Err(PacketFault::ReservedField(2))
    } else {
        Ok(())
    }
}

/// What is wrong with the dimensions and the sizes.
pub fn check_sizes(used: u16, group: &[u32; 3], grid: &[u32; 3]) -> Result<(), PacketFault>
    ensures { MatchResult result
        (λ _. (first_of (size_tests used group.now grid.now) ≡ None) × (1 ≤ used) × (used ≤ 3) × AreSizes used group.now
        × AreSizes used grid.now)
        (λ e. first_of (size_tests used group.now grid.now) ≡ Some e) }
{
    if used == 0 || used > 3 {
        return Err(PacketFault::Dimensions);
    }
    let used = used as usize;
    if has_zero(&group[..used]) || has_zero(&grid[..used]) {
        return Err(PacketFault::ZeroSize);
    }
    if has_other(&group[used..]) || has_other(&grid[used..]) {
        return Err(PacketFault::UnusedNotOne);
    }
    Ok(())
}
