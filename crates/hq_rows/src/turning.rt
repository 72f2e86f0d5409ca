//! Blocks of bits turned round: bit j of word i becomes bit i of word j.

ghost use Rattle.std.specs.Prelude.{◌≡◌, ℕ, ◌+◌, ◌-◌, ◌<◌};
ghost use Rattle.std.specs.Int.{bit_at};
ghost use Rattle.hq_rows.specs.Turning.{digit, Exchanged, ExchangedAt, IsHalf, IsTurned};

/// How many words a block has, and bits a word.
pub const SIDE: usize = 64;

/// The word of the lower number once two words have exchanged a digit: its own bits of digit 0, and those of the other
/// one step further.
#[inline(always)]
fn lower(first: u64, second: u64, step: usize, mask: u64) -> u64
    requires { IsHalf step mask }
    ensures own { (j : ℕ) → j < 64 → digit step j ≡ 0 → bit_at result j ≡ bit_at first j }
    ensures other { (j : ℕ) → j < 64 → digit step j ≡ 1 → bit_at result j ≡ bit_at second (j - step) }
{
    first & mask | (second & mask) << step
}

/// The word of the higher number: its own bits of digit 1, and one step below them those of the other.
#[inline(always)]
fn upper(first: u64, second: u64, step: usize, mask: u64) -> u64
    requires { IsHalf step mask }
    ensures own { (j : ℕ) → j < 64 → digit step j ≡ 1 → bit_at result j ≡ bit_at second j }
    ensures other { (j : ℕ) → j < 64 → digit step j ≡ 0 → bit_at result j ≡ bit_at first (j + step) }
{
    first >> step & mask | second & !mask
}

/// Has a word whose digit is 0 and the one a step further exchange bits.
#[inline(always)]
fn exchange_at(block: &mut [u64; SIDE], k: usize, step: usize, mask: u64)
    requires half { IsHalf step mask }
    requires low { k < 64 }
    requires is_lower { digit step k ≡ 0 }
    ensures { ExchangedAt step k block.old block.new }
{
    let (first, second) = (block[k], block[k + step]);
    block[k] = lower(first, second, step, mask);
    block[k + step] = upper(first, second, step, mask);
}

/// Has the numbers of words and of bits exchange one binary digit, that which a step is worth. The mask has the numbers
/// whose digit is 0.
#[inline(always)]
fn exchange(block: &mut [u64; SIDE], step: usize, mask: u64)
    requires { IsHalf step mask }
    ensures { Exchanged step block.old block.new }
{
    for group in 0..SIDE / 2 / step {
        let first = group * 2 * step;
        for k in first..first + step {
            exchange_at(block, k, step, mask);
        }
    }
}

/// Turns a block round. One without bits is that already.
pub fn turn_block(block: &mut [u64; SIDE])
    ensures { IsTurned block.old block.new }
{
    if block.iter().all(|word| *word == 0) {
        return;
    }
    exchange(block, 32, 0x0000_0000_ffff_ffff);
    exchange(block, 16, 0x0000_ffff_0000_ffff);
    exchange(block, 8, 0x00ff_00ff_00ff_00ff);
    exchange(block, 4, 0x0f0f_0f0f_0f0f_0f0f);
    exchange(block, 2, 0x3333_3333_3333_3333);
    exchange(block, 1, 0x5555_5555_5555_5555);
}
