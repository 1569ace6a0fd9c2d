// The spare bits of packed bits: those of the last byte that belong to no bit of the run.
ghost use Rattle.std.specs.Prelude.{◌≡◌, ◌%◌, ◌^◌, ◌≤◌};
ghost use Rattle.master.specs.Spare.{bits_in_last};

// How many bits of `count` packed bits stand in the last byte.
#[tactic(auto, unfolding(crate::specs::Spare::bits_in_last))]
fn bits_in_last(count: u16) -> usize
    requires { 1 ≤ count }
    ensures { result ≡ bits_in_last count }
{
    (count as usize - 1) % registers::BYTE_BITS + 1
}

// The last byte of `count` packed bits with its spare bits turned off.
pub(crate) fn without_spare_bits(count: u16, last: u8) -> u8
    requires { 1 ≤ count }
    ensures { result ≡ last % 2 ^ bits_in_last count }
{
    (last as u16 % (1 << bits_in_last(count))) as u8
}
