// Bytes in two-digit hex, one at a time: as three characters, and from the k-th place of a line.
ghost use Rattle.std.specs.Prelude.{◌≡◌, [], ◌∷◌, ◌+◌, ◌*◌, ◌≤◌, ◌<◌, length};
ghost use Rattle.lines.specs.Hex.{digit as Hex·digit, spaced};
ghost use Rattle.lines.specs.Places.{DigitValue, ByteAt};

pub(crate) const BLANK: u8 = b' ';

// The digit of a number below 16.
fn digit(d: u8) -> u8
    requires { d < 16 }
    ensures { result ≡ Hex·digit d }
{
    if d < 10 { b'0' + d } else { b'A' - 10 + d }
}

// A blank and the two digits of a byte.
#[tactic(auto, unfolding(crate::specs::Hex::spaced))]
pub(crate) fn spaced(byte: u8) -> [u8; 3]
    ensures { result ≡ spaced (byte ∷ []) }
{
    [BLANK, digit(byte / 16), digit(byte % 16)]
}

// The number that a character is the digit of, in either case; None if it is no digit.
#[tactic(auto, using(std::proofs::lemmas::Bool::Decides::nat_tests), unfolding(crate::specs::Hex::upper))]
fn value(c: u8) -> Option<u8>
    ensures { DigitValue c result }
{
    match c {
        b'0'..=b'9' => Some(c - b'0'),
        b'A'..=b'F' => Some(c - b'A' + 10),
        b'a'..=b'f' => Some(c - b'a' + 10),
        _ => None,
    }
}

// The byte at place k of a line; None where no byte stands there. The first byte has no blank before it.
pub(crate) fn byte_at(line: &[u8], k: usize) -> Option<u8>
    requires { 3 * k + 2 ≤ length line.now }
    ensures { ByteAt line.now k result }
{
    if k > 0 && line[3 * k - 1] != BLANK {
        return None;
    }
    let high = value(line[3 * k])?;
    let low = value(line[3 * k + 1])?;
    Some(high * 16 + low)
}
