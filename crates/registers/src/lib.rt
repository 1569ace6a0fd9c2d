// The image of registers, one memory seen as words and as bits: runs packed into a lent buffer, and stored from bytes.
// No public function has a `requires`. The contracts cite specs/Calls.antt.
#![tactic(auto, unfolding(promise::specs::Promise::Attempt))]

mod pieces;

ghost use Rattle.std.specs.Prelude.{◌+◌, ◌*◌, ◌≤◌, ◌↔◌, IsTrue};
ghost use Rattle.std.specs.Result.{is_ok};
ghost use Rattle.promise.specs.Promise.{Decides};
ghost use Rattle.registers.specs.Memory.{word_bits};
ghost use Rattle.registers.specs.Packing.{bytes_for_bits, bytes_for_words};
ghost use Rattle.registers.specs.Calls.{PackBits, PackWords, StoreBit, StoreWord, StoreBits, StoreWords};

// The bits of a word, and of a byte.
pub const WORD_BITS: usize = 16;

pub const BYTE_BITS: usize = 8;

// The run, or the place, does not lie inside the image, or the bytes lent are too few for it.
#[derive(Clone, Copy, Debug, PartialEq, Eq)]
pub struct OutOfRange;

// Whether a run lies inside so many places. Their number, and the run's end, may be more than a `usize` can hold.
fn lies_inside(first: usize, count: usize, places: u128) -> bool
    ensures { IsTrue result ↔ (first + count ≤ places) }
{
    first as u128 + count as u128 <= places
}

// Refuses a run of words that does not lie inside an image of `words` words, or takes more than `bytes` bytes.
fn check_words(words: usize, first: usize, count: usize, bytes: usize) -> Result<(), OutOfRange>
    ensures { Decides ((first + count ≤ words) × (bytes_for_words count ≤ bytes)) (is_ok result) }
{
    if lies_inside(first, count, words as u128) && count <= bytes / 2 {
        Ok(())
    } else {
        Err(OutOfRange)
    }
}

// The same of a run of bits.
fn check_bits(words: usize, first: usize, count: usize, bytes: usize) -> Result<(), OutOfRange>
    ensures { Decides ((first + count ≤ words * word_bits) × (bytes_for_bits count ≤ bytes)) (is_ok result) }
{
    if lies_inside(first, count, words as u128 * 16) && count.div_ceil(BYTE_BITS) <= bytes {
        Ok(())
    } else {
        Err(OutOfRange)
    }
}

// Packs a run of bits into the start of the buffer: eight to a byte, first bit lowest, spare bits of the last byte 0.
// Out of range: nothing has changed.
pub fn pack_bits(
    image: &[u16],
    first: usize,
    count: usize,
    buffer: &mut [u8],
) -> Result<(), OutOfRange>
    ensures { PackBits image.now first count buffer.old (is_ok result) buffer.new }
{
    check_bits(image.len(), first, count, buffer.len())?;
    pieces::pack_run(image, first, count, buffer);
    Ok(())
}

// Packs a run of words into the start of the buffer: two bytes each, high byte first. Out of range: nothing has changed.
pub fn pack_words(
    image: &[u16],
    first: usize,
    count: usize,
    buffer: &mut [u8],
) -> Result<(), OutOfRange>
    ensures { PackWords image.now first count buffer.old (is_ok result) buffer.new }
{
    check_words(image.len(), first, count, buffer.len())?;
    for i in 0..count {
        let [high, low] = image[first + i].to_be_bytes();
        buffer[2 * i] = high;
        buffer[2 * i + 1] = low;
    }
    Ok(())
}

// Sets bit k of the image on or off. Out of range: there is no such bit; nothing has changed.
pub fn store_bit(image: &mut [u16], k: usize, on: bool) -> Result<(), OutOfRange>
    ensures { StoreBit k on image.old (is_ok result) image.new }
{
    if image.len() <= k / WORD_BITS {
        return Err(OutOfRange);
    }
    pieces::store_piece(image, k / WORD_BITS, k % WORD_BITS, 1, u16::from(on));
    Ok(())
}

// Sets word k of the image. Out of range: there is no such word; nothing has changed.
pub fn store_word(image: &mut [u16], k: usize, value: u16) -> Result<(), OutOfRange>
    ensures { StoreWord k value image.old (is_ok result) image.new }
{
    if image.len() <= k {
        return Err(OutOfRange);
    }
    image[k] = value;
    Ok(())
}

// Stores a run of bits from packed bytes; the last byte's spare bits, and bytes past it, are ignored.
// Out of range: nothing has changed.
pub fn store_bits(
    image: &mut [u16],
    first: usize,
    count: usize,
    bytes: &[u8],
) -> Result<(), OutOfRange>
    ensures { StoreBits first count bytes.now image.old (is_ok result) image.new }
{
    check_bits(image.len(), first, count, bytes.len())?;
    pieces::store_run(image, first, count, bytes);
    Ok(())
}

// Stores a run of words from bytes, two for each word, high byte first; bytes past them are ignored.
// Out of range: nothing has changed.
pub fn store_words(
    image: &mut [u16],
    first: usize,
    count: usize,
    bytes: &[u8],
) -> Result<(), OutOfRange>
    ensures { StoreWords first count bytes.now image.old (is_ok result) image.new }
{
    check_words(image.len(), first, count, bytes.len())?;
    for n in 0..count {
        image[first + n] = u16::from_be_bytes([bytes[2 * n], bytes[2 * n + 1]]);
    }
    Ok(())
}
