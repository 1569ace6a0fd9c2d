// Runs of bits moved by the word: up to sixteen bits at once, out of an image or packed bytes, and into an image or a buffer.
ghost use Rattle.std.specs.Prelude.{◌≡◌, ◌+◌, ◌*◌, ◌/◌, ◌^◌, ◌≤◌, ◌<◌, length};
ghost use Rattle.registers.specs.Memory.{word_bits, byte_bits, bit, image_bit, from, BitsInside};
ghost use Rattle.registers.specs.Packing.{packed_bit, bytes_for_bits, BitsPacked, Filled};
ghost use Rattle.registers.specs.Storing.{BitsStored};
ghost use Rattle.registers.specs.Pieces.{Shows};

use crate::{BYTE_BITS, WORD_BITS};

// 2 to the n.
fn power_of_two(n: usize) -> u32
    requires { n ≤ word_bits }
    ensures { result ≡ 2 ^ n }
{
    1 << n
}

// The image's bits from `ahead` words behind bit `first` on, `width` of them: past its end they are 0. The first of them may have
// a number that a `usize` cannot hold.
fn image_bits(image: &[u16], first: usize, ahead: usize, width: usize) -> u16
    requires { (first / word_bits + ahead < length image.now) × (width ≤ word_bits) }
    ensures { Shows width (from (ahead * word_bits) (from first (image_bit image.now))) result }
{
    let word = first / WORD_BITS + ahead;
    let next = image.get(word + 1).copied().unwrap_or(0);
    let pair = (next as u32) * 65536 + (image[word] as u32);
    ((pair >> (first % WORD_BITS)) % power_of_two(width)) as u16
}

// Sixteen packed bits from bit `first` on: past the end they are 0.
fn packed_bits(bytes: &[u8], first: usize) -> u16
    ensures { Shows word_bits (from first (packed_bit bytes.now)) result }
{
    let at = first / BYTE_BITS;
    let low = bytes.get(at).copied().unwrap_or(0);
    let middle = bytes.get(at + 1).copied().unwrap_or(0);
    let high = bytes.get(at + 2).copied().unwrap_or(0);
    let bits = u32::from_le_bytes([low, middle, high, 0]);
    ((bits >> (first % BYTE_BITS)) % 65536) as u16
}

// The same where all sixteen are there.
fn whole_bits(bytes: &[u8], first: usize) -> u16
    requires { first + word_bits ≤ length bytes.now * byte_bits }
    ensures { Shows word_bits (from first (packed_bit bytes.now)) result }
{
    let at = first / BYTE_BITS;
    let place = first % BYTE_BITS;
    if place == 0 {
        return u16::from_le_bytes([bytes[at], bytes[at + 1]]);
    }
    let bits = u32::from_le_bytes([bytes[at], bytes[at + 1], bytes[at + 2], 0]);
    ((bits >> place) % 65536) as u16
}

// Packs `whole` times sixteen bits, from bit `first` on.
fn pack_whole(image: &[u16], first: usize, whole: usize, buffer: &mut [u8])
    requires { (first + whole * word_bits ≤ length image.now * word_bits) × (2 * whole ≤ length buffer.old) }
    ensures { Filled (2 * whole) (BitsPacked (whole * word_bits) (from first (image_bit image.now)))
        buffer.old buffer.new }
{
    for i in 0..whole {
        let [low, high] = image_bits(image, first, i, WORD_BITS).to_le_bytes();
        buffer[2 * i] = low;
        buffer[2 * i + 1] = high;
    }
}

// Packs a run of bits that lies inside the image, into a buffer that has room for it: sixteen at once, and then those left.
pub(crate) fn pack_run(image: &[u16], first: usize, count: usize, buffer: &mut [u8])
    requires { BitsInside image.now first count × (bytes_for_bits count ≤ length buffer.old) }
    ensures { Filled (bytes_for_bits count) (BitsPacked count (from first (image_bit image.now)))
        buffer.old buffer.new }
{
    let whole = count / WORD_BITS;
    let left = count % WORD_BITS;
    pack_whole(image, first, whole, buffer);
    if left == 0 {
        return;
    }
    let [low, high] = image_bits(image, first, whole, left).to_le_bytes();
    buffer[2 * whole] = low;
    if left <= BYTE_BITS {
        return;
    }
    buffer[2 * whole + 1] = high;
}

// Stores the low `width` bits of a number, from `place` of a word on.
pub(crate) fn store_piece(image: &mut [u16], word: usize, place: usize, width: usize, bits: u16)
    requires { (word < length image.old) × (place + width ≤ word_bits) }
    ensures { BitsStored (word * word_bits + place) width (bit bits) image.old image.new }
{
    let low = power_of_two(place);
    let high = power_of_two(place + width);
    let new = (bits as u32) % power_of_two(width);
    let old = image[word] as u32;
    image[word] = (old / high * high + (new * low + old % low)) as u16;
}

// Stores `whole` words of packed bits, from bit `first` of them on.
fn store_whole(image: &mut [u16], word: usize, whole: usize, bytes: &[u8], first: usize)
    requires { (word + whole ≤ length image.old)
        × (first + whole * word_bits ≤ length bytes.now * byte_bits) × (first + whole * word_bits < 2 ^ 64) }
    ensures { BitsStored (word * word_bits) (whole * word_bits) (from first (packed_bit bytes.now)) image.old image.new }
{
    for i in 0..whole {
        image[word + i] = whole_bits(bytes, first + WORD_BITS * i);
    }
}

// Stores packed bits from bit `first` of them on, as a run that starts with a word and lies inside the image: whole words, and
// then the bits of a last one.
fn store_rest(image: &mut [u16], word: usize, count: usize, bytes: &[u8], first: usize)
    requires { (word * word_bits + count ≤ length image.old * word_bits)
        × (first + count ≤ length bytes.now * byte_bits) × (first + count < 2 ^ 64) }
    ensures { BitsStored (word * word_bits) count (from first (packed_bit bytes.now)) image.old image.new }
{
    let whole = count / WORD_BITS;
    let last = count % WORD_BITS;
    store_whole(image, word, whole, bytes, first);
    if last == 0 {
        return;
    }
    store_piece(
        image,
        word + whole,
        0,
        last,
        packed_bits(bytes, first + WORD_BITS * whole),
    );
}

// Stores a run of packed bits that lies inside the image: what fits into the run's first word, and then the rest, if any.
pub(crate) fn store_run(image: &mut [u16], first: usize, count: usize, bytes: &[u8])
    requires { BitsInside image.old first count × (bytes_for_bits count ≤ length bytes.now) }
    ensures { BitsStored first count (packed_bit bytes.now) image.old image.new }
{
    if count == 0 {
        return;
    }
    let word = first / WORD_BITS;
    let place = first % WORD_BITS;
    let head = count.min(WORD_BITS - place);
    store_piece(image, word, place, head, packed_bits(bytes, 0));
    if head == count {
        return;
    }
    store_rest(image, word + 1, count - head, bytes, head);
}
