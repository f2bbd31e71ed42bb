// A reader of bits over borrowed bytes, the most significant bit of each byte first.
ghost use Rattle.std.specs.Prelude.{◌≡◌, ◌+◌, ◌*◌, ◌<◌, ◌≤◌, length, take, drop, IfSome, ◌==◌, nat_le, slice_index};
ghost use Rattle.fields.specs.Bits.{bits, taken};
ghost use Rattle.fields.specs.Padding.{stray, byte_end};

use crate::fault::{Field, FieldFault, Refusal};
use crate::fronts::first;

// A reader sees at most so many bytes of its input, more than any file of this format has.
pub const MOST_BYTES: usize = 65536;

// `at` is the number of the next bit.
#[derive(Drop)]
pub struct BitReader<'a> {
    bytes: &'a [u8],
    at: u32,
    ghost few: { length bytes.now ≤ 65536 },
    ghost inside: { at ≤ 8 * length bytes.now },
}

impl<'a> BitReader<'a> {
    // A reader that stands at the first bit.
    pub fn new(bytes: &'a [u8]) -> Self
        ensures bytes { result.bytes.now ≡ take 65536 bytes.now }
        ensures place { result.at ≡ 0 }
    {
        BitReader {
            bytes: first(bytes, MOST_BYTES),
            at: 0,
        }
    }

    // Whether the input has so many bits. By `as`, since `From` does not go from `u32` to `usize`.
    fn has(&self, count: u32) -> bool
        ensures { result ≡ nat_le count (8 * length self.now.bytes.now) }
    {
        (count as usize).div_ceil(8) <= self.bytes.len()
    }

    // That something is wrong with the field that begins at the next bit.
    pub(crate) fn fault(&self, refusal: Refusal, field: Field) -> FieldFault
        ensures { result ≡ record { refusal = refusal; field = field; bit = self.now.at } }
    {
        FieldFault {
            refusal,
            field,
            bit: self.at,
        }
    }

    // The bit at `at`, in the byte whose number is found by `as`, as in `has`.
    fn bit(&self, at: u32) -> u8
        requires { at < 8 * length self.now.bytes.now }
        ensures { result ≡ slice_index (bits self.now.bytes.now) at }
    {
        (self.bytes[(at / 8) as usize] >> (7 - at % 8)) & 1
    }

    // Whether the bit at `at` is 1.
    fn is_set(&self, at: u32) -> bool
        requires { at < 8 * length self.now.bytes.now }
        ensures { result ≡ (slice_index (bits self.now.bytes.now) at == 1) }
    {
        self.bit(at) == 1
    }

    // The number in the next `width` bits, where the input has so many. The reader does not pass them.
    #[tactic(auto, using(crate::proofs::Numbers::length_bits, crate::proofs::Binary::bit_below, crate::proofs::Binary::number_next, crate::proofs::Binary::pow_next))]
    pub(crate) fn peek(&self, width: u32) -> Option<u16>
        requires { width ≤ 16 }
        ensures value { result ≡ taken width (bits self.now.bytes.now) self.now.at }
        ensures room { IfSome result (λ _. self.now.at + width ≤ 8 * length self.now.bytes.now) }
    {
        let first = self.at;
        let end = first + width;
        if !self.has(end) {
            return None;
        }
        let mut value: u16 = 0;
        // Not a `fold`: that the value fits would need this loop's invariant as a lemma of its own.
        for at in first..end {
            value = value * 2 + u16::from(self.bit(at));
        }
        Some(value)
    }

    // Passes the next `width` bits.
    pub(crate) fn advance(&mut self, width: u32)
        requires { self.old.at + width ≤ 8 * length self.old.bytes.now }
        ensures place { self.new.at ≡ self.old.at + width }
        ensures bytes { self.new.bytes.now ≡ self.old.bytes.now }
    {
        self.at += width;
    }

    // The earliest bit from here on that is 1 or lies in a further byte.
    pub fn stray(&self) -> Option<u32>
        ensures { result ≡ stray (byte_end self.now.at) (drop self.now.at (bits self.now.bytes.now)) self.now.at }
    {
        let end = self.at.div_ceil(8) * 8;
        (self.at..end)
            .find(|at| self.is_set(*at))
            .or(self.has(end + 1).then_some(end))
    }
}
