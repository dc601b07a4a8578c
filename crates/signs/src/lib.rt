// The signs of a plane of samples as words of 64 bits, five words to a row.
#![tactic(auto)]

ghost use Rattle.std.specs.Prelude.{◌≡◌, List, ℕ, ◌+◌, ◌*◌, ◌/◌, ◌%◌, ◌^◌, ◌<◌, ◌≤◌, leb, length, get_or};
ghost use Rattle.std.proofs.lemmas.List.Edits.{sets};
ghost use Rattle.laws.specs.Below.{over};
ghost use Rattle.laws.specs.Bits.{bit};
ghost use Rattle.laws.specs.Pack.{pack};
ghost use Rattle.block.specs.Numbering.{sample_count};
ghost use Rattle.block.specs.Size.{Limits};
ghost use Rattle.signs.specs.Signs.{plane_words};
ghost use Rattle.signs.specs.Steps.{SignBytes, BitBytes, eight_bytes, words_of, words_from, five_words};

use block::{Cut, Size};

// A block of samples, by whose grey values its signs are told.
pub trait Samples: Copy {
    ghost greys: { Self → List ℕ };

    // 1 for a positive sample, else 0.
    fn sign(self, i: usize, t: u16) -> u8
        requires { i < length (greys self) }
        ensures value { result ≡ bit (leb t (get_or (greys self) i 0)) }
        ensures upper_bound { result ≤ 1 };
}

impl<'a> Samples for &'a [u16] {
    ghost greys = { λ s. s.now };

    fn sign(self, i: usize, t: u16) -> u8 {
        if t <= self[i] { 1 } else { 0 }
    }
}

// The words of plane k, five to a row, at the front of a buffer for the largest plane.
pub fn plane_signs(size: Size, samples: &[u16], cut: Cut, k: usize, plane: &mut [u64])
    requires { Limits size × (length samples.now ≡ sample_count size) × (k < size.nz) × (length plane.old ≡ 1280) }
    ensures { plane.new ≡ over (plane_words size samples.now cut k) plane.old }
{
    block_signs(size, samples, cut, k, plane);
}

// The same of any block of samples.
pub fn block_signs<B: Samples>(size: Size, samples: B, cut: Cut, k: usize, plane: &mut [u64])
    requires { Limits size × (length (B.greys samples) ≡ sample_count size) × (k < size.nz) × (length plane.old ≡ 1280) }
    ensures { plane.new ≡ over (plane_words size (B.greys samples) cut k) plane.old }
{
    let nx = size.nx();
    let ny = size.ny();
    for j in 0..ny {
        row_of(samples, nx * (j + ny * k), nx, cut, plane, j);
    }
}

// The five words of a row of samples, as row j of a plane.
pub fn row_signs(row: &[u16], cut: Cut, plane: &mut [u64], j: usize)
    requires { (length row.now ≤ 256) × (5 * j + 5 ≤ length plane.old) }
    ensures { plane.new ≡ sets plane.old (5 * j) (five_words row.now cut) }
{
    row_of(row, 0, row.len(), cut, plane, j);
}

// The five words of the row of nx samples from the index p on, as row j of a plane. The fifth is 0, since no sample stands past the fourth.
#[tactic(auto, using(crate::proofs::Rows::words_from_lem))]
fn row_of<B: Samples>(samples: B, p: usize, nx: usize, cut: Cut, plane: &mut [u64], j: usize)
    requires { (nx ≤ 256) × (p ≤ 16777216) × (p + nx ≤ length (B.greys samples)) × (5 * j + 5 ≤ length plane.old) }
    ensures { plane.new ≡ sets plane.old (5 * j) (words_from (B.greys samples) cut.t p nx) }
{
    let bytes = row_bytes(samples, p, nx, cut.t);
    put_signs(&bytes, plane, j);
}

// The five words of a row whose signs are bytes of 0 or 1, as row j of a plane.
pub fn put_signs(bytes: &[u8], plane: &mut [u64], j: usize)
    requires { (length bytes.now ≡ 256) × BitBytes bytes.now × (5 * j + 5 ≤ length plane.old) }
    ensures { plane.new ≡ sets plane.old (5 * j) (words_of bytes.now) }
{
    let q = 5 * j;
    plane[q] = gathered(bytes, 0);
    plane[q + 1] = gathered(bytes, 1);
    plane[q + 2] = gathered(bytes, 2);
    plane[q + 3] = gathered(bytes, 3);
    plane[q + 4] = 0;
}

// The signs of the nx samples from the index p on, a byte each, 0 past them: a loop that is compiled to comparisons of eight samples at once.
fn row_bytes<B: Samples>(samples: B, p: usize, nx: usize, t: u16) -> [u8; 256]
    requires { (nx ≤ 256) × (p ≤ 16777216) × (p + nx ≤ length (B.greys samples)) }
    ensures { SignBytes (B.greys samples) t p nx result }
{
    let mut m = [0u8; 256];
    for i in 0..nx {
        m[i] = samples.sign(i + p, t);
    }
    m
}

// A part of eight bytes as one word: a function of its own, so that it is compiled to one load.
fn eight_of(part: &[u8]) -> u64
    requires { length part.now ≡ 8 }
    ensures { result ≡ eight_bytes part.now 0 }
{
    u64::from_le_bytes([
        part[0], part[1], part[2], part[3], part[4], part[5], part[6], part[7],
    ])
}

// A word of eight rows of eight bits, with rows and columns exchanged. The steps swap bits that are 7, 14 and 28 places apart: single bits, then
// squares of four bits, then squares of sixteen. Where all bits are alike there is nothing to do, and in a scan most words are so.
#[tactic(auto, using(crate::proofs::Swaps::exchanged_word))]
fn transposed(y: u64) -> u64
    ensures { result ≡ pack (λ (i : ℕ). y / 2 ^ (8 * (i % 8) + i / 8) % 2) 64 }
{
    if y == 0 {
        return 0;
    }
    if y == u64::MAX {
        return u64::MAX;
    }
    let s = (y ^ (y >> 7)) & 0x00AA00AA00AA00AA;
    let a = y ^ s ^ (s << 7);
    let t = (a ^ (a >> 14)) & 0x0000CCCC0000CCCC;
    let b = a ^ t ^ (t << 14);
    let u = (b ^ (b >> 28)) & 0x00000000F0F0F0F0;
    b ^ u ^ (u << 28)
}

// Word w of a row's signs, from their bytes. Byte 8 k + l is put into bit k of a word's byte l. With rows and columns exchanged all 64 stand in order.
fn gathered(bytes: &[u8], w: usize) -> u64
    requires { (w < 4) × (length bytes.now ≡ 256) × BitBytes bytes.now }
    ensures { result ≡ pack (λ (i : ℕ). get_or bytes.now (64 * w + i) 0) 64 }
{
    let mut y: u64 = 0;
    for k in 0..8 {
        let p = 64 * w + 8 * k;
        y |= eight_of(&bytes[p..p + 8]) << k;
    }
    transposed(y)
}
