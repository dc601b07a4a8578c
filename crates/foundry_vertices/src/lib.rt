// The vertices of a mesh from the foundry: the first that is at fault (document 02, Twelve). Each is held beside its cube. Repeated ones are looked for
// by keys, in ranges of cubes.
#![tactic(auto)]

ghost use Rattle.std.specs.Prelude.{◌≡◌, ℕ, ◌+◌, ◌*◌, ◌≤◌, ◌<◌, length};
ghost use Rattle.laws.specs.Bits.{bit};
ghost use Rattle.laws.specs.Counting.{count};
ghost use Rattle.laws.specs.Leading.{leading};
ghost use Rattle.block.specs.Numbering.{cube_count};
ghost use Rattle.block.specs.Steps.{Sampled};
ghost use Rattle.foundry_rule.specs.Judged.{vertex_total};
ghost use Rattle.foundry_rule.specs.Spots.{place_among, word_place, place_in, cube_at, vertex_key};
ghost use Rattle.foundry_vertices.specs.Steps.{Shaped, IsPlace, in_range, looks_sound, spot_sound};

use block::{Cut, Size};
use repeats::Keyed;

// The place of a mask among four. (Tests, and no `position` over the masks, by which a look at a vertex took up to three hundredths longer.)
fn place_among(m: u32, masks: [u32; 4]) -> Option<u32>
    ensures { IsPlace (place_among m masks) result }
{
    if m == masks[0] {
        return Some(0);
    }
    if m == masks[1] {
        return Some(1);
    }
    if m == masks[2] {
        return Some(2);
    }
    if m == masks[3] {
        return Some(3);
    }
    None
}

// At most so many crossed edges are never two loops, which have six at least.
const SINGLE: u32 = 5;

// The place of a word among those of a cube's loops.
#[tactic(auto, unfolding(foundry_rule::specs::Spots::word_place))]
fn word_place(corners: [u16; 8], cut: Cut, w: u32) -> Option<u32>
    ensures { IsPlace (word_place cut corners w) result }
{
    let mark = cell::mark(corners);
    if w <= mark {
        return None;
    }
    let m = w - mark;
    let crossed = cube::crossed_in(corners, cut);
    if crossed.count_ones() <= SINGLE {
        return (m == crossed).then_some(0);
    }
    place_among(m, cube::loops_of(crossed, corners, cut).masks)
}

// The place of the word w among those of the cube c, if there is such a cube.
#[tactic(auto, unfolding(foundry_rule::specs::Spots::place_in))]
fn place_in(size: Size, samples: &[u16], cut: Cut, c: u32, w: u32) -> Option<u32>
    requires { Sampled size samples.now }
    ensures { IsPlace (place_in size samples.now cut c w) result }
{
    if c >= vertex_lists::cubes(size) {
        return None;
    }
    word_place(cube_spots::corners_of(size, samples, c), cut, w)
}

// The number that tells a vertex of ours from every other: its cube, and the place of its word there.
fn key_of(c: u32, place: u32) -> u64
    requires { place < 4 }
    ensures value { result ≡ 4 * c + place }
    ensures upper_bound { result < 17179869184 }
{
    4 * u64::from(c) + u64::from(place)
}

// 1 for a cube in the range, 0 for another.
fn in_range(r: u32, c: u32) -> u32
    ensures value { result ≡ bit (in_range r c) }
    ensures upper_bound { result ≤ 1 }
{
    u32::from(c / 65536 == r)
}

// How many of 64 vertices have their cubes in the range. The loop has no way out, so the compiler takes four at a time.
#[tactic(auto, using(laws::proofs::Counting::count_none, laws::proofs::Counting::count_next))]
fn near(words: &[u32], r: u32, v: usize) -> u32
    requires { 2 * (v + 64) ≤ length words.now }
    ensures { result ≡ count (λ (i : ℕ). in_range r (cube_at words.now (v + i))) 64 }
{
    let mut n: u32 = 0;
    for i in 0..64 {
        n += in_range(r, words[2 * (v + i)]);
    }
    n
}

// The vertices as they were sent, beside the block.
#[derive(Clone, Copy)]
struct Vertices<'a> {
    size: Size,
    samples: &'a [u16],
    cut: Cut,
    words: &'a [u32],
    offsets: &'a [f64],
}

impl<'a> Keyed for Vertices<'a> {
    ghost ready = { λ s. Sampled s.size s.samples.now × Shaped s.words.now s.offsets.now };

    ghost count = { λ s. vertex_total s.words.now };

    ghost sound = { λ s. looks_sound s.size s.samples.now s.cut s.words.now s.offsets.now };

    ghost key = { λ s. vertex_key s.words.now s.size s.samples.now s.cut };

    // Four for each cube.
    ghost keys = { λ s. 4 * cube_count s.size };

    fn count(&self) -> usize {
        self.words.len() / 2
    }

    // 65,536 cubes a range.
    fn ranges(&self) -> u32 {
        vertex_lists::cubes(self.size).div_ceil(65536)
    }

    fn key(&self, v: usize) -> Option<u64> {
        let n = 3 * v;
        if !vertex_lists::all_in_unit(self.offsets[n], self.offsets[n + 1], self.offsets[n + 2]) {
            return None;
        }
        let c = self.words[2 * v];
        let place = place_in(self.size, self.samples, self.cut, c, self.words[2 * v + 1])?;
        Some(key_of(c, place))
    }

    fn place(&self, r: u32, v: usize) -> Option<usize> {
        let c = self.words[2 * v];
        if c / 65536 != r {
            return None;
        }
        let place = place_in(self.size, self.samples, self.cut, c, self.words[2 * v + 1])?;
        Some(key_of(c % 65536, place) as usize)
    }

    // Fewer than 64 are not looked at.
    fn is_far(&self, r: u32, v: usize, end: usize) -> bool {
        end - v == 64 && near(self.words, r, v) == 0
    }
}

// The first vertex at fault; how many there are, where none is.
pub fn first_fault(size: Size, samples: &[u16], cut: Cut, words: &[u32], offsets: &[f64]) -> usize
    requires sampled { Sampled size samples.now }
    requires shaped { Shaped words.now offsets.now }
    ensures { result ≡ leading (spot_sound size samples.now cut words.now offsets.now) (vertex_total words.now) }
{
    repeats::first_fault(&Vertices {
        size,
        samples,
        cut,
        words,
        offsets,
    })
}
