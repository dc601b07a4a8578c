// The cube question: the loops of one cube, with the word and the place of each (document 01, "Faces, loops and places").
#![tactic(auto)]

ghost use Rattle.std.specs.Prelude.{◌≡◌, cond, [], ◌∷◌, ℕ, ◌≤◌, ◌<◌, eqb, get_or};
ghost use Rattle.block.specs.Grey.{SixteenBit};
ghost use Rattle.cube_rule.specs.Edges.{pattern_of, crossed_mask};
ghost use Rattle.place.specs.Place.{place_of};
ghost use Rattle.place.specs.Steps.{Placeable};
ghost use Rattle.cell.specs.Answer.{CubeAnswered, mark_of, origin};
ghost use Rattle.cell.specs.Steps.{empty_answer, word_or_zero};

use block::{Checked, Cut, Refusal};
use place::Offset;

// How many loops a cube has, or why it is refused.
#[derive(Clone, Copy)]
pub enum Found {
    Loops(u32),
    Refused(Refusal),
}

// What the cube question answers: how many loops, and in order the word and the offset of each; unused places hold zero.
#[derive(Clone, Copy)]
pub struct CubeAnswer {
    pub found: Found,
    pub words: [u32; 4],
    pub offsets: [Offset; 4],
}

// The cube question. Any eight samples and any threshold may be asked.
pub fn cube(corners: [u16; 8], cut: Cut) -> CubeAnswer
    ensures { CubeAnswered corners cut result }
{
    cube_by(cube::crossed_in(corners, cut), corners, cut)
}

// The same by the cube's crossed edges, for a caller that has them already.
pub fn cube_by(crossed: u32, corners: [u16; 8], cut: Cut) -> CubeAnswer
    requires { crossed ≡ crossed_mask (pattern_of cut corners) }
    ensures { CubeAnswered corners cut result }
{
    let checked = block::check_threshold(cut);
    if let Checked::Refuses(r) = checked {
        return refuse(r);
    }
    let loops = cube::loops_of(crossed, corners, cut);
    let masks = loops.masks;
    let samples = place::wide(corners);
    let a = place_or_zero(masks[0], samples, cut);
    let b = place_or_zero(masks[1], samples, cut);
    let c = place_or_zero(masks[2], samples, cut);
    let d = place_or_zero(masks[3], samples, cut);
    let words = words_of(masks, mark(corners));
    CubeAnswer {
        found: Found::Loops(loops.count),
        words: words,
        offsets: [a, b, c, d],
    }
}

// The mark that each vertex of a cube carries in its word: bit 12 if a corner is at the detector's ceiling, else nothing.
pub fn mark(corners: [u16; 8]) -> u32
    ensures value { result ≡ mark_of corners }
    ensures upper_bound { result ≤ 4096 }
{
    let mut i: usize = 0;
    while i < 8 {
        if corners[i] == 65535 {
            return 4096;
        }
        i += 1;
    }
    0
}

// The words of a cube's loops by their masks, and 0 where there is none.
fn words_of(masks: [u32; 4], marked: u32) -> [u32; 4]
    requires { ((i : ℕ) → get_or masks i 0 < 4096) × (marked ≤ 4096) }
    ensures { result ≡ word_or_zero marked (get_or masks 0 0) ∷ word_or_zero marked (get_or masks 1 0) ∷ word_or_zero marked (get_or masks 2 0) ∷ word_or_zero marked (get_or masks 3 0) ∷ [] }
{
    [
        word_or_zero(masks[0], marked),
        word_or_zero(masks[1], marked),
        word_or_zero(masks[2], marked),
        word_or_zero(masks[3], marked),
    ]
}

// The word of a loop: its mask and the mark; 0 where there is no loop.
fn word_or_zero(mask: u32, marked: u32) -> u32
    requires { (mask < 4096) × (marked ≤ 4096) }
    ensures { result ≡ word_or_zero marked mask }
{
    if mask == 0 {
        return 0;
    }
    mask + marked
}

fn zero() -> Offset
    ensures { result ≡ origin }
{
    Offset {
        x: 0.0,
        y: 0.0,
        z: 0.0,
    }
}

// A refusal: every place holds zero.
fn refuse(r: Refusal) -> CubeAnswer
    ensures { result ≡ empty_answer r }
{
    let o = zero();
    CubeAnswer {
        found: Found::Refused(r),
        words: [0, 0, 0, 0],
        offsets: [o, o, o, o],
    }
}

// The place of a loop, or zeros where there is none.
fn place_or_zero(mask: u32, corners: [u32; 8], cut: Cut) -> Offset
    requires { (0 < mask → Placeable cut corners mask) × SixteenBit corners }
    ensures { result ≡ cond (eqb mask 0) origin (place_of cut corners mask) }
{
    if mask == 0 {
        return zero();
    }
    place::place(mask, corners, cut)
}
