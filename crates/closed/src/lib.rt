// The closed question: whether each side of a list of quads is in order, and the first side that is not (document 01, "The mesh"; document 02,
// Four). `closed` compares every side with every other, so its cost grows with the square of the list's length.
#![tactic(auto)]

ghost use Rattle.std.specs.Prelude.{◌≡◌, ◌&&◌, ◌≤◌, ◌<◌, eqb};
ghost use Rattle.laws.specs.Bits.{bit};
ghost use Rattle.closed.specs.Closed.{ClosedAnswered};
ghost use Rattle.closed.specs.Steps.{next_place, sound_side};

use block::{Checked, Refusal};

// What the closed question answers: closed, or open at a side of a quad, both counted from 0.
#[derive(Clone, Copy)]
pub enum Closure {
    Closed,
    Open { quad: usize, side: usize },
    Refused(Refusal),
}

// The place of the vertex at which side n ends. Sides are counted over all quads: side s of quad q is side 4·q + s.
pub fn next(n: usize) -> usize
    requires { n < 4611686018427387904 }
    ensures { result ≡ next_place n }
{
    4 * (n / 4) + (n + 1) % 4
}

// 1 if a side from c to d is one from a to b, else 0.
fn runs(c: u32, d: u32, a: u32, b: u32) -> usize
    ensures value { result ≡ bit (eqb c a && eqb d b) }
    ensures upper_bound { result ≤ 1 }
{
    if c == a {
        if d == b {
            return 1;
        }
    }
    0
}

// Whether a side from a to b that is walked so often there and back is in order.
pub fn sound(a: u32, b: u32, there: usize, back: usize) -> bool
    ensures { result ≡ sound_side a b there back }
{
    if a == b {
        return false;
    }
    there == back
}

// Whether a list of quads is closed.
pub fn closed(quads: &[u32]) -> Closure
    ensures { ClosedAnswered quads.now result }
{
    let row = lists::check_length(quads);
    if let Checked::Refuses(r) = row {
        return Closure::Refused(r);
    }
    let count = quads.len() / 4;
    let mut quad = 0;
    let mut side = 0;
    'quads: while quad < count {
        side = 0;
        'sides: while side < 4 {
            let n = 4 * quad + side;
            let a = quads[n];
            let e = next(n);
            let b = quads[e];
            let mut there = 0;
            let mut back = 0;
            let mut m = 0;
            'walks: while m < quads.len() {
                let c = quads[m];
                let f = next(m);
                let d = quads[f];
                there += runs(c, d, a, b);
                back += runs(c, d, b, a);
                m += 1;
            }
            if !sound(a, b, there, back) {
                break 'quads;
            }
            side += 1;
        }
        quad += 1;
    }
    if quad < count {
        Closure::Open { quad, side }
    } else {
        Closure::Closed
    }
}
