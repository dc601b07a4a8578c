// Where the surface crosses an edge, and the place of a loop in its cube (document 01, "Faces, loops and places").
#![tactic(auto)]

ghost use Rattle.std.specs.Prelude.{◌≡◌, ◌+◌, ◌-◌, ◌<◌};
ghost use Rattle.block.specs.Answer.{refused};
ghost use Rattle.block.specs.Grey.{positive, SixteenBit};
ghost use Rattle.cube_rule.specs.Edges.{lower, upper};
ghost use Rattle.place.specs.Crossing.{gap, fraction, said_edge, EdgeAnswered};
ghost use Rattle.place.specs.Place.{local, place_of};
ghost use Rattle.place.specs.Steps.{Placeable, Fractional, plus_crossing, plus_edge, sum_of, divided_by};

use block::{Cut, Refusal};

// What an edge answers: no crossing, the fraction of the way from the lower end to the upper, or a refusal.
#[derive(Clone, Copy)]
pub enum Crossing {
    Nothing,
    At(f64),
    Refused(Refusal),
}

// A place in a cube: an offset from its corner 0.
#[derive(Clone, Copy)]
pub struct Offset {
    pub x: f64,
    pub y: f64,
    pub z: f64,
}

// Where the surface crosses an edge with the sample p at its lower end and q at its upper. Any three numbers may be asked.
pub fn edge(p: u16, q: u16, t: u16) -> Crossing
    ensures { EdgeAnswered p q t result }
{
    if t == 0 {
        return refuse(t);
    }
    if t == 65535 {
        return refuse(t);
    }
    let cut = Cut { t: t, noise: 0 };
    let lower_sign = is_positive(cut, p);
    let upper_sign = is_positive(cut, q);
    if lower_sign == upper_sign {
        return Crossing::Nothing;
    }
    Crossing::At(fraction_of(cut, p, q))
}

// The samples at a cube's corners as `place` takes them. (Eight half words that are just written and then read as whole words hold the processor
// up, and eight words do not.)
pub fn wide(corners: [u16; 8]) -> [u32; 8]
    ensures value { result ≡ corners }
    ensures sixteen_bit { SixteenBit result }
{
    [
        corners[0] as u32,
        corners[1] as u32,
        corners[2] as u32,
        corners[3] as u32,
        corners[4] as u32,
        corners[5] as u32,
        corners[6] as u32,
        corners[7] as u32,
    ]
}

// The place of a set of edges: the mean of their crossings. (Twelve steps and no loop: each is compiled for its own edge.)
pub fn place(mask: u32, corners: [u32; 8], cut: Cut) -> Offset
    requires { Placeable cut corners mask × SixteenBit corners }
    ensures { result ≡ place_of cut corners mask }
{
    let none = Offset {
        x: 0.0,
        y: 0.0,
        z: 0.0,
    };
    let s0 = none.with_held(corners, cut, mask, 0);
    let s1 = s0.with_held(corners, cut, mask, 1);
    let s2 = s1.with_held(corners, cut, mask, 2);
    let s3 = s2.with_held(corners, cut, mask, 3);
    let s4 = s3.with_held(corners, cut, mask, 4);
    let s5 = s4.with_held(corners, cut, mask, 5);
    let s6 = s5.with_held(corners, cut, mask, 6);
    let s7 = s6.with_held(corners, cut, mask, 7);
    let s8 = s7.with_held(corners, cut, mask, 8);
    let s9 = s8.with_held(corners, cut, mask, 9);
    let s10 = s9.with_held(corners, cut, mask, 10);
    let s11 = s10.with_held(corners, cut, mask, 11);
    s11.over(u32::count_ones(mask))
}

impl Offset {
    // The sum with the crossing of an edge of the cube, if the mask holds the edge.
    fn with_held(self, corners: [u32; 8], cut: Cut, mask: u32, e: u32) -> Offset
        requires { Placeable cut corners mask × SixteenBit corners × (e < 12) }
        ensures { self ≡ sum_of cut corners mask e → result ≡ sum_of cut corners mask (e + 1) }
    {
        if (mask >> e) % 2 == 0 {
            return self;
        }
        self.with_edge(corners, cut, e)
    }

    // The sum with the crossing of an edge of the cube, by the edge question, which answers its fraction.
    fn with_edge(self, corners: [u32; 8], cut: Cut, e: u32) -> Offset
        requires { Fractional cut corners e × SixteenBit corners }
        ensures { result ≡ plus_edge cut corners e self }
    {
        let l = lower_corner(e) as usize;
        let u = upper_corner(e) as usize;
        let p = corners[l] as u16;
        let q = corners[u] as u16;
        let Crossing::At(f) = edge(p, q, cut.t) else {
            // Never reached: the edge is crossed, and no row refuses it.
            return self;
        };
        self.plus(e, f)
    }

    // The sum with the crossing of the edge e at the fraction f.
    fn plus(self, e: u32, f: f64) -> Offset
        requires { e < 12 }
        ensures { result ≡ plus_crossing e f self }
    {
        let x = local_on(0, e, f);
        let y = local_on(1, e, f);
        let z = local_on(2, e, f);
        Offset {
            x: self.x + x,
            y: self.y + y,
            z: self.z + z,
        }
    }

    // Each coordinate divided once.
    fn over(self, n: u32) -> Offset
        ensures { result ≡ divided_by n self }
    {
        let d = n as f64;
        Offset {
            x: self.x / d,
            y: self.y / d,
            z: self.z / d,
        }
    }
}

// The corners of the edges, a hexadecimal digit each, edge 0 last. (An array would be filled anew at each call.)
const LOWER: u64 = 0x3210_5410_6420;

const UPPER: u64 = 0x7654_7632_7531;

// The lower end of an edge.
fn lower_corner(e: u32) -> u32
    requires { e < 12 }
    ensures value { result ≡ lower e }
    ensures upper_bound { result < 8 }
{
    ((LOWER >> (4 * e)) % 16) as u32
}

// The upper end of an edge.
fn upper_corner(e: u32) -> u32
    requires { e < 12 }
    ensures value { result ≡ upper e }
    ensures upper_bound { result < 8 }
{
    ((UPPER >> (4 * e)) % 16) as u32
}

// The local coordinate of a crossing on an axis.
fn local_on(axis: u32, e: u32, f: f64) -> f64
    requires { (axis < 3) × (e < 12) }
    ensures { result ≡ local axis e f }
{
    if e / 4 == axis {
        return f;
    }
    let side = (lower_corner(e) >> axis) % 2;
    side as f64
}

// Whether a sample is metal.
fn is_positive(cut: Cut, s: u16) -> bool
    ensures { result ≡ positive cut s }
{
    cut.t <= s
}

// How far apart two numbers are.
fn apart(a: u16, b: u16) -> u16
    ensures { result ≡ gap a b }
{
    if a < b { b - a } else { a - b }
}

// The lesser of two numbers.
fn lesser(a: u16, b: u16) -> u16
    ensures { result ≡ a - (a - b) }
{
    if a < b { a } else { b }
}

// The greater of two numbers.
fn greater(a: u16, b: u16) -> u16
    ensures { result ≡ a + (b - a) }
{
    if a < b { b } else { a }
}

// How far apart two numbers are, by one difference. (Two calls of `apart` for one quotient are compiled as a pair, which is slower.)
fn span(a: u16, b: u16) -> u16
    ensures { result ≡ gap a b }
{
    greater(a, b) - lesser(a, b)
}

// One division of two whole numbers, neither of them signed.
fn fraction_of(cut: Cut, p: u16, q: u16) -> f64
    ensures { result ≡ fraction cut p q }
{
    let n = apart(cut.t, p);
    let d = span(q, p);
    (n as f64) / (d as f64)
}

// Refusal 3, with the threshold as its value.
fn refuse(t: u16) -> Crossing
    ensures { said_edge result ≡ refused (record { number = 3; value = t }) }
{
    Crossing::Refused(Refusal {
        number: 3,
        value: t as u32,
    })
}
