// One cube: its sign pattern, its crossed edges, the decider of its faces, its links and its loops (document 01, "The block and its
// numbering" and "Faces, loops and places").
#![tactic(auto)]

ghost use Rattle.std.specs.Prelude.{◌≡◌, ◌≤◌, ◌<◌, pos, ◌+ℤ◌, ◌*ℤ◌};
ghost use Rattle.std.specs.Int.Bits.{bit_and};
ghost use Rattle.std.specs.Int.Count.{ones};
ghost use Rattle.laws.specs.Bits.{differ};
ghost use Rattle.block.specs.Grey.{positive};
ghost use Rattle.cube_rule.specs.Edges.{pattern_of, crossed_mask};
ghost use Rattle.cube_rule.specs.Links.{decisions};
ghost use Rattle.cube_rule.specs.Decider.{difference_of, joined};
ghost use Rattle.cube_rule.specs.Loops.{links_of, lowest_edge, join, grow, loop_from};
ghost use Rattle.cube.specs.Faces.{cut_face};
ghost use Rattle.cube.specs.Answer.{loops_given};

use block::Cut;

// The loops of a cube: how many, and their masks by their lowest edge, 0 where there is none.
#[derive(Clone, Copy)]
pub struct Loops {
    pub count: u32,
    pub masks: [u32; 4],
}

// A face: the corners around it, and its edges as masks of the cube's: all four, the two that meet at its first corner, and the two that meet at the
// next.
#[derive(Clone, Copy)]
struct Face {
    around: [usize; 4],
    ring: u32,
    corner: u32,
    next: u32,
}

// The links of a face: two masks, each a link or 0.
#[derive(Clone, Copy)]
struct Links {
    first: u32,
    second: u32,
}

// The faces x=0, x=1, y=0, y=1, z=0, z=1. (The compiler takes the loop over them apart, so that each is decided by its own constants.)
const FACES: [Face; 6] = [
    Face {
        around: [0, 2, 6, 4],
        ring: 0x550,
        corner: 0x110,
        next: 0x410,
    },
    Face {
        around: [1, 3, 7, 5],
        ring: 0xAA0,
        corner: 0x220,
        next: 0x820,
    },
    Face {
        around: [0, 1, 5, 4],
        ring: 0x305,
        corner: 0x101,
        next: 0x201,
    },
    Face {
        around: [2, 3, 7, 6],
        ring: 0xC0A,
        corner: 0x402,
        next: 0x802,
    },
    Face {
        around: [0, 1, 3, 2],
        ring: 0x033,
        corner: 0x011,
        next: 0x021,
    },
    Face {
        around: [4, 5, 7, 6],
        ring: 0x0CC,
        corner: 0x044,
        next: 0x084,
    },
];

// The sign pattern of a cube: bit c is set if corner c is positive.
fn pattern(corners: [u16; 8], cut: Cut) -> u32
    ensures value { result ≡ pattern_of cut corners }
    ensures upper_bound { result < 256 }
{
    let mut p: u32 = 0;
    for (c, sample) in corners.iter().enumerate() {
        if cut.t <= *sample {
            p += 1u32 << c;
        }
    }
    p
}

// The crossed edges of a sign pattern, as a mask: bit e for edge e. The ends of an edge along x, y and z are 1, 2 and 4 corners apart, so the
// pattern is compared with itself so many corners on. For each axis only the bits of its edges' lower corners count: 0, 2, 4, 6 for x, 0, 1, 4, 5 for y
// and 0, 1, 2, 3 for z. They are moved together, four bits an axis.
pub fn crossed_edges(p: u32) -> u32
    requires { p < 256 }
    ensures value { result ≡ crossed_mask p }
    ensures upper_bound { result < 4096 }
{
    let x = (p ^ (p >> 1)) & 0x55;
    let y = (p ^ (p >> 2)) & 0x33;
    let z = (p ^ (p >> 4)) & 0x0F;
    let pairs = (x | (x >> 1)) & 0x33;
    let along_x = (pairs | (pairs >> 2)) & 0x0F;
    let along_y = (y | (y >> 2)) & 0x0F;
    along_x | (along_y << 4) | (z << 8)
}

// The crossed edges of a cube of samples.
pub fn crossed_in(corners: [u16; 8], cut: Cut) -> u32
    ensures { result ≡ crossed_mask (pattern_of cut corners) }
{
    crossed_edges(pattern(corners, cut))
}

// Sample minus t, signed.
fn difference(cut: Cut, s: u16) -> i32
    ensures { result ≡ difference_of cut s }
{
    (s as i32) - (cut.t as i32)
}

// The whole product of two differences.
fn product(x: i32, y: i32) -> i64
    ensures { result ≡ x *ℤ y }
{
    (x as i64) * (y as i64)
}

// The same with the noise figure on top: no u32 takes it out of an i64.
fn raised(x: i32, y: i32, n: u32) -> i64
    ensures { result ≡ x *ℤ y +ℤ pos n }
{
    product(x, y) + (n as i64)
}

// Whether the positive corners of a face with four crossed edges are joined: whether their product is at least that of the negative corners and the noise figure
// together. p, q, r, s are the samples round the face.
pub fn decide(cut: Cut, p: u16, q: u16, r: u16, s: u16) -> bool
    ensures { result ≡ joined cut p q r s }
{
    let dp = difference(cut, p);
    let dq = difference(cut, q);
    let dr = difference(cut, r);
    let ds = difference(cut, s);
    let pr = product(dp, dr);
    let qs = product(dq, ds);
    let pr_raised = raised(dp, dr, cut.noise);
    let qs_raised = raised(dq, ds, cut.noise);
    if cut.t <= p {
        qs_raised <= pr
    } else {
        pr_raised <= qs
    }
}

// The links of a face, where `crossed` are the cube's crossed edges and p, q, r, s the samples round the face, p at its first corner.
// With four crossed edges, those that meet at the first corner are linked if it is positive and the positive corners are not joined, or
// negative and they are.
fn face_links(face: Face, crossed: u32, cut: Cut, p: u16, q: u16, r: u16, s: u16) -> Links
    ensures { result ≡ cut_face face (bit_and crossed face.ring) (differ (positive cut p) (joined cut p q r s)) }
{
    let m = crossed & face.ring;
    if m != face.ring {
        return Links {
            first: m,
            second: 0,
        };
    }
    let positive = cut.t <= p;
    let joined = decide(cut, p, q, r, s);
    let first = if positive != joined {
        face.corner
    } else {
        face.next
    };
    Links {
        first,
        second: face.ring ^ first,
    }
}

// The links of a cube with the crossed edges `crossed`, two for each face.
fn links_of(corners: [u16; 8], cut: Cut, crossed: u32) -> [u32; 12]
    requires { crossed ≡ crossed_mask (pattern_of cut corners) }
    ensures { result ≡ links_of (pattern_of cut corners) (decisions joined cut corners) }
{
    let mut links = [0; 12];
    for (f, face) in FACES.iter().enumerate() {
        let [p, q, r, s] = face.around;
        let l = face_links(
            *face, crossed, cut, corners[p], corners[q], corners[r], corners[s],
        );
        links[2 * f] = l.first;
        links[2 * f + 1] = l.second;
    }
    links
}

// A set of edges, with the other end of a link that has an edge in it.
fn join_link(m: u32, link: u32) -> u32
    ensures { result ≡ join m link }
{
    if m & link == 0 { m } else { m | link }
}

// A set of edges with what each link in turn adds to it.
fn round(links: [u32; 12], m: u32) -> u32
    ensures { result ≡ grow m links }
{
    links.iter().fold(m, |x, link| join_link(x, *link))
}

// Up to this many edges of whole loops are one loop: two loops have six.
const SINGLE: u32 = 5;

// The loop of the lowest edge of a set of edges, those of whole loops, in three rounds of its links; a round that adds nothing is the last.
fn loop_from(links: [u32; 12], m: u32) -> u32
    requires { (0 < m) × (ones m ≤ 5 → m ≡ loop_from links (lowest_edge m)) }
    ensures { result ≡ loop_from links (lowest_edge m) }
{
    if m.count_ones() <= SINGLE {
        return m;
    }
    let e = m.trailing_zeros();
    let x = round(links, 1u32 << e);
    let y = round(links, x);
    if y == x {
        return x;
    }
    round(links, y)
}

// The loops of a cube of samples with the crossed edges `crossed`: the loop of the lowest of them, then that of the lowest edge left, until none is
// left.
pub fn loops_of(crossed: u32, corners: [u16; 8], cut: Cut) -> Loops
    requires { crossed ≡ crossed_mask (pattern_of cut corners) }
    ensures value { result ≡ loops_given cut corners }
    ensures count_bound { result.count ≤ 4 }
{
    let links = links_of(corners, cut, crossed);
    let mut left = crossed;
    let mut masks: [u32; 4] = [0; 4];
    for n in 0..4 {
        if left == 0 {
            return Loops {
                count: n as u32,
                masks,
            };
        }
        let l = loop_from(links, left);
        masks[n] = l;
        left ^= l;
    }
    Loops { count: 4, masks }
}
