// The doubtful faces of 64 cubes at a time, and which of the cubes are plain, by the signs of their corners.
#![tactic(auto)]

ghost use Rattle.std.specs.Prelude.{◌≡◌};
ghost use Rattle.faces.specs.Faces.{without_of, alternate_of, alternates_of, plain_among, plain_of};

// The words of the doubtful faces x=0, x=1, y=0, y=1, z=0, z=1: bit i is set if the signs round that face of cube i alternate.
#[tactic(auto, unfolding(crate::specs::Faces::alternates_of))]
pub fn alternates(e: [u64; 8]) -> [u64; 6]
    ensures { result ≡ alternates_of e }
{
    let [c0, c1, c2, c3, c4, c5, c6, c7] = e;
    [
        alternate(c0, c2, c6, c4),
        alternate(c1, c3, c7, c5),
        alternate(c0, c1, c5, c4),
        alternate(c2, c3, c7, c6),
        alternate(c0, c1, c3, c2),
        alternate(c4, c5, c7, c6),
    ]
}

// Bit i is set if cube i is plain: its signs are mixed, those round no face alternate, and some two opposite corners differ.
pub fn plain(e: [u64; 8]) -> u64
    ensures { result ≡ plain_of e }
{
    plain_among(e, alternates(e))
}

// The plain cubes, by the words of the doubtful faces.
#[tactic(auto, unfolding(crate::specs::Faces::plain_among))]
pub fn plain_among(e: [u64; 8], doubtful: [u64; 6]) -> u64
    ensures { result ≡ plain_among e doubtful }
{
    let mixed = planes::active(e);
    let uneven = (e[0] ^ e[7]) | ((e[1] ^ e[6]) | ((e[2] ^ e[5]) | (e[3] ^ e[4])));
    let x = doubtful[0] | doubtful[1];
    let y = doubtful[2] | doubtful[3];
    let z = doubtful[4] | doubtful[5];
    without(mixed, x | (y | (z | without(mixed, uneven))))
}

// The bits of a that b does not have.
pub fn without(a: u64, b: u64) -> u64
    ensures { result ≡ without_of a b }
{
    (a | b) ^ b
}

// Bit i is set if the signs round a face of cube i alternate; the four words have the signs of its corners.
fn alternate(p: u64, q: u64, r: u64, s: u64) -> u64
    ensures { result ≡ alternate_of p q r s }
{
    without(p ^ q, (p ^ r) | (q ^ s))
}
