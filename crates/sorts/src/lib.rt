// Which of 64 cubes have exactly one loop and which exactly two, by the signs of their corners and by the doubtful faces whose positive corners are
// joined.
#![tactic(auto)]

ghost use Rattle.std.specs.Prelude.{◌≡◌};
ghost use Rattle.sorts.specs.Sorting.{odd_in_three_of, two_in_three_of, two_in_four_of, mostly_of, three_of, rarer_of, odd_of, some_of, lone_of, sorts_of};

// The cubes with exactly one loop, and those with exactly two.
#[derive(Clone, Copy)]
pub struct Sorts {
    pub one: u64,
    pub two: u64,
}

// Bit i of each word is set if cube i is such a cube, by the words of its doubtful faces and of those with joined positive corners.
#[tactic(auto, unfolding(crate::specs::Sorting::one_of, crate::specs::Sorting::two_of))]
pub fn sorts_of(e: [u64; 8], doubtful: [u64; 6], joined: [u64; 6]) -> Sorts
    ensures { result ≡ sorts_of e doubtful joined }
{
    let mixed = planes::active(e);
    let plain = faces::plain_among(e, doubtful);
    let three = three(doubtful);
    let six = three & (doubtful[0] & doubtful[1]);
    let rarer = rarer(doubtful, joined, mostly(e));
    let some = some(rarer);
    let lone = lone(three, rarer);
    Sorts {
        one: plain | faces::without(lone, six),
        two: faces::without(mixed, plain | (lone | (six | faces::without(three, some)))),
    }
}

// An odd number of three bits is set.
fn odd_in_three(a: u64, b: u64, c: u64) -> u64
    ensures { result ≡ odd_in_three_of a b c }
{
    (a ^ b) ^ c
}

// At least two of three bits are set.
fn two_in_three(a: u64, b: u64, c: u64) -> u64
    ensures { result ≡ two_in_three_of a b c }
{
    (a & b) | (c & (a ^ b))
}

// At least two of four bits are set.
fn two_in_four(a: u64, b: u64, c: u64, d: u64) -> u64
    ensures { result ≡ two_in_four_of a b c d }
{
    (a & b) | ((c & d) | ((a | b) & (c | d)))
}

// At least four corners are positive: in twos, those among corners 0 to 2, among 3 to 5, among 6 and 7, and among what these leave over.
#[tactic(auto, unfolding(crate::specs::Sorting::mostly_of))]
fn mostly(e: [u64; 8]) -> u64
    ensures { result ≡ mostly_of e }
{
    let a = two_in_three(e[0], e[1], e[2]);
    let b = two_in_three(e[3], e[4], e[5]);
    let p = odd_in_three(e[0], e[1], e[2]);
    let q = odd_in_three(e[3], e[4], e[5]);
    two_in_four(a, b, e[6] & e[7], two_in_three(p, q, e[6] ^ e[7]))
}

// A doubtful face across each axis: three faces, or all six.
fn three(doubtful: [u64; 6]) -> u64
    ensures { result ≡ three_of doubtful }
{
    (doubtful[0] | doubtful[1]) & ((doubtful[2] | doubtful[3]) & (doubtful[4] | doubtful[5]))
}

// The doubtful faces on which the corners of the rarer sign are joined; bit i of `most` is set if most corners of cube i are positive.
#[tactic(auto, unfolding(crate::specs::Sorting::rarer_of))]
fn rarer(doubtful: [u64; 6], joined: [u64; 6], most: u64) -> [u64; 6]
    ensures { result ≡ rarer_of doubtful joined most }
{
    std::array::from_fn(|f| joined[f] ^ (doubtful[f] & most))
}

// They are an odd number.
fn odd(rarer: [u64; 6]) -> u64
    ensures { result ≡ odd_of rarer }
{
    rarer[0] ^ (rarer[1] ^ (rarer[2] ^ (rarer[3] ^ (rarer[4] ^ rarer[5]))))
}

// There are any.
fn some(rarer: [u64; 6]) -> u64
    ensures { result ≡ some_of rarer }
{
    rarer[0] | (rarer[1] | (rarer[2] | (rarer[3] | (rarer[4] | rarer[5]))))
}

// They are an odd number, or, where each axis has a doubtful face, an even number that is not none.
fn lone(three: u64, rarer: [u64; 6]) -> u64
    ensures { result ≡ lone_of three rarer }
{
    some(rarer) & (odd(rarer) ^ three)
}
