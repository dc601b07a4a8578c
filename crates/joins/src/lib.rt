// The doubtful faces of a row's cubes, 64 at a time: whose positive corners are joined, and which cubes so have exactly one loop and which exactly two.
#![tactic(auto)]

ghost use Rattle.std.specs.Prelude.{◌≡◌};
ghost use Rattle.cube_rule.specs.Decider.{loops_of};
ghost use Rattle.joins.specs.Joined.{joined_word, FacesIn, joined_words, SidesIn, within_of, sorted_of, singles_of, Single, Sorted};
ghost use Rattle.rows.specs.Rows.{WordReady};

use block::Cut;
use sorts::Sorts;

// Which cubes of a word have exactly one loop and which exactly two, of those whose bits are set in `act`.
pub fn sorted(lo: &[u16], hi: &[u16], nx: usize, s: usize, cut: Cut, e: [u64; 8], act: u64) -> Sorts
    requires { WordReady lo.now hi.now cut nx s e act × (act ≡ 0 → ⊥) }
    ensures value { result ≡ sorted_of lo.now hi.now nx s cut e act }
    ensures sorted { Sorted loops_of lo.now hi.now cut nx s act result }
{
    let doubtful = faces::alternates(e);
    let joined = joined_words(lo, hi, nx, s, cut, within(doubtful, act));
    sorts::sorts_of(e, doubtful, joined)
}

// Those with exactly one: where all are plain, no face is decided. (So small that it is compiled into its caller.)
#[tactic(auto, using(crate::proofs::JoinedFaces::plain_single))]
pub fn singles(lo: &[u16], hi: &[u16], nx: usize, s: usize, cut: Cut, e: [u64; 8], act: u64) -> u64
    requires { WordReady lo.now hi.now cut nx s e act × (act ≡ 0 → ⊥) }
    ensures value { result ≡ singles_of lo.now hi.now nx s cut e act }
    ensures single { Single loops_of lo.now hi.now cut nx s act result }
{
    let plain = faces::plain(e);
    if act & plain == act {
        plain
    } else {
        sorted(lo, hi, nx, s, cut, e, act).one
    }
}

// The faces on one side of a word's cubes with joined positive corners: bit x is set if it is in `doubtful` and the corners of that face of cube x,
// two samples of `near` and two of `far`, are joined. (A while: the step is to the next set bit, not to the next number.)
fn joined_on(cut: Cut, doubtful: u64, near: &[u16], far: &[u16], step: usize) -> u64
    requires { FacesIn doubtful near.now far.now step }
    ensures { result ≡ joined_word cut doubtful near.now far.now step }
{
    let mut w = doubtful;
    let mut n: usize = 0;
    let mut v: u64 = 0;
    while w != 0 {
        let z = u64::trailing_zeros(w) as usize;
        let x = n + z;
        let y = x + step;
        let joined = cube::decide(cut, near[x], near[y], far[y], far[x]);
        v |= u64::from(joined) << x;
        w = (w >> z) >> 1;
        n = x + 1;
    }
    v
}

// The same on all six sides, x=0, x=1, y=0, y=1, z=0, z=1; the word's first cube is the cube s of the row.
#[tactic(auto, unfolding(crate::specs::Joined::joined_words))]
fn joined_words(
    lo: &[u16],
    hi: &[u16],
    nx: usize,
    s: usize,
    cut: Cut,
    doubtful: [u64; 6],
) -> [u64; 6]
    requires { SidesIn lo.now hi.now nx s doubtful }
    ensures { result ≡ joined_words lo.now hi.now nx s cut doubtful }
{
    [
        joined_on(cut, doubtful[0], &lo[s..], &hi[s..], nx),
        joined_on(cut, doubtful[1], &lo[s + 1..], &hi[s + 1..], nx),
        joined_on(cut, doubtful[2], &lo[s..], &hi[s..], 1),
        joined_on(cut, doubtful[3], &lo[s + nx..], &hi[s + nx..], 1),
        joined_on(cut, doubtful[4], &lo[s..], &lo[s + nx..], 1),
        joined_on(cut, doubtful[5], &hi[s..], &hi[s + nx..], 1),
    ]
}

// The bits of six words that `act` has.
#[tactic(auto, unfolding(crate::specs::Joined::within_of))]
fn within(six: [u64; 6], act: u64) -> [u64; 6]
    ensures { result ≡ within_of six act }
{
    std::array::from_fn(|f| six[f] & act)
}
