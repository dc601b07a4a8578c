// The pieces of a list of quads (document 02, Six): two vertices belong together if a chain of quads joins them. Vertices are united by quads. While
// that goes on, the buffer of piece numbers has what each vertex hangs under, and the buffer of sizes has how many vertices hang under each top. Then
// the pieces get their numbers in place.
#![tactic(auto)]

ghost use Rattle.std.specs.Prelude.{◌≡◌, ◌/◌, ◌%◌, ◌≤◌, ◌<◌, length};
ghost use Rattle.trees.specs.Forest.{begin, after};
ghost use Rattle.trees.specs.Steps.{stored, Ends, Standing};
ghost use Rattle.pieces.specs.Answer.{buffer_row, pieces_verdict, Numbers, sizes, parts_of, PiecesFound};
ghost use Rattle.pieces.specs.Rules.{AllBelow};
ghost use Rattle.pieces.specs.Steps.{NumberedOne, Numbered};

use block::{Checked, Refusal};

// How many pieces there are, and the links followed in the longest single search.
#[derive(Clone, Copy)]
pub struct Parts {
    pub count: u32,
    pub longest: u32,
}

// What finding the pieces answers.
#[derive(Clone, Copy)]
pub enum Pieced {
    Found(Parts),
    Refused(Refusal),
}

// Row 5: either buffer is shorter than the number of vertices.
fn check_buffers(n: u32, piece: usize, size: usize) -> Checked
    ensures { result ≡ buffer_row n piece size }
{
    if piece < n as usize {
        return block::refuse(5, n);
    }
    if size < n as usize {
        return block::refuse(5, n);
    }
    Checked::Passes
}

// Rows 7, 14 and 5.
fn check(n: u32, quads: &[u32], piece: usize, size: usize) -> Checked
    ensures { result ≡ pieces_verdict n quads.now piece size }
{
    let whole = lists::check_length(quads);
    if let Checked::Refuses(r) = whole {
        return Checked::Refuses(r);
    }
    let known = lists::check_numbers(n as usize, quads);
    if let Checked::Refuses(r) = known {
        return Checked::Refuses(r);
    }
    check_buffers(n, piece, size)
}

// Each vertex is a piece of its own.
fn begin(n: u32, up: &mut [u32], size: &mut [u32])
    requires { (length up.old ≡ n) × (length size.old ≡ n) }
    ensures { stored up.new size.new 0 ≡ begin n }
{
    let mut v: u32 = 0;
    while v < n {
        up[v as usize] = v;
        size[v as usize] = 1;
        v += 1;
    }
}

// All quads, in order. The answer is the longest search.
fn join_all(quads: &[u32], up: &mut [u32], size: &mut [u32]) -> u32
    requires { (length up.old < 4294967296) × (length quads.now % 4 ≡ 0) × AllBelow (length up.old) quads.now × (stored up.old size.old 0 ≡ begin (length up.old)) }
    ensures { stored up.new size.new result ≡ after (length up.old) quads.now (length quads.now / 4) }
{
    let all = quads.len() / 4;
    let mut longest: u32 = 0;
    let mut q: usize = 0;
    while q < all {
        let k = 4 * q;
        longest = trees::join_quad(
            up,
            size,
            quads[k],
            quads[k + 1],
            quads[k + 2],
            quads[k + 3],
            longest,
        );
        q += 1;
    }
    longest
}

// A vertex gets the number of its piece. If the piece has none yet, the vertex is its lowest: it is the top now and takes the size, and the answer is 1.
// Else the answer is 0.
fn number(up: &mut [u32], size: &mut [u32], v: u32) -> u32
    requires { (v < length up.old) × (length size.old ≡ length up.old) × Ends (length up.old) up.old }
    ensures numbered_one { NumberedOne v up.old size.old up.new size.new result }
    ensures upper_bound { result ≤ 1 }
{
    let way = trees::search(up, v);
    let top = way.top;
    if top < v {
        up[v as usize] = top;
        return 0;
    }
    let s = size[top as usize];
    up[top as usize] = v;
    up[v as usize] = v;
    size[top as usize] = 0;
    size[v as usize] = s;
    1
}

// Each vertex gets the number of its piece, and each lowest vertex the piece's size. The answer is how many pieces there are.
fn number_all(n: u32, up: &mut [u32], size: &mut [u32]) -> u32
    requires { Standing n up.old size.old }
    ensures { Numbered n up.old up.new size.new result }
{
    let mut count: u32 = 0;
    let mut v: u32 = 0;
    while v < n {
        count += number(up, size, v);
        v += 1;
    }
    count
}

// The pieces of a list that no row refuses, in buffers of n items.
fn find(n: u32, quads: &[u32], piece: &mut [u32], size: &mut [u32]) -> Parts
    requires { (length piece.old ≡ n) × (length size.old ≡ n) × (length quads.now % 4 ≡ 0) × AllBelow n quads.now }
    ensures numbers { Numbers n quads.now piece.new }
    ensures size_after { size.new ≡ sizes n piece.new }
    ensures value { result ≡ parts_of n quads.now piece.new }
{
    begin(n, piece, size);
    let longest = join_all(quads, piece, size);
    let count = number_all(n, piece, size);
    Parts { count, longest }
}

// The pieces of a list of quads over n vertices, in two lent buffers, or a refusal, which leaves them as they were.
pub fn pieces(n: u32, quads: &[u32], piece: &mut [u32], size: &mut [u32]) -> Pieced
    ensures { PiecesFound n quads.now piece.old size.old result piece.new size.new }
{
    match check(n, quads, piece.len(), size.len()) {
        Checked::Refuses(r) => Pieced::Refused(r),
        Checked::Passes => Pieced::Found(find(
            n,
            quads,
            &mut piece[..n as usize],
            &mut size[..n as usize],
        )),
    }
}
