// How much room a mesh can take: the crossed edges of a block, counted by words of 64 signs (document 02, Seven).
#![tactic(auto)]

ghost use Rattle.std.specs.Prelude.{◌≡◌, ◌+◌, ◌<◌, ◌≤◌, length};
ghost use Rattle.block.specs.Answer.{in_order, judged};
ghost use Rattle.block.specs.Block.{block_rows};
ghost use Rattle.block.specs.Size.{Limits};
ghost use Rattle.block.specs.Steps.{Sampled};
ghost use Rattle.room.specs.Crossed.{crossed_count};
ghost use Rattle.room.specs.Answer.{said_crossed, CrossedAnswered};
ghost use Rattle.room.specs.Steps.{word_y, row_edges, plane_edges};
ghost use Rattle.std.specs.Int.Count.{ones};

use block::{Checked, Cut, Refusal, Size, Sized};

// What the question for room answers: how many edges of the block are crossed, or a refusal.
#[derive(Clone, Copy)]
pub enum Edged {
    Edges(u32),
    Refused(Refusal),
}

// The ones of three words together. The words are added bit by bit, to a word of sums and a word of carries, so the ones of two words are taken and not of
// three.
fn three_ones(x: u64, y: u64, z: u64) -> usize
    ensures value { result ≡ ones x + ones y + ones z }
    ensures upper_bound { result ≤ 192 }
{
    let d = x ^ y;
    let sums = planes::ones_of(d ^ z);
    let carries = planes::ones_of((x & y) ^ (d & z));
    sums + 2 * carries
}

// Bit i is set if the edge along y from sample i of word w of row j is crossed; none runs from the last row.
fn word_y(b: &[u64], ny: usize, j: usize, w: usize) -> u64
    requires { (j < ny) × (ny ≤ 256) × (w < 4) × (length b.now ≡ 1280) }
    ensures { result ≡ word_y b.now ny j w }
{
    if j + 1 < ny {
        return planes::along_y(b, 5 * j + w);
    }
    0
}

// The crossed edges that belong to row j of the plane b: those along x and y from its samples, and those along z that come to them from the plane a below.
// `limits` has the places of a row's words that have a next sample.
fn row_edges(a: &[u64], b: &[u64], limits: &[u64], ny: usize, j: usize) -> usize
    requires { (j < ny) × (ny ≤ 256) × (length a.now ≡ 1280) × (length b.now ≡ 1280) × (length limits.now ≡ 4) }
    ensures value { result ≡ row_edges a.now b.now limits.now ny j }
    ensures upper_bound { result ≤ 768 }
{
    let mut m: usize = 0;
    let mut w: usize = 0;
    while w < 4 {
        let q = 5 * j + w;
        let x = planes::along_x(b, q) & limits[w];
        let y = word_y(b, ny, j, w);
        let z = planes::along_z(a, b, q);
        m += three_ones(x, y, z);
        w += 1;
    }
    m
}

// The crossed edges that belong to the plane b, above the plane a. Where b is the first plane it stands for a, too.
fn plane_edges(a: &[u64], b: &[u64], nx: usize, ny: usize) -> usize
    requires { (0 < nx) × (ny ≤ 256) × (length a.now ≡ 1280) × (length b.now ≡ 1280) }
    ensures value { result ≡ plane_edges a.now b.now nx ny }
    ensures upper_bound { result ≤ 196608 }
{
    let limits = [
        planes::limit(nx - 1, 0),
        planes::limit(nx - 1, 1),
        planes::limit(nx - 1, 2),
        planes::limit(nx - 1, 3),
    ];
    let mut m: usize = 0;
    let mut j: usize = 0;
    while j < ny {
        m += row_edges(a, b, &limits, ny, j);
        j += 1;
    }
    m
}

// The crossed edges of a block: those within each plane, and those that come to it from the plane below.
fn block_edges(size: Size, samples: &[u16], cut: Cut) -> usize
    requires { Sampled size samples.now }
    ensures { result ≡ crossed_count size samples.now cut }
{
    let nx = size.nx();
    let ny = size.ny();
    let nz = size.nz();
    let mut a = [0u64; 1280];
    let mut b = [0u64; 1280];
    signs::plane_signs(size, samples, cut, 0, &mut a);
    let mut m = plane_edges(&a, &a, nx, ny);
    let mut k: usize = 0;
    while k + 1 < nz {
        signs::plane_signs(size, samples, cut, k + 1, &mut b);
        m += plane_edges(&a, &b, nx, ny);
        a = b;
        k += 1;
    }
    m
}

// The crossed edges of a block whose size is made.
fn crossed_of(size: Size, samples: &[u16], cut: Cut) -> Edged
    requires { Limits size }
    ensures { said_crossed result ≡ judged (in_order (block_rows size samples.now cut)) (crossed_count size samples.now cut) }
{
    let checked = block::check_block(size, samples, cut);
    if let Checked::Refuses(r) = checked {
        return Edged::Refused(r);
    }
    let m = block_edges(size, samples, cut);
    Edged::Edges(m as u32)
}

// How many edges of a block are crossed, on the faces of the box too. Any axis lengths, samples and threshold may be asked. The mesh of the block has at most
// four thirds as many vertices, and at most as many quads.
pub fn crossed(nx: u32, ny: u32, nz: u32, samples: &[u16], cut: Cut) -> Edged
    ensures { CrossedAnswered nx ny nz samples.now cut result }
{
    let made = Size::new(nx, ny, nz);
    match made {
        Sized::BadAxis(axis) => Edged::Refused(Refusal {
            number: 1,
            value: axis,
        }),
        Sized::Made(size) => crossed_of(size, samples, cut),
    }
}
