// A mesh from the foundry (document 02, Twelve): whether it is the mesh of a block, and what is at fault where it is not. No buffer is lent.
#![tactic(auto)]

ghost use Rattle.std.specs.Prelude.{◌≡◌, ◌&&◌, ◌++◌, eqb};
ghost use Rattle.block.specs.Answer.{accepted, in_order, judged};
ghost use Rattle.block.specs.Block.{block_rows};
ghost use Rattle.block.specs.Size.{Limits};
ghost use Rattle.block.specs.Steps.{Sampled};
ghost use Rattle.mesh.specs.Answer.{vertex_count, quad_count};
ghost use Rattle.foundry_rule.specs.Distinct.{QuadsBelow};
ghost use Rattle.foundry_rule.specs.Judged.{vertex_total};
ghost use Rattle.foundry_vertices.specs.Steps.{Shaped};
ghost use Rattle.foundry.specs.Answer.{said_judgement, sent_rows, compared_with, MeshJudged};

use block::{Checked, Cut, Refusal, Size, Sized};
use mesh::Source;

// What is found of a mesh: it is that of the block; a vertex or a quad is at fault, the first of its kind; or none is, and some of the block's are missing.
#[derive(Clone, Copy)]
pub enum Judgement {
    Same,
    BadVertex(usize),
    BadQuad(usize),
    Missing,
    Refused(Refusal),
}

// Rows 22, 7 and 14, in this order.
fn check_sent(words: &[u32], offsets: &[f64], quads: &[u32]) -> Checked
    ensures { result ≡ in_order (sent_rows words.now offsets.now quads.now) }
{
    let shape = vertex_lists::check_shape(words.len(), offsets.len());
    if let Checked::Refuses(r) = shape {
        return Checked::Refuses(r);
    }
    let whole = lists::check_length(quads);
    if let Checked::Refuses(r) = whole {
        return Checked::Refuses(r);
    }
    lists::check_numbers(words.len() / 2, quads)
}

// Rows 2 and 3, and then 22, 7 and 14.
fn check(
    size: Size,
    samples: &[u16],
    cut: Cut,
    words: &[u32],
    offsets: &[f64],
    quads: &[u32],
) -> Checked
    requires { Limits size }
    ensures { result ≡ in_order (block_rows size samples.now cut ++ sent_rows words.now offsets.now quads.now) }
{
    let block = block::check_block(size, samples, cut);
    if let Checked::Refuses(r) = block {
        return Checked::Refuses(r);
    }
    check_sent(words, offsets, quads)
}

// Whether a mesh with no vertex and no quad at fault has as many of both as the mesh of the block.
fn is_whole(size: Size, samples: &[u16], cut: Cut, vertices: usize, quads: usize) -> bool
    requires { Sampled size samples.now }
    ensures { result ≡ (eqb vertices (vertex_count size samples.now cut) && eqb quads (quad_count size samples.now cut)) }
{
    let none = [0.0f32; 1];
    let ours = mesh::counts_from(size, Source::Samples, samples, &none, cut);
    if vertices != ours.vertices as usize {
        return false;
    }
    quads == ours.quads as usize
}

// What is found of a mesh that no row refuses.
fn compare(
    size: Size,
    samples: &[u16],
    cut: Cut,
    words: &[u32],
    offsets: &[f64],
    quads: &[u32],
) -> Judgement
    requires sampled { Sampled size samples.now }
    requires shaped { Shaped words.now offsets.now }
    requires quads_below { QuadsBelow (vertex_total words.now) quads.now }
    ensures { said_judgement result ≡ accepted (compared_with size samples.now cut words.now offsets.now quads.now) }
{
    let vertices = words.len() / 2;
    let all = quads.len() / 4;
    let v = foundry_vertices::first_fault(size, samples, cut, words, offsets);
    if v < vertices {
        return Judgement::BadVertex(v);
    }
    let q = foundry_quads::first_fault(size, samples, cut, words, quads);
    if q < all {
        return Judgement::BadQuad(q);
    }
    if is_whole(size, samples, cut, vertices, all) {
        return Judgement::Same;
    }
    Judgement::Missing
}

// What is found of a mesh beside that of a block whose size is made.
fn judge_in(
    size: Size,
    samples: &[u16],
    cut: Cut,
    words: &[u32],
    offsets: &[f64],
    quads: &[u32],
) -> Judgement
    requires { Limits size }
    ensures { said_judgement result ≡ judged (in_order (block_rows size samples.now cut ++ sent_rows words.now offsets.now quads.now)) (compared_with size samples.now cut words.now offsets.now quads.now) }
{
    let checked = check(size, samples, cut, words, offsets, quads);
    if let Checked::Refuses(r) = checked {
        return Judgement::Refused(r);
    }
    compare(size, samples, cut, words, offsets, quads)
}

// Whether a mesh that another mesher made is that of a block: two words and three offsets a vertex, four vertex numbers a quad. Any axis lengths, samples,
// threshold and lists may be given.
pub fn judge(
    nx: u32,
    ny: u32,
    nz: u32,
    samples: &[u16],
    cut: Cut,
    words: &[u32],
    offsets: &[f64],
    quads: &[u32],
) -> Judgement
    ensures { MeshJudged nx ny nz samples.now cut words.now offsets.now quads.now result }
{
    let made = Size::new(nx, ny, nz);
    match made {
        Sized::BadAxis(axis) => Judgement::Refused(Refusal {
            number: 1,
            value: axis,
        }),
        Sized::Made(size) => judge_in(size, samples, cut, words, offsets, quads),
    }
}
