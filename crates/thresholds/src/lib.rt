// The counts of one block by up to 16 thresholds in one call (document 02, Eight).
#![tactic(auto)]

ghost use Rattle.std.specs.Prelude.{◌≡◌, [], ◌∷◌, ℕ, ◌+◌, ◌*◌, ◌<◌, ◌≤◌, length};
ghost use Rattle.std.proofs.lemmas.List.Edits.{sets};
ghost use Rattle.laws.specs.Below.{over};
ghost use Rattle.block.specs.Answer.{in_order};
ghost use Rattle.block.specs.Grey.{cut_of};
ghost use Rattle.block.specs.Rows.{count_row};
ghost use Rattle.block.specs.Size.{Limits};
ghost use Rattle.block.specs.Steps.{Sampled};
ghost use Rattle.mesh.specs.Steps.{Few};
ghost use Rattle.thresholds.specs.Answer.{many_row, answers_row, RowBy, RowAnswered};
ghost use Rattle.thresholds.specs.Steps.{CountedFrom, EachTallied, marks_at, three_by, threes_by, answers_in};

use block::{Checked, Cut, Refusal, Size, Sized};
use layers::Marks;

// What a row of thresholds answers: its answers stand in the lent buffer, or the whole call is refused.
#[derive(Clone, Copy)]
pub enum RowAnswer {
    Answered,
    Refused(Refusal),
}

// Rows 16 and 15, in this order: how many thresholds there are, and the length of the buffer.
fn check_row(count: usize, room: usize) -> Checked
    ensures { result ≡ in_order (many_row count ∷ answers_row count room ∷ []) }
{
    if count > 16 {
        return block::refuse(16, block::short(count));
    }
    if room < 3 * count {
        return block::refuse(15, block::short(count));
    }
    Checked::Passes
}

// The marks of each threshold moved by the layers from `from` up to `to`.
fn each_with_layers(
    marks: [Marks; 16],
    size: Size,
    samples: &[u16],
    thresholds: &[u16],
    noise: u32,
    from: usize,
    to: usize,
) -> [Marks; 16]
    requires { Sampled size samples.now × (length thresholds.now ≤ 16) × (from ≤ to) × (to + 1 ≤ size.nz) × CountedFrom size samples.now thresholds.now noise marks 0 (length thresholds.now) from }
    ensures { CountedFrom size samples.now thresholds.now noise result 0 (length thresholds.now) to }
{
    let mut w = marks;
    let mut i: usize = 0;
    while i < thresholds.len() {
        let cut = Cut {
            t: thresholds[i],
            noise: noise,
        };
        w[i] = mesh::with_layers(w[i], size, samples, cut, from, to);
        i += 1;
    }
    w
}

// Where the run of layers from layer k on ends: 16 layers on, or at the last plane.
fn run_end(k: usize, last: usize) -> usize
    requires { (k < last) × (last < 256) }
    ensures { (k < result) × (result ≤ last) }
{
    let end = k + 16;
    if end < last {
        return end;
    }
    last
}

// The marks of each threshold moved to the end of the block. The layers go in runs, and each threshold counts a run before the next one begins, so the samples of a
// run are still near at hand for all thresholds but the first.
fn tally_each(size: Size, samples: &[u16], thresholds: &[u16], noise: u32) -> [Marks; 16]
    requires { Sampled size samples.now × (length thresholds.now ≤ 16) }
    ensures { EachTallied size samples.now thresholds.now noise result }
{
    let none = Marks {
        v: 0,
        x: 0,
        y: 0,
        z: 0,
    };
    let last = size.nz() - 1;
    let mut w = [none; 16];
    let mut k: usize = 0;
    while k < last {
        let end = run_end(k, last);
        let moved = each_with_layers(w, size, samples, thresholds, noise, k, end);
        w = moved;
        k = end;
    }
    w
}

// What a threshold is told by the marks of the whole block: 0, vertices, quads; or number and value of row 3, and 0.
fn three(t: u16, m: Marks) -> [u32; 3]
    requires { Few m }
    ensures { result ≡ three_by (cut_of t 0) m }
{
    let checked = block::check_threshold(Cut { t: t, noise: 0 });
    if let Checked::Refuses(r) = checked {
        return [r.number, r.value, 0];
    }
    let c = mesh::total(m);
    [0, c.vertices, c.quads]
}

// Stores three numbers.
fn put_three(answers: &mut [u32], at: usize, a: u32, b: u32, c: u32)
    requires { at + 3 ≤ length answers.old }
    ensures { answers.new ≡ sets answers.old at (a ∷ b ∷ c ∷ []) }
{
    answers[at] = a;
    answers[at + 1] = b;
    answers[at + 2] = c;
}

// Writes what each threshold is told, three places each, from the front of the buffer.
fn put_each(marks: [Marks; 16], thresholds: &[u16], answers: &mut [u32])
    requires { (length thresholds.now ≤ 16) × (3 * length thresholds.now ≤ length answers.old) × ((p : ℕ) → p < length thresholds.now → Few (marks_at marks p)) }
    ensures { answers.new ≡ over (threes_by thresholds.now marks (length thresholds.now)) answers.old }
{
    let mut i: usize = 0;
    while i < thresholds.len() {
        let told = three(thresholds[i], marks[i]);
        put_three(answers, 3 * i, told[0], told[1], told[2]);
        i += 1;
    }
}

// The answers of a row that is short enough, into a buffer that is long enough, of a block whose size is made. The buffer is touched only when row 2 passes.
fn counts_in(
    size: Size,
    samples: &[u16],
    thresholds: &[u16],
    noise: u32,
    answers: &mut [u32],
) -> RowAnswer
    requires { Limits size × (length thresholds.now ≤ 16) × (3 * length thresholds.now ≤ length answers.old) }
    ensures { RowBy (count_row size (length samples.now)) (answers_in size samples.now thresholds.now noise) answers.old result answers.new }
{
    let checked = block::check_count(size, samples.len());
    if let Checked::Refuses(r) = checked {
        return RowAnswer::Refused(r);
    }
    let marks = tally_each(size, samples, thresholds, noise);
    put_each(marks, thresholds, answers);
    RowAnswer::Answered
}

// How many vertices and quads the mesh of a block has by each of up to 16 thresholds and one noise figure: three places of the buffer for each threshold. Any axis
// lengths, samples, thresholds, noise figure and buffer may be given; a refusal leaves the buffer as it was.
pub fn counts_row(
    nx: u32,
    ny: u32,
    nz: u32,
    samples: &[u16],
    thresholds: &[u16],
    noise: u32,
    answers: &mut [u32],
) -> RowAnswer
    ensures { RowAnswered nx ny nz samples.now thresholds.now noise answers.old result answers.new }
{
    let checked = check_row(thresholds.len(), answers.len());
    if let Checked::Refuses(r) = checked {
        return RowAnswer::Refused(r);
    }
    let made = Size::new(nx, ny, nz);
    match made {
        Sized::BadAxis(axis) => RowAnswer::Refused(Refusal {
            number: 1,
            value: axis,
        }),
        Sized::Made(size) => counts_in(size, samples, thresholds, noise, answers),
    }
}
