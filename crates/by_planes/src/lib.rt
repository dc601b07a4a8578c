// A mesh plane by plane (document 02, Nine): the planes of a block are handed over by rising z, and each further plane writes the part of the mesh that it
// finishes. What must be remembered stands in a small state, given back by each call, and in a lent work buffer.
#![tactic(auto)]

ghost use Rattle.std.specs.Prelude.{◌≡◌, ◌+◌, ◌*◌, ◌<◌, ◌≤◌, [], ◌∷◌, length};
ghost use Rattle.block.specs.Answer.{in_order, judged};
ghost use Rattle.block.specs.Rows.{threshold_row};
ghost use Rattle.by_planes.specs.Answer.{work_row, past_row, plane_row, grown_by, said_start, StartAnswered, FinishAnswered};
ghost use Rattle.by_planes.specs.Left.{PlaneTaken};
ghost use Rattle.by_planes.specs.Steps.{first_of, Sizes};

use block::{Checked, Cut, Refusal, Size, Sized};
use mesh::{Counted, Totals};
use plane_layers::Layer;

// Where a run stands: the block's size and threshold, how many vertices and quads were written so far, and how many planes were taken.
#[derive(Clone, Copy)]
pub struct Stream {
    pub nx: u32,
    pub ny: u32,
    pub nz: u32,
    pub cut: Cut,
    pub vertices: u32,
    pub quads: u32,
    pub planes: u32,
}

// What a plane gave: where the run stands then, and how many vertices and quads this call wrote.
#[derive(Clone, Copy)]
pub struct Growth {
    pub stream: Stream,
    pub counts: Totals,
}

// What a start answers.
#[derive(Clone, Copy)]
pub enum Started {
    Begun(Stream),
    Refused(Refusal),
}

// What a plane answers.
#[derive(Clone, Copy)]
pub enum Taken {
    Wrote(Growth),
    Refused(Refusal),
}

// Starts a run over the planes of a block. Of the work buffer only the length is asked. Any axis lengths, threshold and buffer may be given.
pub fn start(nx: u32, ny: u32, nz: u32, cut: Cut, work: &[u32]) -> Started
    ensures { StartAnswered nx ny nz cut (length work.now) result }
{
    let stream = Stream {
        nx,
        ny,
        nz,
        cut,
        vertices: 0,
        quads: 0,
        planes: 0,
    };
    let made = Size::new(nx, ny, nz);
    match made {
        Sized::BadAxis(axis) => Started::Refused(Refusal {
            number: 1,
            value: axis,
        }),
        Sized::Made(size) => start_of(stream, size, work.len()),
    }
}

// A start whose size is made.
fn start_of(stream: Stream, size: Size, room: usize) -> Started
    requires { Sizes stream size }
    ensures { said_start result ≡ judged (in_order (threshold_row stream.cut ∷ work_row stream.nx stream.ny room ∷ [])) stream }
{
    let threshold = block::check_threshold(stream.cut);
    if let Checked::Refuses(r) = threshold {
        return Started::Refused(r);
    }
    let nx = size.nx();
    let ny = size.ny();
    let checked = block::check_room(6 * (nx * ny), room);
    if let Checked::Refuses(r) = checked {
        return Started::Refused(r);
    }
    Started::Begun(stream)
}

// Takes the next plane of a run: `stream` is where the last call left it, and `work` holds what it left there. The vertices and quads that the plane finishes
// are written from the front of the three buffers. Any state, plane and buffers may be given; a refusal leaves every buffer as it was.
pub fn take(
    stream: Stream,
    plane: &[u16],
    work: &mut [u32],
    words: &mut [u32],
    offsets: &mut [f64],
    quads: &mut [u32],
) -> Taken
    ensures { PlaneTaken stream plane.now work.old words.old offsets.old quads.old result work.new words.new offsets.new quads.new }
{
    let made = Size::new(stream.nx, stream.ny, stream.nz);
    match made {
        Sized::BadAxis(axis) => Taken::Refused(Refusal {
            number: 1,
            value: axis,
        }),
        Sized::Made(size) => take_of(stream, size, plane, work, words, offsets, quads),
    }
}

// Rows 3, 17, 2 and 15 of a plane, in this order.
fn check_call(stream: Stream, size: Size, count: usize, room: usize) -> Checked
    requires { Sizes stream size }
    ensures { result ≡ in_order (threshold_row stream.cut ∷ past_row stream ∷ plane_row stream count ∷ work_row stream.nx stream.ny room ∷ []) }
{
    let threshold = block::check_threshold(stream.cut);
    if let Checked::Refuses(r) = threshold {
        return Checked::Refuses(r);
    }
    if stream.planes >= stream.nz {
        return block::refuse(17, stream.nz);
    }
    let nx = size.nx();
    let ny = size.ny();
    let all = nx * ny;
    if count != all {
        return block::refuse(2, all as u32);
    }
    block::check_room(6 * all, room)
}

// A plane of a run whose size is made. The first plane is only remembered.
fn take_of(
    stream: Stream,
    size: Size,
    plane: &[u16],
    work: &mut [u32],
    words: &mut [u32],
    offsets: &mut [f64],
    quads: &mut [u32],
) -> Taken
    requires { Sizes stream size }
    ensures { PlaneTaken stream plane.now work.old words.old offsets.old quads.old result work.new words.new offsets.new quads.new }
{
    let checked = check_call(stream, size, plane.len(), work.len());
    if let Checked::Refuses(r) = checked {
        return Taken::Refused(r);
    }
    if stream.planes == 0 {
        plane_layers::keep_plane(plane, work);
        return Taken::Wrote(grown(
            stream,
            Totals {
                vertices: 0,
                quads: 0,
            },
        ));
    }
    let cut = stream.cut;
    let layer = Layer {
        size,
        cut,
        first: first_of(stream.vertices),
        k: before(stream.planes),
    };
    let counted = plane_layers::grow(layer, plane, work, words, offsets, quads);
    match counted {
        Counted::Refused(r) => Taken::Refused(r),
        Counted::Counts(c) => Taken::Wrote(grown(stream, c)),
    }
}

// The number of a layer's first vertex. A state of a run has at most as many vertices as any mesh; a state that has more is none, and any number will do.
fn first_of(vertices: u32) -> usize
    ensures value { result ≡ first_of vertices }
    ensures upper_bound { result ≤ 66325500 }
{
    if vertices <= 66325500 {
        return vertices as usize;
    }
    0
}

// One less.
fn before(planes: u32) -> usize
    requires { 0 < planes }
    ensures { result + 1 ≡ planes }
{
    (planes - 1) as usize
}

// Where a run stands after a plane that wrote so much. In a run no sum is cut.
fn grown(stream: Stream, counts: Totals) -> Growth
    requires { stream.planes < 256 }
    ensures { result ≡ grown_by stream counts }
{
    let cut = stream.cut;
    Growth {
        stream: Stream {
            nx: stream.nx,
            ny: stream.ny,
            nz: stream.nz,
            cut,
            vertices: std::num::wrapping_add_u32(stream.vertices, counts.vertices),
            quads: std::num::wrapping_add_u32(stream.quads, counts.quads),
            planes: stream.planes + 1,
        },
        counts,
    }
}

// Ends a run: how many vertices and quads its calls wrote together.
pub fn finish(stream: Stream) -> Counted
    ensures { FinishAnswered stream result }
{
    if stream.planes < stream.nz {
        return Counted::Refused(Refusal {
            number: 18,
            value: stream.planes,
        });
    }
    Counted::Counts(Totals {
        vertices: stream.vertices,
        quads: stream.quads,
    })
}
