// What a C caller is told of each answer, in numbers: 0 and what is answered, or number and value of a refusal; zeros where they are not used.
#![tactic(auto)]

ghost use Rattle.std.specs.Prelude.{◌≡◌, get_or};
ghost use Rattle.block.specs.Answer.{accepted};
ghost use Rattle.by_planes.specs.Answer.{said_start, said_taken};
ghost use Rattle.place.specs.Crossing.{said_edge};
ghost use Rattle.cell.specs.Answer.{said_cube};
ghost use Rattle.mesh_rule.specs.Buffers.{triples};
ghost use Rattle.mesh.specs.Answer.{said_counts, told_counts};
ghost use Rattle.thresholds.specs.Answer.{said_row};
ghost use Rattle.closed.specs.Closed.{said_closure};
ghost use Rattle.foundry.specs.Answer.{said_judgement};
ghost use Rattle.pieces.specs.Answer.{said_pieces};
ghost use Rattle.ply.specs.Answer.{said_file};
ghost use Rattle.readings.specs.Reading.{said_reading};
ghost use Rattle.room.specs.Answer.{said_crossed};
ghost use Rattle.told.specs.Numbers.{told_ceilings, told_edge, told_fraction, told_number, told_closed, told_judgement, told_pieces, told_length, told_nothing, told_growth, state_numbers, state_of};

use block::{CeilingCount, Cut};
use by_planes::{Started, Stream, Taken};
use cell::Found;
use closed::Closure;
use foundry::Judgement;
use mesh::Counted;
use pieces::Pieced;
use place::{Crossing, Offset};
use ply::Filed;
use readings::Reading;
use room::Edged;
use thresholds::RowAnswer;

// How many samples are at the ceiling, and the lowest index of one.
pub fn tell_ceilings(seen: CeilingCount) -> [u32; 3]
    ensures { result ≡ told_ceilings (accepted seen) }
{
    [0, seen.count, seen.lowest]
}

// The grey value of a reading, or its fault.
pub fn tell_reading(reading: Reading) -> [u32; 3]
    ensures { result ≡ told_number (said_reading reading) }
{
    match reading {
        Reading::Grey(g) => [0, g as u32, 0],
        Reading::Ceiling => [0, 65535, 0],
        Reading::NoNumber => [19, 0, 0],
        Reading::Infinite => [20, 0, 0],
        Reading::BelowZero => [21, 0, 0],
    }
}

// How many crossings an edge has, 0 or 1.
pub fn tell_edge(crossing: Crossing) -> [u32; 3]
    ensures { result ≡ told_edge (said_edge crossing) }
{
    match crossing {
        Crossing::Nothing => [0, 0, 0],
        Crossing::At(_) => [0, 1, 0],
        Crossing::Refused(r) => [r.number, r.value, 0],
    }
}

// Where the crossing is, or zero.
pub fn tell_fraction(crossing: Crossing) -> [f64; 1]
    ensures { result ≡ told_fraction (said_edge crossing) }
{
    match crossing {
        Crossing::Nothing => [0.0],
        Crossing::At(f) => [f],
        Crossing::Refused(_) => [0.0],
    }
}

// How many loops a cube has.
pub fn tell_cube(found: Found) -> [u32; 3]
    ensures { result ≡ told_number (said_cube found) }
{
    match found {
        Found::Loops(n) => [0, n, 0],
        Found::Refused(r) => [r.number, r.value, 0],
    }
}

// The places of its loops, one coordinate after the other.
pub fn tell_offsets(o: [Offset; 4]) -> [f64; 12]
    ensures { result ≡ triples o }
{
    [
        o[0].x, o[0].y, o[0].z, o[1].x, o[1].y, o[1].z, o[2].x, o[2].y, o[2].z, o[3].x, o[3].y,
        o[3].z,
    ]
}

// How many edges of a block are crossed.
pub fn tell_crossed(edged: Edged) -> [u32; 3]
    ensures { result ≡ told_number (said_crossed edged) }
{
    match edged {
        Edged::Edges(n) => [0, n, 0],
        Edged::Refused(r) => [r.number, r.value, 0],
    }
}

// How many vertices and quads a mesh has.
pub fn tell_counts(counted: Counted) -> [u32; 3]
    ensures { result ≡ told_counts (said_counts counted) }
{
    match counted {
        Counted::Counts(c) => [0, c.vertices, c.quads],
        Counted::Refused(r) => [r.number, r.value, 0],
    }
}

// 0 alone of a row of thresholds that is answered, since its answers stand in its buffer; or its refusal.
pub fn tell_row(row: RowAnswer) -> [u32; 3]
    ensures { result ≡ told_nothing (said_row row) }
{
    match row {
        RowAnswer::Answered => [0, 0, 0],
        RowAnswer::Refused(r) => [r.number, r.value, 0],
    }
}

// 1 if a list is closed; 0, quad and side if it is open.
pub fn tell_closed(closure: Closure) -> [u32; 4]
    ensures { result ≡ told_closed (said_closure closure) }
{
    match closure {
        Closure::Closed => [0, 1, 0, 0],
        Closure::Open { quad, side } => [0, 0, block::short(quad), block::short(side)],
        Closure::Refused(r) => [r.number, r.value, 0, 0],
    }
}

// 1 if a mesh is that of the block; else 0, and 1 with a vertex at fault, 2 with a quad at fault, or 3 where some are missing.
pub fn tell_judgement(judgement: Judgement) -> [u32; 4]
    ensures { result ≡ told_judgement (said_judgement judgement) }
{
    match judgement {
        Judgement::Same => [0, 1, 0, 0],
        Judgement::BadVertex(v) => [0, 0, 1, block::short(v)],
        Judgement::BadQuad(q) => [0, 0, 2, block::short(q)],
        Judgement::Missing => [0, 0, 3, 0],
        Judgement::Refused(r) => [r.number, r.value, 0, 0],
    }
}

// How many pieces there are, and the links of the longest search.
pub fn tell_pieces(pieced: Pieced) -> [u32; 3]
    ensures { result ≡ told_pieces (said_pieces pieced) }
{
    match pieced {
        Pieced::Found(p) => [0, p.count, p.longest],
        Pieced::Refused(r) => [r.number, r.value, 0],
    }
}

// How many bytes a file has, or zero.
pub fn tell_length(filed: Filed) -> [u64; 1]
    ensures { result ≡ told_length (said_file filed) }
{
    match filed {
        Filed::Bytes(n) => [n as u64],
        Filed::Refused(_) => [0],
    }
}

// Nothing else is told of a file.
pub fn tell_file(filed: Filed) -> [u32; 3]
    ensures { result ≡ told_nothing (said_file filed) }
{
    match filed {
        Filed::Bytes(_) => [0, 0, 0],
        Filed::Refused(r) => [r.number, r.value, 0],
    }
}

// 0 alone of a run that begins, since its state stands in a place of its own; or the refusal.
pub fn tell_start(started: Started) -> [u32; 3]
    ensures { result ≡ told_nothing (said_start started) }
{
    match started {
        Started::Begun(_) => [0, 0, 0],
        Started::Refused(r) => [r.number, r.value, 0],
    }
}

// How many vertices and quads a plane gave.
pub fn tell_taken(taken: Taken) -> [u32; 3]
    ensures { result ≡ told_growth (said_taken taken) }
{
    match taken {
        Taken::Wrote(g) => [0, g.counts.vertices, g.counts.quads],
        Taken::Refused(r) => [r.number, r.value, 0],
    }
}

// A state in eight numbers.
pub fn tell_state(stream: Stream) -> [u32; 8]
    ensures { result ≡ state_numbers stream }
{
    [
        stream.nx,
        stream.ny,
        stream.nz,
        stream.cut.t as u32,
        stream.cut.noise,
        stream.vertices,
        stream.quads,
        stream.planes,
    ]
}

// The state that stands in a place, whatever its length.
pub fn read_state(place: &[u32]) -> Stream
    ensures { result ≡ state_of place.now }
{
    Stream {
        nx: item(place, 0),
        ny: item(place, 1),
        nz: item(place, 2),
        cut: Cut {
            t: (item(place, 3) % 65536) as u16,
            noise: item(place, 4),
        },
        vertices: item(place, 5),
        quads: item(place, 6),
        planes: item(place, 7),
    }
}

// The item i of a place, 0 where it has none.
fn item(place: &[u32], i: usize) -> u32
    ensures { result ≡ get_or place.now i 0 }
{
    if i < place.len() {
        return place[i];
    }
    0
}
