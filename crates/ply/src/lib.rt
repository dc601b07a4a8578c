// A mesh as a PLY file in a lent buffer (document 02, Three): the checks of the rows that it tries, and the file from its header to its last face.
#![tactic(auto)]

ghost use Rattle.std.specs.Prelude.{◌≡◌, ◌+◌, ◌*◌, ◌-◌, ◌/◌, ◌≤◌, ◌<◌, length};
ghost use Rattle.laws.specs.Below.{below};
ghost use Rattle.laws.specs.Put.{Put};
ghost use Rattle.block.specs.declared.Checked.TheVariants.{Passes};
ghost use Rattle.block.specs.Answer.{in_order};
ghost use Rattle.block.specs.Size.{size_of};
ghost use Rattle.ply.specs.Rows.{good_spacing, spacing_row};
ghost use Rattle.ply.specs.File.{header, millimetres, double, vertex_bytes, face_bytes, ply_file};
ghost use Rattle.ply.specs.Answer.{face_rows, ply_verdict, PlyWritten};
ghost use Rattle.ply.specs.Words.{header_length, file_length, Number, AllNumbers};
ghost use Rattle.ply.specs.Steps.{x_of, y_of, z_of, three_doubles, index_list};

use block::{Checked, Refusal, Size, Sized};

// Millimetres from one sample to the next, along each axis.
#[derive(Clone, Copy)]
pub struct Spacing {
    pub x: f64,
    pub y: f64,
    pub z: f64,
}

// What writing a file answers: how many bytes it has, or a refusal.
#[derive(Clone, Copy)]
pub enum Filed {
    Bytes(usize),
    Refused(Refusal),
}

// Whether a spacing is above 0 and at most 1000.
fn is_good(s: f64) -> bool
    ensures { result ≡ good_spacing s }
{
    if 0.0 < s {
        return s <= 1000.0;
    }
    false
}

// Row 13: a spacing is bad.
fn check_spacing(s: Spacing) -> Checked
    ensures { result ≡ spacing_row s }
{
    if !is_good(s.x) {
        return block::refuse(13, 0);
    }
    if !is_good(s.y) {
        return block::refuse(13, 1);
    }
    if !is_good(s.z) {
        return block::refuse(13, 2);
    }
    Checked::Passes
}

// How many bytes a file has.
fn bytes_needed(vertices: usize, faces: usize) -> usize
    requires { (vertices ≤ 66325500) × (faces < 576460752303423488) }
    ensures { result ≡ file_length vertices faces }
{
    let a = file_bytes::digits(vertices);
    let b = file_bytes::digits(faces);
    170 + a + b + 24 * vertices + 17 * faces
}

// Rows 7, 13, 14 and 15, of a mesh with so many vertices.
fn check_faces(vertices: usize, quads: &[u32], spacing: Spacing, room: usize) -> Checked
    requires { vertices ≤ 66325500 }
    ensures { result ≡ in_order (face_rows vertices quads.now spacing (file_length vertices (length quads.now / 4)) room) }
{
    let whole = lists::check_length(quads);
    if let Checked::Refuses(r) = whole {
        return Checked::Refuses(r);
    }
    let good = check_spacing(spacing);
    if let Checked::Refuses(r) = good {
        return Checked::Refuses(r);
    }
    let known = lists::check_numbers(vertices, quads);
    if let Checked::Refuses(r) = known {
        return Checked::Refuses(r);
    }
    block::check_room(bytes_needed(vertices, quads.len() / 4), room)
}

// All rows that are tried, in their order.
fn check(
    nx: u32,
    ny: u32,
    nz: u32,
    words: &[u32],
    offsets: &[f64],
    quads: &[u32],
    spacing: Spacing,
    room: usize,
) -> Checked
    ensures { result ≡ ply_verdict nx ny nz words.now offsets.now quads.now spacing room }
{
    let sized = Size::new(nx, ny, nz);
    match sized {
        Sized::BadAxis(axis) => block::refuse(1, axis),
        Sized::Made(size) => {
            let listed = vertex_lists::check(size, words, offsets);
            if let Checked::Refuses(r) = listed {
                return Checked::Refuses(r);
            }
            check_faces(words.len() / 2, quads, spacing, room)
        }
    }
}

// The header at the start.
fn put_header(out: &mut [u8], vertices: usize, faces: usize) -> usize
    requires { header_length vertices faces ≤ length out.old }
    ensures put { Put out.old 0 (header vertices faces) out.new result }
    ensures value { result ≡ header_length vertices faces }
{
    let a = file_bytes::put_text(
        out,
        0,
        b"ply\nformat binary_little_endian 1.0\nelement vertex ",
    );
    let b = file_bytes::put_decimal(out, a, vertices);
    let c = file_bytes::put_text(
        out,
        b,
        b"\nproperty double x\nproperty double y\nproperty double z\nelement face ",
    );
    let d = file_bytes::put_decimal(out, c, faces);
    file_bytes::put_text(
        out,
        d,
        b"\nproperty list uchar int vertex_indices\nend_header\n",
    )
}

// A coordinate of a vertex: that of its cube plus its offset, then times the spacing.
fn put_coordinate(out: &mut [u8], at: usize, cube: u32, offset: f64, spacing: f64) -> usize
    requires number { Number (millimetres cube offset spacing) }
    requires at_in_bounds { at + 8 ≤ length out.old }
    ensures put { Put out.old at (double (millimetres cube offset spacing)) out.new result }
    ensures value { result ≡ at + 8 }
{
    file_bytes::put_eight(out, at, f64::to_bits((cube as f64 + offset) * spacing))
}

// A vertex of a cube, in a block that is w cubes wide and h cubes high.
fn put_vertex(
    out: &mut [u8],
    at: usize,
    w: u32,
    h: u32,
    cube: u32,
    x: f64,
    y: f64,
    z: f64,
    s: Spacing,
) -> usize
    requires w_nonzero { (0 < w) × (0 < h) }
    requires number { Number (x_of w cube x s) × Number (y_of w h cube y s) × Number (z_of w h cube z s) }
    requires at_in_bounds { at + 24 ≤ length out.old }
    ensures put { Put out.old at (three_doubles (x_of w cube x s) (y_of w h cube y s) (z_of w h cube z s)) out.new result }
    ensures value { result ≡ at + 24 }
{
    let row = cube / w;
    let a = put_coordinate(out, at, cube % w, x, s.x);
    let b = put_coordinate(out, a, row % h, y, s.y);
    put_coordinate(out, b, row / h, z, s.z)
}

// All vertices.
fn put_vertices(
    out: &mut [u8],
    at: usize,
    nx: u32,
    ny: u32,
    nz: u32,
    words: &[u32],
    offsets: &[f64],
    s: Spacing,
    count: usize,
) -> usize
    requires le_nx { (2 ≤ nx) × (2 ≤ ny) × (count ≤ 66325500) }
    requires count_in_bounds { (2 * count ≤ length words.now) × (3 * count ≤ length offsets.now) × (at + 24 * count ≤ length out.old) }
    requires all_numbers { AllNumbers (size_of nx ny nz) words.now offsets.now s count }
    ensures put { Put out.old at (below (vertex_bytes (size_of nx ny nz) words.now offsets.now s) count) out.new result }
    ensures value { result ≡ at + 24 * count }
{
    let w = nx - 1;
    let h = ny - 1;
    let mut next = at;
    let mut v: usize = 0;
    while v < count {
        let n = 3 * v;
        next = put_vertex(
            out,
            next,
            w,
            h,
            words[2 * v],
            offsets[n],
            offsets[n + 1],
            offsets[n + 2],
            s,
        );
        v += 1;
    }
    next
}

// A face: four numbers.
fn put_face(out: &mut [u8], at: usize, v0: u32, v1: u32, v2: u32, v3: u32) -> usize
    requires { at + 17 ≤ length out.old }
    ensures put { Put out.old at (index_list v0 v1 v2 v3) out.new result }
    ensures value { result ≡ at + 17 }
{
    let n = file_bytes::put_one(out, at, 4);
    let a = file_bytes::put_four(out, n, v0);
    let b = file_bytes::put_four(out, a, v1);
    let c = file_bytes::put_four(out, b, v2);
    file_bytes::put_four(out, c, v3)
}

// All faces.
fn put_faces(out: &mut [u8], at: usize, quads: &[u32], count: usize) -> usize
    requires { (4 * count ≤ length quads.now) × (at + 17 * count ≤ length out.old) }
    ensures { Put out.old at (below (face_bytes quads.now) count) out.new result }
{
    let mut next = at;
    let mut q: usize = 0;
    while q < count {
        let n = 4 * q;
        next = put_face(
            out,
            next,
            quads[n],
            quads[n + 1],
            quads[n + 2],
            quads[n + 3],
        );
        q += 1;
    }
    next
}

// The file of a mesh that no row refuses.
fn put_file(
    out: &mut [u8],
    nx: u32,
    ny: u32,
    nz: u32,
    words: &[u32],
    offsets: &[f64],
    quads: &[u32],
    s: Spacing,
) -> usize
    requires { ply_verdict nx ny nz words.now offsets.now quads.now s (length out.old) ≡ Passes }
    ensures { Put out.old 0 (ply_file (size_of nx ny nz) words.now offsets.now quads.now s) out.new result }
{
    let vertices = words.len() / 2;
    let faces = quads.len() / 4;
    let a = put_header(out, vertices, faces);
    let b = put_vertices(out, a, nx, ny, nz, words, offsets, s, vertices);
    put_faces(out, b, quads, faces)
}

// A mesh as a PLY file over the front of a buffer, or a refusal, which leaves the buffer as it was.
pub fn write(
    nx: u32,
    ny: u32,
    nz: u32,
    words: &[u32],
    offsets: &[f64],
    quads: &[u32],
    spacing: Spacing,
    file: &mut [u8],
) -> Filed
    ensures { PlyWritten nx ny nz words.now offsets.now quads.now spacing file.old result file.new }
{
    match check(nx, ny, nz, words, offsets, quads, spacing, file.len()) {
        Checked::Refuses(r) => Filed::Refused(r),
        Checked::Passes => Filed::Bytes(put_file(file, nx, ny, nz, words, offsets, quads, spacing)),
    }
}
