// The quads of the edges from one row of samples: how many there are, and the quads written into a lent buffer by tables of vertex numbers
// (document 01, "The mesh").
#![tactic(auto)]

ghost use Rattle.std.specs.Prelude.{◌≡◌, ℕ, ◌+◌, ◌*◌, ◌<◌, ◌≤◌, true, [], ◌∷◌, length};
ghost use Rattle.std.proofs.lemmas.List.Edits.{sets};
ghost use Rattle.laws.specs.Bits.{holds};
ghost use Rattle.mesh_rule.specs.Mesh.{quad, turned, flat};
ghost use Rattle.notes.specs.Tables.{vertex_in};
ghost use Rattle.quads.specs.Edges.{edges_of, edge_count};
ghost use Rattle.quads.specs.Writing.{order_of, quad_by, word_by, row_by, Reach, Tables};
ghost use Rattle.laws.specs.Put.{Put};

// The axis along which edges run.
#[derive(Clone, Copy)]
pub enum Along {
    AxisX,
    AxisY,
    AxisZ,
}

// A row of edges along an axis: how many samples its plane has in a row, which row of the plane it starts from, and where its quads go.
#[derive(Clone, Copy)]
pub struct Line {
    pub along: Along,
    pub nx: usize,
    pub j: usize,
    pub from: usize,
}

// How the four cubes round an edge are taken: the edge's number in the third, how much less x is for the first and the last, and the lower
// sample's sign with which their order is the quad's.
#[derive(Clone, Copy)]
struct Order {
    e: u32,
    back: usize,
    sign: u64,
}

// 64 edges: the bits of those that are crossed and inner, the signs of their lower samples, and the x of the first.
#[derive(Clone, Copy)]
struct Run {
    d: u64,
    up: u64,
    x: usize,
}

// One edge: the sign of its lower sample, and its x.
#[derive(Clone, Copy)]
struct Edge {
    up: u64,
    x: usize,
}

// The crossed inner edges from word w of row j.
#[tactic(auto, unfolding(crate::specs::Edges::edges_of))]
fn edges(along: Along, a: &[u64], b: &[u64], nx: usize, j: usize, w: usize) -> u64
    requires { (0 < nx) × (w < 4) × (j < 255) × (length a.now ≡ 1280) × (length b.now ≡ 1280) }
    ensures { result ≡ edges_of along a.now b.now nx j w }
{
    let q = 5 * j + w;
    match along {
        Along::AxisX => planes::along_x(a, q) & planes::limit(nx - 1, w),
        Along::AxisY => planes::along_y(a, q) & planes::inner(nx, w),
        Along::AxisZ => planes::along_z(a, b, q) & planes::inner(nx, w),
    }
}

// How many crossed inner edges start from row j of a plane: `a` holds the signs of the plane, `b` those of the plane above where the edges run
// along z.
#[tactic(auto, using(laws::proofs::Sums::total_none, laws::proofs::Sums::total_one))]
pub fn count_row(along: Along, a: &[u64], b: &[u64], nx: usize, j: usize) -> usize
    requires { (0 < nx) × (nx ≤ 256) × (j < 255) × (length a.now ≡ 1280) × (length b.now ≡ 1280) }
    ensures value { result ≡ edge_count along a.now b.now nx j }
    ensures upper_bound { result ≤ 256 }
{
    let mut m: usize = 0;
    for w in 0..nx.div_ceil(64) {
        m += planes::ones_of(edges(along, a, b, nx, j, w));
    }
    m
}

// Writes a quad from a place on; second and fourth change places where the lower sample is negative.
fn put_quad(quads: &mut [u32], from: usize, positive: bool, v0: u32, v1: u32, v2: u32, v3: u32)
    requires { from + 4 ≤ length quads.old }
    ensures { quads.new ≡ sets quads.old from (flat (turned positive (quad v0 v1 v2 v3) ∷ [])) }
{
    quads[from] = v0;
    if positive {
        quads[from + 1] = v1;
        quads[from + 2] = v2;
        quads[from + 3] = v3;
    } else {
        quads[from + 1] = v3;
        quads[from + 2] = v2;
        quads[from + 3] = v1;
    }
}

// The number of the vertex of the cube x at the edge e, by the row's table.
#[tactic(auto, unfolding(notes::specs::Tables::vertex_in))]
fn number(numbers: &[u32], x: usize, e: u32) -> u32
    requires { (2 * x + 2 ≤ length numbers.now) × (e < 16) }
    ensures { result ≡ vertex_in numbers.now x e }
{
    let w = numbers[2 * x + 1];
    let which = (w % 65536 >> e) % 2 + 2 * ((w / 65536 >> e) % 2);
    numbers[2 * x].wrapping_add(which)
}

// Writes the quad of an edge by the tables of the four rows of cubes round it.
#[tactic(auto, unfolding(crate::specs::Writing::quad_by))]
fn put_edge(
    order: Order,
    edge: Edge,
    n0: &[u32],
    n1: &[u32],
    n2: &[u32],
    n3: &[u32],
    quads: &mut [u32],
    from: usize,
)
    requires { (order.e ≤ 8) × Reach order.back edge.x n0.now n1.now n2.now n3.now × (from + 4 ≤ length quads.old) }
    ensures { quads.new ≡ sets quads.old from (quad_by order.e order.back order.sign n0.now n1.now n2.now n3.now edge.up edge.x) }
{
    let e = order.e;
    let x = edge.x;
    let v0 = number(n0, x - order.back, e + 3);
    let v1 = number(n1, x, e + 2);
    let v2 = number(n2, x, e);
    let v3 = number(n3, x - order.back, e + 1);
    put_quad(quads, from, edge.up == order.sign, v0, v1, v2, v3);
}

// Writes the quads of the edges of a run whose bits are set, and answers the place behind them.
fn emit(
    order: Order,
    run: Run,
    n0: &[u32],
    n1: &[u32],
    n2: &[u32],
    n3: &[u32],
    quads: &mut [u32],
    from: usize,
) -> usize
    requires { (order.e ≤ 8) × (run.x ≤ 192) × ((i : ℕ) → i < 64 → holds run.d i ≡ true → Reach order.back (run.x + i) n0.now n1.now n2.now n3.now) × (from + length (word_by order.e order.back order.sign n0.now n1.now n2.now n3.now run.d run.up run.x) ≤ length quads.old) }
    ensures { Put quads.old from (word_by order.e order.back order.sign n0.now n1.now n2.now n3.now run.d run.up run.x) quads.new result }
{
    let mut w = run.d;
    let mut i: usize = 0;
    let mut p = from;
    // (A while: the step is the next set bit, not one more.)
    while w != 0 {
        let k = w.trailing_zeros() as usize;
        let y = i + k;
        let edge = Edge {
            up: (run.up >> y) % 2,
            x: run.x + y,
        };
        put_edge(order, edge, n0, n1, n2, n3, quads, p);
        p += 4;
        w = (w >> k) >> 1;
        i = y + 1;
    }
    p
}

// How the four cubes round an edge along the axis are taken.
fn order_of(along: Along) -> Order
    ensures value { result ≡ order_of along }
    ensures e_bound { result.e ≤ 8 }
{
    match along {
        Along::AxisX => Order {
            e: 0,
            back: 0,
            sign: 1,
        },
        Along::AxisY => Order {
            e: 4,
            back: 1,
            sign: 0,
        },
        Along::AxisZ => Order {
            e: 8,
            back: 1,
            sign: 1,
        },
    }
}

// Writes the quads of the crossed inner edges of a line, and answers the place behind them: `a` and `b` hold the signs as for `count_row`, and the
// tables the vertices of the rows of cubes round the edges: first, second, third and fourth.
pub fn write_row(
    line: Line,
    a: &[u64],
    b: &[u64],
    n0: &[u32],
    n1: &[u32],
    n2: &[u32],
    n3: &[u32],
    quads: &mut [u32],
) -> usize
    requires { (2 ≤ line.nx) × (line.nx ≤ 256) × (line.j < 255) × (length a.now ≡ 1280) × (length b.now ≡ 1280) × Tables line.nx n0.now n1.now n2.now n3.now × (line.from + length (row_by line.along a.now b.now line.nx line.j n0.now n1.now n2.now n3.now) ≤ length quads.old) }
    ensures { Put quads.old line.from (row_by line.along a.now b.now line.nx line.j n0.now n1.now n2.now n3.now) quads.new result }
{
    let Line { along, nx, j, from } = line;
    let order = order_of(along);
    let mut p = from;
    for w in 0..nx.div_ceil(64) {
        let run = Run {
            d: edges(along, a, b, nx, j, w),
            up: a[5 * j + w],
            x: 64 * w,
        };
        p = emit(order, run, n0, n1, n2, n3, quads, p);
    }
    p
}
