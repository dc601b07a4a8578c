// The numbers of a row's vertices, noted by cube and edge: of one cube, and of a row that is read back from the words buffer.
#![tactic(auto)]

ghost use Rattle.std.specs.Prelude.{◌≡◌, cond, [], ◌∷◌, ◌+◌, ◌*◌, ◌<◌, ◌≤◌, length};
ghost use Rattle.std.proofs.lemmas.List.Edits.{sets};
ghost use Rattle.notes.specs.Tables.{which_of, word_for, is_first, four_for, RowRead, RowNoted};

// Notes the number of the first vertex of the cube x, and which of its vertices each edge has.
pub fn note(numbers: &mut [u32], x: usize, v: u32, which: u32)
    requires { 2 * x + 2 ≤ length numbers.old }
    ensures { numbers.new ≡ sets numbers.old (2 * x) (v ∷ which ∷ []) }
{
    numbers[2 * x] = v;
    numbers[2 * x + 1] = which;
}

// Which of a cube's four vertices each edge has, by their words: two bits an edge.
#[tactic(auto, unfolding(crate::specs::Tables::which_of))]
pub fn which_of(four: [u32; 4]) -> u32
    ensures { result ≡ which_of four }
{
    (four[1] | four[3]) % 65536 + 65536 * ((four[2] | four[3]) % 65536)
}

// Notes the vertices of a row of m cubes that are written, from the cube c on: their words stand in a part of the words buffer whose vertex 0 has
// the number `first`, from its vertex `from` on. Answers the vertex behind them.
pub fn note_row(
    part: &[u32],
    from: usize,
    first: usize,
    c: usize,
    m: usize,
    numbers: &mut [u32],
) -> usize
    requires { (2 * from ≤ length part.now) × (m ≤ 256) × (length numbers.old ≡ 512) × (first + length part.now < 4294967296) }
    ensures row_read { RowRead m c from first part.now numbers.new result }
    ensures row_noted { RowNoted m c from first part.now numbers.old numbers.new result }
{
    let end = part.len() / 2;
    for v in from..end {
        let d = part[2 * v] as usize;
        if d < c || m <= d - c {
            return v;
        }
        note_vertex(part, from, first, v, d - c, numbers);
    }
    end
}

// Notes the cube x of the vertex v of a part, if it is the first of its cube; the part's vertex 0 has the number `first`.
fn note_vertex(part: &[u32], from: usize, first: usize, v: usize, x: usize, numbers: &mut [u32])
    requires { (from ≤ v) × (2 * v + 1 < length part.now) × (2 * x + 2 ≤ length numbers.old) × (first + length part.now < 4294967296) }
    ensures { numbers.new ≡ cond (is_first part.now from v) (sets numbers.old (2 * x) ((first + v) ∷ which_of (four_for part.now v) ∷ [])) numbers.old }
{
    if !is_first(part, from, v) {
        return;
    }
    let d = part[2 * v];
    let four = [
        word_for(part, d, v),
        word_for(part, d, v + 1),
        word_for(part, d, v + 2),
        word_for(part, d, v + 3),
    ];
    note(numbers, x, (first + v) as u32, which_of(four));
}

// Whether the vertex v is the first of its cube, from the vertex `from` on.
fn is_first(part: &[u32], from: usize, v: usize) -> bool
    requires { (from ≤ v) × (2 * v + 1 < length part.now) }
    ensures { result ≡ is_first part.now from v }
{
    v == from || part[2 * v - 2] != part[2 * v]
}

// The word of the vertex v of a part of the words buffer if it is of the cube d, else 0.
fn word_for(part: &[u32], d: u32, v: usize) -> u32
    requires { v ≤ 4294967300 }
    ensures { result ≡ word_for part.now d v }
{
    if 2 * v + 1 < part.len() && part[2 * v] == d {
        part[2 * v + 1]
    } else {
        0
    }
}
