// Lists of quads: the checks of rows 7 and 14 of the table of refusals (document 01, "Numbers of refusal"; document 02, Three).
#![tactic(auto)]

ghost use Rattle.std.specs.Prelude.{◌≡◌, ◌&&◌, ltb};
ghost use Rattle.lists.specs.Rows.{length_row, number_row};

use block::{Checked, Refusal};

// Row 7: the length of the list is no multiple of 4.
pub fn check_length(quads: &[u32]) -> Checked
    ensures { result ≡ length_row quads.now }
{
    let rest = quads.len() % 4;
    if rest == 0 {
        return Checked::Passes;
    }
    Checked::Refuses(Refusal {
        number: 7,
        value: rest as u32,
    })
}

// Whether four numbers are below a count.
fn all_below(count: usize, a: u32, b: u32, c: u32, d: u32) -> bool
    ensures { result ≡ (ltb a count && ltb b count && ltb c count && ltb d count) }
{
    if a as usize >= count {
        return false;
    }
    if b as usize >= count {
        return false;
    }
    if c as usize >= count {
        return false;
    }
    (d as usize) < count
}

// Row 14: a quad names a vertex at or past the count.
pub fn check_numbers(count: usize, quads: &[u32]) -> Checked
    ensures { result ≡ number_row count quads.now }
{
    let all = quads.len() / 4;
    let mut q: usize = 0;
    while q < all {
        let n = 4 * q;
        if !all_below(count, quads[n], quads[n + 1], quads[n + 2], quads[n + 3]) {
            return Checked::Refuses(Refusal {
                number: 14,
                value: block::short(q),
            });
        }
        q += 1;
    }
    Checked::Passes
}
