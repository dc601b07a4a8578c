// Which entries of a list repeat the key of an earlier one: what the foundry's vertices and quads share (document 02, Twelve). A first look holds each entry
// by itself, and finds whether the keys rise. Where they do not, repeated ones are looked for in ranges of keys, with a table of bits on the stack.
#![tactic(auto)]

ghost use Rattle.std.specs.Prelude.{◌≡◌, true, Bool, ℕ, ◌&&◌, ◌+◌, ◌*◌, ◌<◌, ◌≤◌, leb, length, IsTrue};
ghost use Rattle.laws.specs.Leading.{leading};
ghost use Rattle.laws.proofs.Leading.{HoldsTo};
ghost use Rattle.repeats.specs.Fresh.{span, ranges_of, fresh, fresh_in, bit_at, Marked, Passed, KeyIf, PlaceIn, FarFrom};

// The entries of a list, by their numbers. One that is sound by itself has a key.
pub trait Keyed {
    // What has to be so of the list before an entry is looked at.
    ghost ready: { Self → Type 0 };

    // How many entries there are, which of them are sound, and their keys.
    ghost count: { Self → ℕ };

    ghost sound: { Self → ℕ → Bool };

    ghost key: { Self → ℕ → ℕ };

    // How many keys there may be.
    ghost keys: { Self → ℕ };

    fn count(&self) -> usize
        requires { ready self.now }
        ensures { result ≡ count self.now };

    // As few ranges as hold so many keys, and so the keys of all sound entries.
    fn ranges(&self) -> u32
        requires { ready self.now }
        ensures value { result ≡ ranges_of (keys self.now) }
        ensures keys_below { (v : ℕ) → v < count self.now → sound self.now v ≡ true → key self.now v < span * result };

    // The key of entry v, none where it is not sound.
    fn key(&self, v: usize) -> Option<u64>
        requires ready { ready self.now }
        requires v_bound { v < count self.now }
        ensures { KeyIf (sound self.now) (key self.now) v result };

    // How far the key of entry v is behind the base of the r-th range; none where it is not in this range.
    fn place(&self, r: u32, v: usize) -> Option<usize>
        requires ready { ready self.now }
        requires v_bound { v < count self.now }
        requires v_sound { sound self.now v ≡ true }
        ensures { PlaceIn (span * r) (key self.now v) result };

    // Whether a quick look finds that none of the entries from v up to the end has its key in the r-th range.
    fn is_far(&self, r: u32, v: usize, end: usize) -> bool
        requires ready { ready self.now }
        requires v_bound { (v ≤ end) × (end ≤ count self.now) }
        requires end_sound { HoldsTo (sound self.now) end }
        ensures { IsTrue result → FarFrom (key self.now) (span * r) v end };
}

// Sets the bit of the key k. Answers whether it was set before.
pub fn mark(table: &mut [u64], k: usize) -> bool
    requires { k < 64 * length table.old }
    ensures value { result ≡ bit_at table.old k }
    ensures marked { Marked k table.old table.new }
{
    let place = k / 64;
    let word = table[place];
    let bit = 1u64 << (k % 64);
    table[place] = word | bit;
    (word >> (k % 64)) % 2 == 1
}

// Whether keys that rose so far still rise with this one, which must not be below `last`.
pub fn still(rises: bool, last: u64, key: u64) -> bool
    ensures { result ≡ (leb last key && rises) }
{
    key >= last && rises
}

// The first entry before the end whose key is in the r-th range and that repeats an earlier one; the end where there is none. Those before `from` were passed.
// (A function of its own, since the loop then takes fewer steps a turn.)
fn run<T: Keyed>(entries: &T, r: u32, from: usize, end: usize, table: &mut [u64]) -> usize
    requires ready { T.ready entries.now }
    requires from_bound { (from ≤ end) × (end ≤ T.count entries.now) }
    requires end_sound { HoldsTo (T.sound entries.now) end }
    requires passed { Passed (T.key entries.now) (span * r) from table.old }
    ensures first { result ≡ leading (fresh_in (T.key entries.now) (span * r)) end }
    ensures all_passed { end ≤ result → Passed (T.key entries.now) (span * r) end table.new }
{
    for v in from..end {
        if let Some(k) = entries.place(r, v) {
            if mark(table, k) {
                return v;
            }
        }
    }
    end
}

// The first entry before the limit whose key is in the r-th range and that repeats an earlier one; the limit where there is none. It asks for 64 at a time whether
// they are far from the range. (No range past those that hold the keys is gone through.)
fn pass<T: Keyed>(entries: &T, r: u32, limit: usize) -> usize
    requires ready { T.ready entries.now }
    requires r_bound { r < ranges_of (T.keys entries.now) }
    requires limit_bound { limit ≤ T.count entries.now }
    requires limit_sound { HoldsTo (T.sound entries.now) limit }
    ensures { result ≡ leading (fresh_in (T.key entries.now) (span * r)) limit }
{
    let mut table = [0u64; 4096];
    for part in 0..limit.div_ceil(64) {
        let from = 64 * part;
        let end = from + (limit - from).min(64);
        if !entries.is_far(r, from, end) {
            let at = run(entries, r, from, end, &mut table);
            if at < end {
                return at;
            }
        }
    }
    limit
}

// The first of m entries that repeats an earlier one; m where there is none.
fn first_again<T: Keyed>(entries: &T, ranges: u32, m: usize) -> usize
    requires ready { T.ready entries.now }
    requires m_bound { m ≤ T.count entries.now }
    requires m_sound { HoldsTo (T.sound entries.now) m }
    requires m_below { (v : ℕ) → v < m → T.key entries.now v < span * ranges }
    requires ranges_value { ranges ≡ ranges_of (T.keys entries.now) }
    ensures { result ≡ leading (fresh (T.key entries.now)) m }
{
    let mut limit = m;
    for r in 0..ranges {
        limit = pass(entries, r, limit);
    }
    limit
}

// The first entry at fault, which is not sound or repeats an earlier one; how many there are, where none is.
pub fn first_fault<T: Keyed>(entries: &T) -> usize
    requires { T.ready entries.now }
    ensures { result ≡ leading (λ v. T.sound entries.now v && fresh (T.key entries.now) v) (T.count entries.now) }
{
    let ranges = entries.ranges();
    let count = entries.count();
    // (A flag beside a number, and no Option: `still`, which is promised, takes both and has no branch.)
    let mut rises = true;
    let mut last = 0;
    let mut m = count;
    for v in 0..count {
        let Some(key) = entries.key(v) else {
            m = v;
            break;
        };
        rises = still(rises, last, key);
        last = key + 1;
    }
    if rises {
        m
    } else {
        first_again(entries, ranges, m)
    }
}
