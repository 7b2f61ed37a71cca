//! Sets as slices of words: all work on labels is done here, for `Bits` and for views of labels in an arena.
ghost use Rattle.std.specs.Prelude.{◌≡◌, ◌↔◌, ℕ, ◌*◌, ◌^◌, ◌<◌, ◌≤◌, ◌==◌, ◌&&◌, ◌||◌, not, length, IsTrue};
ghost use Rattle.std.specs.Int.{bit_at};
ghost use Rattle.dd_set.specs.Words.{has, IsWithin, IsNext, IsPacked};

/// Whether the number is in the set. A number past the words is not.
#[tactic(auto, using(crate::proofs::Reading::reading), unfolding(crate::specs::Words::has))]
pub fn has_number(words: &[u64], n: u32) -> bool
    ensures { result ≡ has words.now n }
{
    let at = (n / 64) as usize;
    if at < words.len() {
        (words[at] >> (n % 64)) & 1 == 1
    } else {
        false
    }
}

/// Puts the number into the set, and tells whether it is new.
pub fn put_number(words: &mut [u64], n: u32) -> bool
    requires { n < length words.old * 64 }
    ensures fresh { result ≡ not (has words.old n) }
    ensures with { (k : ℕ) → has words.new k ≡ ((k == n) || has words.old k) }
    ensures packed { (width : ℕ) → n < width → IsPacked width words.old → IsPacked width words.new }
{
    let at = (n / 64) as usize;
    let bit = 1u64 << (n % 64);
    let word = words[at];
    words[at] = word | bit;
    word & bit == 0
}

/// Whether all that is in the first set is in the second. Both have as many words.
pub fn are_within(a: &[u64], b: &[u64]) -> bool
    requires { length a.now ≡ length b.now }
    ensures { IsTrue result ↔ IsWithin a.now b.now }
{
    for i in 0..a.len() {
        if !is_word_within(a[i], b[i]) {
            return false;
        }
    }
    true
}

fn is_word_within(a: u64, b: u64) -> bool
    ensures { IsTrue result ↔ ((i : ℕ) → i < 64 → bit_at a i ≡ 1 → bit_at b i ≡ 1) }
{
    a & !b == 0
}

/// Whether the words are the same.
pub fn are_same(a: &[u64], b: &[u64]) -> bool
    ensures { IsTrue result ↔ (a.now ≡ b.now) }
{
    a == b
}

/// The least number of the set that is at least `n`.
pub fn next_number(words: &[u64], n: u32) -> Option<u32>
    requires { length words.now * 64 ≤ 2 ^ 32 }
    ensures { IsNext words.now n result }
{
    let mut place = n as usize;
    while place / 64 < words.len() {
        let rest = words[place / 64] >> (place % 64);
        if rest != 0 {
            return Some((place + rest.trailing_zeros() as usize) as u32);
        }
        place = (place / 64 + 1) * 64;
    }
    None
}

/// Puts all numbers of the second set into the first. Both have as many words.
pub fn put_all(a: &mut [u64], b: &[u64])
    requires { length a.old ≡ length b.now }
    ensures union { (k : ℕ) → has a.new k ≡ (has a.old k || has b.now k) }
    ensures packed { (width : ℕ) → IsPacked width a.old → IsPacked width b.now → IsPacked width a.new }
{
    for i in 0..b.len() {
        let word = a[i] | b[i];
        a[i] = word;
    }
}

/// Keeps the numbers of the first set that are in the second. Both have as many words.
pub fn keep_all(a: &mut [u64], b: &[u64])
    requires { length a.old ≡ length b.now }
    ensures both { (k : ℕ) → has a.new k ≡ (has a.old k && has b.now k) }
    ensures packed { (width : ℕ) → IsPacked width a.old → IsPacked width a.new }
{
    for i in 0..b.len() {
        let word = a[i] & b[i];
        a[i] = word;
    }
}

/// Takes the numbers of the second set out of the first. Both have as many words.
pub fn take_all(a: &mut [u64], b: &[u64])
    requires { length a.old ≡ length b.now }
    ensures rest { (k : ℕ) → has a.new k ≡ (has a.old k && not (has b.now k)) }
    ensures packed { (width : ℕ) → IsPacked width a.old → IsPacked width a.new }
{
    for i in 0..b.len() {
        let word = a[i] & !b[i];
        a[i] = word;
    }
}
