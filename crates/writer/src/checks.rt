// What writing refuses: weights out of range, entries with a bit at n or above, slots that hold no item as it should stand there. Each is out of range, at
// the lowest place that is wrong.
ghost use Rattle.std.specs.Prelude.{◌≡◌, true, ℕ, ◌≤◌, ◌<◌, length, get_or, Ok};
ghost use Rattle.base.specs.Masks.{clear_from};
ghost use Rattle.writer.specs.Lowest.{lowest_weight, lowest_entry, lowest_slot, unless_below, found_wrong};

use book::{Fault, FaultAt};

// Out of range at the place that was found, if there is one.
fn unless_found(wrong: Option<usize>) -> Result<(), FaultAt>
    ensures { result ≡ found_wrong wrong }
{
    match wrong {
        Some(place) => Err(Fault::OutOfRange.at(place as u64)),
        None => Ok(()),
    }
}

// The first k weights: each is one that a command may have.
pub(crate) fn judge_weights(k: usize, w: &[u16]) -> Result<(), FaultAt>
    requires { k ≤ length w.now }
    ensures { result ≡ unless_below (lowest_weight k w.now) k (Ok tt) }
{
    let w = &w[..k];
    unless_found((0..k).find(|&i| !limits::weight_fine(octets::word_at(w, i))))
}

// All states of the first k entries.
fn union(k: usize, t: &[u64]) -> u64
    requires { (k ≤ 2048) × (k ≤ length t.now) }
    ensures { (n i : ℕ) → i < k → clear_from n result ≡ true → clear_from n (get_or t.now i 0) ≡ true }
{
    let mut all: u64 = 0;
    for states in &t[..k] {
        all |= states;
    }
    all
}

// The first k entries: none has a bit at n or above; at once where n is 64, or where their union has no such bit.
pub(crate) fn judge_entries(n: u64, k: usize, t: &[u64]) -> Result<(), FaultAt>
    requires { (k ≤ 2048) × (k ≤ length t.now) }
    ensures { result ≡ unless_below (lowest_entry n k t.now) k (Ok tt) }
{
    if 64 <= n || limits::mask_fine(union(k, t), n) {
        return Ok(());
    }
    unless_found((0..k).find(|&i| !limits::mask_fine(octets::entry_at(t, i), n)))
}

// The first c slots: each is fine.
pub(crate) fn judge_slots(n: u64, m: u64, c: usize, s: &[u8]) -> Result<(), FaultAt>
    requires { c ≤ 64 }
    ensures { result ≡ unless_below (lowest_slot n m c s.now) c (Ok tt) }
{
    unless_found((0..c).find(|&i| !slots::fine(s, i as u8, n, m)))
}
