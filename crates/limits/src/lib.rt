// 01's and 02's limits of a device, a weight, a move and an item, each judged by one function for reading, writing and every other call.
#![tactic(auto)]

ghost use Rattle.std.specs.Prelude.{◌≡◌};
ghost use Rattle.base.specs.Masks.{clear_from};
ghost use Rattle.book.specs.Limits.{device_fine, weight_fine, move_fine, move_with, counts_fine, all_below, fields_fine, item_with};

// Whether there are such devices: n from 1 to 64, m from 1 to 32.
#[tactic(auto, unfolding(book::specs::Limits::device_fine, base::specs::Tests::pick, base::specs::Compare::less))]
pub fn device_fine(n: u64, m: u64) -> bool
    ensures { result ≡ device_fine n m }
{
    (1..=64).contains(&n) && (1..=32).contains(&m)
}

// Whether a command may have this weight: 1 to 1,000.
#[tactic(auto, unfolding(book::specs::Limits::weight_fine, base::specs::Tests::pick, base::specs::Compare::less))]
pub fn weight_fine(w: u64) -> bool
    ensures { result ≡ weight_fine w }
{
    (1..=1000).contains(&w)
}

// Whether a mask has no bit at n or above; none has one at 64 or above.
#[tactic(auto, using(base::proofs::Masks::shr_zero, base::proofs::Masks::word_clear))]
pub fn mask_fine(mask: u64, n: u64) -> bool
    ensures { result ≡ clear_from n mask }
{
    if n < 64 { mask >> n == 0 } else { true }
}

// Whether a device with n states and m commands may have this move.
#[tactic(auto, unfolding(book::specs::Limits::move_fine, base::specs::Tests::pick, base::specs::Compare::at_most, base::specs::Compare::same))]
pub fn move_fine(state: u64, command: u64, mask: u64, n: u64, m: u64) -> bool
    ensures { result ≡ move_fine n m (move_with state command mask) }
{
    state < n && command < m && mask != 0 && mask_fine(mask, n)
}

// Whether there are such items: k from 1 to 8, r at most 8.
#[tactic(auto, unfolding(book::specs::Limits::counts_fine, base::specs::Tests::pick, base::specs::Compare::less))]
pub fn counts_fine(k: u64, r: u64) -> bool
    ensures { result ≡ counts_fine k r }
{
    (1..=8).contains(&k) && r <= 8
}

// Whether each of the commands is below m.
pub fn all_below(commands: &[u8], m: u64) -> bool
    ensures { result ≡ all_below m commands.now }
{
    commands.iter().all(|&c| u64::from(c) < m)
}

// Whether an item's commands are below m and its masks have no bit at n or above.
#[tactic(auto, unfolding(book::specs::Limits::fields_fine, base::specs::Tests::pick))]
pub fn fields_fine(forward: &[u8], reverse: &[u8], phi: u64, psi: u64, n: u64, m: u64) -> bool
    ensures { result ≡ fields_fine n m (item_with forward.now reverse.now phi psi) }
{
    all_below(forward, m) && all_below(reverse, m) && mask_fine(phi, n) && mask_fine(psi, n)
}
