// The items in lent slots: 34 bytes each, with k, r, eight forward and eight reverse commands, phi and psi. This module alone knows their places
// there. Every call takes any bytes and any slot's number; past the end there are zeros, and nothing is stored.
#![tactic(auto)]

ghost use Rattle.std.specs.Prelude.{◌≡◌, true, ℕ, ◌+◌, ◌*◌, ◌≤◌, ◌<◌, length, get_or};
ghost use Rattle.std.proofs.lemmas.List.Edits.{sets};
ghost use Rattle.octets.specs.Le.{bytes_le};
ghost use Rattle.octets.specs.Parts.{piece};
ghost use Rattle.book.specs.Lent.{padded};
ghost use Rattle.book.specs.Slots.{item_at, slot_fine};
ghost use Rattle.slots.specs.Filled.{SlotFilled, FilledFrom};
ghost use Rattle.slots.specs.Stored.{parts_of, HasCounts};

use items::Parts;

// The bytes of a slot.
pub const SLOT_LEN: usize = 34;

// Where slot a begins.
fn start(a: u8) -> usize
    ensures value { result ≡ 34 * a }
    ensures upper_bound { result < 8705 }
{
    SLOT_LEN * a as usize
}

// The number of forward commands of the item in slot a.
#[tactic(auto, using(crate::proofs::Laws::k_is))]
pub fn k(slots: &[u8], a: u8) -> u64
    ensures { (result ≡ length (item_at slots.now a).forward) × (result < 256) }
{
    octets::byte_at(slots, start(a))
}

// The number of its reverse commands.
#[tactic(auto, using(crate::proofs::Laws::r_is))]
pub fn r(slots: &[u8], a: u8) -> u64
    ensures { (result ≡ length (item_at slots.now a).reverse) × (result < 256) }
{
    octets::byte_at(slots, start(a) + 1)
}

// Its reverse command x, where it has one.
#[tactic(auto, using(crate::proofs::Laws::reverse_is))]
pub fn reverse(slots: &[u8], a: u8, x: u8) -> u64
    ensures { (x < length (item_at slots.now a).reverse → result ≡ get_or (item_at slots.now a).reverse x 0) × (result < 256) }
{
    octets::byte_at(slots, start(a) + 10 + x as usize)
}

#[tactic(auto, unfolding(book::specs::Slots::item_at))]
pub fn phi(slots: &[u8], a: u8) -> u64
    ensures { result ≡ (item_at slots.now a).phi }
{
    octets::u64_at(slots, start(a) + 18)
}

#[tactic(auto, unfolding(book::specs::Slots::item_at))]
pub fn psi(slots: &[u8], a: u8) -> u64
    ensures { result ≡ (item_at slots.now a).psi }
{
    octets::u64_at(slots, start(a) + 26)
}

// Stores its commands and masks in d, one after the other, for who knows the numbers of its commands. Each part is stored as eight bytes; the next one
// goes over those that were too many.
pub fn put_parts(slots: &[u8], a: u8, k: usize, r: usize, d: &mut [u8])
    ensures { HasCounts slots.now a k r → d.new ≡ sets d.old 0 (parts_of (item_at slots.now a)) }
{
    let q = start(a);
    if 8 < k || 8 < r || slots.len() < q + SLOT_LEN {
        return;
    }
    octets::put_le(8, octets::u64_at(slots, q + 2), d, 0);
    octets::put_le(8, octets::u64_at(slots, q + 10), d, k);
    octets::put_le(8, phi(slots, a), d, k + r);
    octets::put_le(8, psi(slots, a), d, k + r + 8);
}

// The largest of some bytes, 0 of none.
fn largest(bytes: &[u8]) -> u8
    ensures { (i : ℕ) → i < length bytes.now → get_or bytes.now i 0 ≤ result }
{
    let mut top = 0;
    for byte in bytes {
        top = top.max(*byte);
    }
    top
}

// True only where slot a is fine; where it is false, `fine_by_bytes` decides.
fn fine_by_words(slots: &[u8], a: u8, n: u64, m: u64) -> bool
    ensures { result ≡ true → slot_fine n m slots.now a ≡ true }
{
    let q = start(a);
    if slots.len() < q + SLOT_LEN {
        return false;
    }
    let k = octets::byte_at(slots, q);
    let r = octets::byte_at(slots, q + 1);
    if !limits::counts_fine(k, r)
        || m <= largest(&slots[q + 2..q + 18]) as u64
        || !limits::mask_fine(octets::u64_at(slots, q + 2), 8 * k)
        || !limits::mask_fine(octets::u64_at(slots, q + 10), 8 * r)
        || !limits::mask_fine(octets::u64_at(slots, q + 18), n)
    {
        return false;
    }
    limits::mask_fine(octets::u64_at(slots, q + 26), n)
}

// Whether slot a, byte by byte, keeps an item's limits, for n states and m commands, and has zeros in its unused command bytes.
#[tactic(auto, using(book::proofs::Limits::counts_on))]
fn fine_by_bytes(slots: &[u8], a: u8, n: u64, m: u64) -> bool
    ensures { result ≡ slot_fine n m slots.now a }
{
    let q = start(a);
    if slots.len() < q + SLOT_LEN {
        return false;
    }
    let k = octets::byte_at(slots, q);
    let r = octets::byte_at(slots, q + 1);
    if !limits::counts_fine(k, r) {
        return false;
    }
    let f = q + 2 + k as usize;
    let b = q + 10 + r as usize;
    let phi = octets::u64_at(slots, q + 18);
    let psi = octets::u64_at(slots, q + 26);
    if !limits::fields_fine(&slots[q + 2..f], &slots[q + 10..b], phi, psi, n, m)
        || !limits::all_below(&slots[f..q + 10], 1)
    {
        return false;
    }
    limits::all_below(&slots[b..q + 18], 1)
}

// Whether slot a keeps an item's limits, for n states and m commands, and has zeros in its unused command bytes.
pub fn fine(slots: &[u8], a: u8, n: u64, m: u64) -> bool
    ensures { result ≡ slot_fine n m slots.now a }
{
    fine_by_words(slots, a, n, m) || fine_by_bytes(slots, a, n, m)
}

// The number whose eight bytes are the commands that stand at p of a book, with zeros behind them.
fn commands_at(book: &[u8], p: usize, count: usize) -> u64
    requires { count ≤ 8 }
    ensures { bytes_le 8 result ≡ padded (piece count book.now p) }
{
    let eight = octets::u64_at(book, p);
    if count < 8 {
        eight % (1 << (8 * count))
    } else {
        eight
    }
}

// Fills slot a from the item whose record begins at a place of a book; gives the place of the next one. Where no item stands nothing is stored, or
// something or other in the slot.
pub fn fill(book: &[u8], at: usize, slots: &mut [u8], a: u8) -> usize
    ensures { SlotFilled book.now at slots.old a slots.new result }
{
    let item = items::parts_at(book, at);
    fill_from(book, item, slots, a);
    item.next
}

// The same for who has read the parts of its record.
pub fn fill_from(book: &[u8], item: Parts, slots: &mut [u8], a: u8)
    ensures { FilledFrom book.now item slots.old a slots.new }
{
    let q = start(a);
    if slots.len() < q + SLOT_LEN {
        let rest = q.min(slots.len());
        put(book, item, &mut slots[rest..]);
        return;
    }
    put(book, item, &mut slots[q..q + SLOT_LEN]);
}

// The same for a slot by itself, of 34 bytes or as many as are there. Inlined, so that no store into a whole slot tests the room.
#[inline(always)]
fn put(book: &[u8], item: Parts, slot: &mut [u8])
    ensures { FilledFrom book.now item slot.old 0 slot.new }
{
    if 8 < item.k || 8 < item.r {
        return;
    }
    let forward = commands_at(book, item.forward, item.k);
    let reverse = commands_at(book, item.reverse, item.r);
    let phi = items::phi(book, item);
    let psi = items::psi(book, item);
    octets::put_le(2, (item.k + 256 * item.r) as u64, slot, 0);
    octets::put_le(8, forward, slot, 2);
    octets::put_le(8, reverse, slot, 10);
    octets::put_le(8, phi, slot, 18);
    octets::put_le(8, psi, slot, 26);
}
