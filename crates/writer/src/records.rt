// The records of a book, stored one after the other.
ghost use Rattle.std.specs.Prelude.{◌≡◌, ◌+◌, ◌*◌, ◌<◌, ◌≤◌, length};
ghost use Rattle.std.proofs.lemmas.List.Edits.{sets};
ghost use Rattle.book.specs.Book.{bytes_of, all_one, two_bytes, frame, framed, device_rec, weights_recs, move_rec, item_rec};
ghost use Rattle.octets.specs.Parts.{piece};
ghost use Rattle.book.specs.Lent.{lent};
ghost use Rattle.book.specs.Slots.{item_at};
ghost use Rattle.book.specs.Buffers.{book_from};
ghost use Rattle.writer.specs.Records.{move, entry_row, moves_bytes, item_head, items_bytes, CountsFine};
ghost use Rattle.writer.specs.Adds.{Adds};

use book::Kind;

// The record of the device, from 0 on.
fn put_device(n: u64, m: u64, d: &mut [u8])
    requires { (n < 256) × (m < 256) }
    ensures { d.new ≡ sets d.old 0 (frame (device_rec n m)) }
{
    octets::put_le(2, 2, d, 0);
    octets::put_le(2, Kind::DeviceRecord as u64, d, 2);
    octets::put_le(1, n, d, 4);
    octets::put_le(1, m, d, 5);
}

// Whether each of the first k weights is 1.
fn all_one(k: usize, w: &[u16]) -> bool
    requires { k ≤ length w.now }
    ensures { result ≡ all_one (piece k w.now 0) }
{
    let w = &w[..k];
    (0..k).all(|i| octets::word_at(w, i) == 1)
}

// The first k weights, two bytes each, from `at` on.
fn put_each(k: usize, w: &[u16], d: &mut [u8], at: usize)
    requires { (k ≤ 32) × (at < 16) }
    ensures { d.new ≡ sets d.old at (two_bytes (piece k w.now 0)) }
{
    for i in 0..k {
        octets::put_le(2, octets::word_at(w, i), d, at + 2 * i);
    }
}

// The record of the first m weights, from 6 on, left out where each is 1. The answer is the place after it.
fn put_weights(m: usize, w: &[u16], d: &mut [u8]) -> usize
    requires { (m ≤ 32) × (m ≤ length w.now) }
    ensures d_after { d.new ≡ sets d.old 6 (framed (weights_recs (piece m w.now 0))) }
    ensures value { result ≡ 6 + length (framed (weights_recs (piece m w.now 0))) }
    ensures upper_bound { result ≤ 74 }
{
    if all_one(m, w) {
        return 6;
    }
    octets::put_le(2, 2 * m as u64, d, 6);
    octets::put_le(2, Kind::WeightsRecord as u64, d, 8);
    put_each(m, w, d, 10);
    10 + 2 * m
}

// The record of a move, from 0 on.
fn put_move(state: u64, command: u64, mask: u64, d: &mut [u8])
    requires { (state < 256) × (command < 256) }
    ensures { d.new ≡ sets d.old 0 (frame (move_rec (move state command mask))) }
{
    octets::put_le(2, 10, d, 0);
    octets::put_le(2, Kind::MoveRecord as u64, d, 2);
    octets::put_le(1, state, d, 4);
    octets::put_le(1, command, d, 5);
    octets::put_le(8, mask, d, 6);
}

// The head of an item's record and its two counts, from 0 on.
fn put_head(k: u64, r: u64, d: &mut [u8])
    requires { (k ≤ 8) × (r ≤ 8) }
    ensures { d.new ≡ sets d.old 0 (item_head k r) }
{
    octets::put_le(2, 18 + k + r, d, 0);
    octets::put_le(2, Kind::ItemRecord as u64, d, 2);
    octets::put_le(1, k, d, 4);
    octets::put_le(1, r, d, 5);
}

// A lent output, and the place after the records that are stored there so far: the next record begins at that place.
#[derive(Drop)]
struct Output<'a> {
    out: &'a mut [u8],
    end: usize,
}

impl Output<'_> {
    // The record of an entry, where its mask is not 0. `put_move` is lent the 14 bytes of the record alone, so that its tests for room are constant.
    fn put_entry(&mut self, mask: u64, state: u64, command: u64)
        requires { (self.old.end + 14 ≤ length self.old.out.now) × (state < 256) × (command < 256) }
        ensures adds { Adds self.old (entry_row mask state command) self.new }
        ensures upper_bound { self.new.end ≤ self.old.end + 14 }
    {
        if mask == 0 {
            return;
        }
        let at = self.end;
        put_move(state, command, mask, &mut self.out[at..at + 14]);
        self.end = at + 14;
    }

    // The records of a state's entries.
    fn put_row(&mut self, state: usize, m: usize, t: &[u64])
        requires { (state < 64) × (m ≤ 32) × (state * m + m ≤ length t.now) × (self.old.end + 14 * m ≤ length self.old.out.now) }
        ensures adds { Adds self.old (moves_bytes m t.now (state * m) m) self.new }
        ensures upper_bound { self.new.end ≤ self.old.end + 14 * m }
    {
        let first = state * m;
        for (command, mask) in t[first..first + m].iter().enumerate() {
            self.put_entry(*mask, state as u64, command as u64);
        }
    }

    // The records of all entries, state by state.
    fn put_moves(&mut self, n: usize, m: usize, t: &[u64])
        requires { (n ≤ 64) × (m ≤ 32) × (n * m ≤ length t.now) × (self.old.end + 14 * (n * m) ≤ length self.old.out.now) }
        ensures adds { Adds self.old (moves_bytes (n * m) t.now 0 m) self.new }
        ensures upper_bound { self.new.end ≤ self.old.end + 14 * (n * m) }
    {
        for state in 0..n {
            self.put_row(state, m, t);
        }
    }

    // The record of the item in slot a. Its counts are tested again: in slots that overlap the output, which the header rules out, they may have changed,
    // and would lead past its end.
    fn put_item(&mut self, s: &[u8], a: u8)
        requires { (34 * a + 34 ≤ length s.now) × (length (item_at s.now a).forward ≤ 8) × (length (item_at s.now a).reverse ≤ 8)
            × (self.old.end + 38 ≤ length self.old.out.now) }
        ensures adds { Adds self.old (frame (item_rec (item_at s.now a))) self.new }
        ensures upper_bound { self.new.end ≤ self.old.end + 38 }
    {
        let k = slots::k(s, a);
        let r = slots::r(s, a);
        if 8 < k || 8 < r {
            return;
        }
        let at = self.end;
        let body = at + 6;
        put_head(k, r, &mut self.out[at..body]);
        let end = body + 16 + k as usize + r as usize;
        slots::put_parts(s, a, k as usize, r as usize, &mut self.out[body..end]);
        self.end = end;
    }

    // The records of the items in the first c slots.
    fn put_items(&mut self, c: usize, s: &[u8])
        requires { (c ≤ 64) × (2176 ≤ length s.now) × (self.old.end + 38 * c ≤ length self.old.out.now) × CountsFine c s.now }
        ensures adds { Adds self.old (items_bytes c s.now 0) self.new }
    {
        for i in 0..c {
            self.put_item(s, i as u8);
        }
    }
}

// The whole book, from 0 on, once all that it takes is judged; its length.
pub(crate) fn put_book(
    n: u64,
    m: u64,
    c: usize,
    table: &[u64],
    slots: &[u8],
    weights: &[u16],
    out: &mut [u8],
) -> usize
    requires { (n ≤ 64) × (m ≤ 32) × (c ≤ 64) × CountsFine c slots.now × (2048 ≤ length table.now) × (2176 ≤ length slots.now)
        × (31178 ≤ length out.old) × (32 ≤ length weights.now) }
    ensures out_after { out.new ≡ sets out.old 0
        (bytes_of (book_from n m c (lent table.now slots.now weights.now))) }
    ensures value { result ≡ length (bytes_of (book_from n m c (lent table.now slots.now weights.now))) }
{
    put_device(n, m, out);
    let end = put_weights(m as usize, weights, out);
    let mut book = Output { out, end };
    book.put_moves(n as usize, m as usize, table);
    book.put_items(c, slots);
    book.end
}
