// The units of the items passed so far, and the longest reverse among them.
ghost use Rattle.std.specs.Prelude.{◌≡◌, true, ◌≤◌, length};
ghost use Rattle.reader.specs.Summing.{Within, Tallied};

use book::Kind;

#[derive(Clone, Copy)]
pub struct Tally {
    // The items passed.
    pub count: u64,
    pub units: u64,
    pub longest: u64,
}

// The record at a place, where items are summed up: an item's adds (states in psi) × (k + r), any other adds nothing.
pub(crate) fn with_record(book: &[u8], at: usize, so_far: Tally, summing: bool) -> Tally
    requires { Within so_far × (at ≤ length book.now) }
    ensures { Within result × (summing ≡ true → Tallied book.now at so_far result) }
{
    if !summing || octets::u16_at(book, at + 2) != Kind::ItemRecord as u64 {
        return so_far;
    }
    // Judging refuses a 65th item; this test bounds the sum for any bytes.
    if 64 <= so_far.count {
        return so_far;
    }
    let item = items::parts_at(book, at);
    let starts = u64::count_ones(items::psi(book, item)) as u64;
    Tally {
        count: so_far.count + 1,
        units: so_far.units + starts * (item.k + item.r) as u64,
        longest: so_far.longest.max(item.r as u64),
    }
}
