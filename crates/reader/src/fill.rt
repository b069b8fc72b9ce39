// Filling the table from a book's bytes, entry by entry.
ghost use Rattle.std.specs.Prelude.{◌≡◌, ◌<◌, length, set};
ghost use Rattle.reader.specs.Filling.{move_stored};

// The move whose record begins at a place, in the table, as far as it is there.
pub(crate) fn put_move(book: &[u8], at: usize, m: u64, table: &mut [u64])
    requires { (at < length book.now) × (m < 256) }
    ensures { table.new ≡ move_stored m book.now at table.old }
{
    let state = octets::byte_at(book, at + 4);
    let command = octets::byte_at(book, at + 5);
    let entry = (state * m + command) as usize;
    if entry < table.len() {
        table[entry] = octets::u64_at(book, at + 6);
    }
}
