// The weights and items of a book, read from its bytes: where the moves and each item's record begin, and what the records of weights and items
// hold. This is the one module that knows the layout of these records for reading them. Every call takes any bytes; its promise speaks of every
// allowed book whose bytes these are.
#![tactic(auto)]

ghost use Rattle.std.specs.Prelude.{◌≡◌, ◌+◌, ◌-◌, ◌<◌, ◌≤◌, length};
ghost use Rattle.std.specs.Iterator.{at_most};
ghost use Rattle.octets.specs.Parts.{le_at};
ghost use Rattle.items.specs.Items.{WeightAt, FirstMove, held_in, PartsAt, ItemComes, MoveComes, FirstItem, Placed};

// The kinds of the records of weights and of moves.
pub const WEIGHTS_KIND: u64 = 5;

pub const MOVE_KIND: u64 = 2;

// The bytes of a move's record.
pub const MOVE_LEN: usize = 14;

// What is read of an item's record: the counts of its commands each way, the places where they and the two masks stand, and the place past the record.
// `phi` and `psi` read the masks.
#[derive(Clone, Copy)]
pub struct Parts {
    pub k: usize,
    pub r: usize,
    pub forward: usize,
    pub reverse: usize,
    pub masks: usize,
    pub next: usize,
}

// Of the record that begins at a place.
pub fn parts_at(book: &[u8], at: usize) -> Parts
    ensures { PartsAt book.now at result }
{
    // Past the end there is nothing: no command, and masks of 0.
    if book.len() <= at {
        return Parts {
            k: 0,
            r: 0,
            forward: 0,
            reverse: 0,
            masks: book.len(),
            next: 0,
        };
    }
    let k = octets::byte_at(book, at + 4) as usize;
    let r = octets::byte_at(book, at + 5) as usize;
    let forward = at + 6;
    let reverse = forward + k;
    let masks = reverse + r;
    let next = masks + 16;
    Parts {
        k,
        r,
        forward,
        reverse,
        masks,
        next,
    }
}

// The item's phi.
pub fn phi(book: &[u8], item: Parts) -> u64
    ensures { result ≡ (held_in book.now item).phi }
{
    octets::u64_at(book, item.masks)
}

// Its psi.
pub fn psi(book: &[u8], item: Parts) -> u64
    ensures { result ≡ (held_in book.now item).psi }
{
    if book.len() <= item.masks {
        return 0;
    }
    octets::u64_at(book, item.masks + 8)
}

// The items' records from a place on, one after the other: the place of each, and its parts.
#[derive(Drop)]
pub struct ItemRecords<'a> {
    book: &'a [u8],
    at: usize,
}

impl<'a> Iterator for ItemRecords<'a> {
    type Item = (usize, Parts);

    ghost next_gives = { λ s r t. ItemComes s.book.now s.at r t.book.now t.at };

    ghost remaining = { λ s. at_most (length s.book.now - s.at) };

    #[inline(always)]
    fn next(&mut self) -> Option<(usize, Parts)> {
        let at = self.at;
        if self.book.len() <= at {
            return None;
        }
        let item = parts_at(self.book, at);
        self.at = item.next;
        Some((at, item))
    }
}

// Those of a book from the record at a place on.
pub fn records(book: &[u8], at: usize) -> ItemRecords
    ensures book { result.book.now ≡ book.now }
    ensures begins { result.at ≡ at }
{
    ItemRecords { book, at }
}

// The weight of a command: its two bytes in the record after the device, 1 where no record of weights stands there.
#[tactic(auto, using(crate::proofs::Weights::no_weights, crate::proofs::Weights::some_weights))]
pub fn weight_at(book: &[u8], command: u8) -> u64
    ensures weight_at { WeightAt book.now command result }
    ensures upper_bound { result < 65536 }
{
    if octets::u16_at(book, 8) != WEIGHTS_KIND {
        return 1;
    }
    octets::u16_at(book, 10 + 2 * command as usize)
}

// Where the first move's record begins, or the first item's where there is no move: past the device and the weights.
#[tactic(auto, using(crate::proofs::Weights::no_record, crate::proofs::Weights::some_record))]
pub fn first_move(book: &[u8]) -> usize
    ensures first_move { FirstMove book.now result }
    ensures upper_bound { result ≤ 65545 }
{
    if octets::u16_at(book, 8) != WEIGHTS_KIND {
        return 6;
    }
    10 + octets::u16_at(book, 6) as usize
}

// The kind of the record that begins at a place, whose first four bytes are there: no test of the length.
fn kind_at(book: &[u8], at: usize) -> u64
    requires { at + 4 ≤ length book.now }
    ensures { result ≡ le_at 2 book.now (at + 2) }
{
    let low = book[at + 2] as u64;
    let high = book[at + 3] as u64;
    low + 256 * high
}

// The moves' records, one after the other: the place of each. `at` is where the next record begins, of a move or not.
#[derive(Drop)]
pub struct MoveRecords<'a> {
    book: &'a [u8],
    pub at: usize,
    ghost in_book: { at ≤ length book.now },
}

impl<'a> Iterator for MoveRecords<'a> {
    type Item = usize;

    ghost next_gives = { λ s r t. MoveComes s.book.now s.at r t.book.now t.at };

    ghost remaining = { λ s. at_most (length s.book.now - s.at) };

    #[inline(always)]
    fn next(&mut self) -> Option<usize> {
        let at = self.at;
        if self.book.len() - at < MOVE_LEN || kind_at(self.book, at) != MOVE_KIND {
            return None;
        }
        self.at += MOVE_LEN;
        Some(at)
    }
}

// Those of a book. No record of a move lies past the end.
pub fn move_records(book: &[u8]) -> MoveRecords
    ensures book { result.book.now ≡ book.now }
    ensures first_move { FirstMove book.now result.at }
{
    let at = first_move(book).min(book.len());
    MoveRecords { book, at }
}

// Where the first item's record begins, or the end where there is no item: past the moves.
pub fn first_item(book: &[u8]) -> usize
    ensures { FirstItem book.now result }
{
    let mut moves = move_records(book);
    while let Some(_) = moves.next() {}
    moves.at
}

// Where each item's record begins, 0 from the number of items on. No book is so long that a place would take more than two bytes.
pub fn places(book: &[u8]) -> [u16; 64]
    ensures { Placed book.now result }
{
    let mut places = [0u16; 64];
    if 65535 < book.len() {
        return places;
    }
    for (i, (at, _)) in records(book, first_item(book)).take(64).enumerate() {
        places[i] = at as u16;
    }
    places
}
