// The outcomes of a state and a command, looked up in a book's own moves: an index with one row for each state, filled in one pass over the moves,
// gives the place of each outcome mask in constant time.
//
// A row has in its lowest 16 bits the place of the outcome mask of the state's first move, and from bit 16 on the set of its moves' commands: bit
// 16 + c is 1 where the state has a move for command c.
#![tactic(auto)]

ghost use Rattle.std.specs.Prelude.{◌≡◌, ◌+◌, ◌<◌, ◌≤◌, length};
ghost use Rattle.base.specs.Cardinality.{cardinality};
ghost use Rattle.book.specs.Buffers.{zeroed};
ghost use Rattle.moves.specs.Moves.{moved_to, with_move, move_added, Indexed};

// Sets the first n masks to 0, as far as there are any.
pub fn clear(masks: &mut [u64], n: usize)
    ensures { masks.new ≡ zeroed n masks.old }
{
    let end = n.min(masks.len());
    masks[..end].fill(0);
}

// A row with the command of a move whose outcome mask stands at a place: the place is put in where the row has no command yet.
fn with_move(row: u64, place: u64, command: u64) -> u64
    requires { command < 32 }
    ensures { result ≡ with_move row place command }
{
    let begun = if row < 65536 { place } else { row };
    begun | 1 << (16 + command)
}

// The move whose record begins at a place, in its state's row. No book has a command from 32 on or a state from 64 on; the tests are for any bytes.
fn add_move(book: &[u8], at: usize, masks: &mut [u64])
    requires { (at + 2 < length book.now) × (64 ≤ length masks.old) }
    ensures { masks.new ≡ move_added book.now at masks.old }
{
    let state = octets::byte_at(book, at + 4) as usize;
    let command = octets::byte_at(book, at + 5);
    if command < 32 && state < 64 {
        masks[state] = with_move(masks[state], (at + 6) as u64, command);
    }
}

// Fills the first 64 masks with the rows of an allowed book's states; the others stay, and so do fewer than 64. Other bytes leave something or other
// in the 64.
pub fn index(book: &[u8], masks: &mut [u64])
    ensures { Indexed book.now masks.old masks.new }
{
    if masks.len() < 64 {
        return;
    }
    clear(masks, 64);
    for at in items::move_records(book) {
        add_move(book, at, masks);
    }
}

// How many members of a set are below n.
fn count_below(set: u64, n: u64) -> u64
    requires { n < 64 }
    ensures value { result ≡ cardinality n set }
    ensures upper_bound { result ≤ 64 }
{
    let all = (1 << n) - 1;
    let below = set & all;
    if below == all {
        return n;
    }
    u64::from(below.count_ones())
}

// The outcomes of a command by a state's row; 0 where the row does not have the command.
pub fn outcomes(book: &[u8], row: u64, command: u64) -> u64
    ensures { result ≡ moved_to book.now row command }
{
    if 48 <= command || (row >> (16 + command)) & 1 != 1 {
        return 0;
    }
    let before = count_below(row >> 16, command);
    octets::whole_at(book, (row % 65536 + 14 * before) as usize)
}
