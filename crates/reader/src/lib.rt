// Reading a book into a lent table, lent slots and lent weights.
#![tactic(auto)]

mod fill;
mod passing;
mod reached;
mod scan;
mod steps;
mod units;

ghost use Rattle.std.specs.Prelude.{◌≡◌, true, IfOk};
ghost use Rattle.book.specs.Faults.{code_of};
ghost use Rattle.book.specs.Parse.{cut, at_start};
ghost use Rattle.book.specs.Parse as parse;
ghost use Rattle.book.specs.Lent.{lent};
ghost use Rattle.reader.specs.Judged.{Limits};
ghost use Rattle.reader.specs.Summing.{ended, SummedUp};
ghost use Rattle.reader.specs.Filling.{TableFilled, SlotsFilled, WeightsFilled};
ghost use Rattle.reader.specs.Reads.{refusal};
ghost use Rattle.reader.specs.Contract.{reading_at, reading_by, ReadingOf, ReadInto, ReadAs};

use book::{Fault, FaultAt, Phase, State};
use reached::Reached;
use units::Tally;

// What reading answers: the code and its place; n, m and the number of items, each 0 on a refusal.
#[repr(C)]
#[derive(Clone, Copy, Debug, PartialEq, Eq)]
pub struct Reading {
    pub code: u64,
    pub place: u64,
    pub n: u64,
    pub m: u64,
    pub items: u64,
}

// What judging gives of a book without a fault: where reading is at its end, the units of the items and the longest reverse among them.
#[derive(Clone, Copy)]
pub struct Sums {
    pub end: State,
    pub units: u64,
    pub longest: u64,
}

// The pass over a book's records: judges its bytes and, where this is asked for, sums up its items.
fn pass(book: &[u8], summing: bool) -> Result<Sums, FaultAt>
    ensures judged { ended result ≡ parse.scan (cut book.now) 0 at_start }
    ensures bounded { IfOk (ended result) Limits }
    ensures summed_up { summing ≡ true → SummedUp book.now result }
{
    let mut here = Reached {
        st: State {
            phase: Phase::AtStart,
            n: 0,
            m: 0,
            low: 0,
            items: 0,
        },
        at: 0,
    };
    let mut tally = Tally {
        count: 0,
        units: 0,
        longest: 0,
    };
    loop {
        here = passing::past_moves(book, here);
        match scan::turn_at(book, here) {
            Ok(Some(next)) => {
                tally = units::with_record(book, here.at, tally, summing);
                here = next;
            }
            Ok(None) => {
                return Ok(Sums {
                    end: here.st,
                    units: tally.units,
                    longest: tally.longest,
                });
            }
            Err(fault) => {
                return Err(fault.at(here.at as u64));
            }
        }
    }
}

// Judges the bytes of a book and sums up its items in the same pass.
pub fn sum_up(book: &[u8]) -> Result<Sums, FaultAt>
    ensures { SummedUp book.now result }
{
    pass(book, true)
}

// Judges the bytes of a book with no buffer lent: the first fault, or where reading is at its end.
pub fn judge(book: &[u8]) -> Result<State, FaultAt>
    ensures value { result ≡ parse.scan (cut book.now) 0 at_start }
    ensures bounded { IfOk result Limits }
{
    Ok(pass(book, false)?.end)
}

// Fills the table from the bytes of an allowed book; gives the place of its first item. Other bytes leave something or other in it.
pub fn fill_table(book: &[u8], table: &mut [u64]) -> usize
    ensures { TableFilled book.now table.old table.new result }
{
    let n = octets::byte_at(book, 4);
    let m = octets::byte_at(book, 5);
    moves::clear(table, (n * m) as usize);
    let mut moves = items::move_records(book);
    while let Some(at) = moves.next() {
        fill::put_move(book, at, m, table);
    }
    moves.at
}

// Fills the slots from the bytes of an allowed book whose first item is at a place.
pub fn fill_slots(book: &[u8], first: usize, slots: &mut [u8])
    ensures { SlotsFilled book.now first slots.old slots.new }
{
    for (i, (_, item)) in items::records(book, first).take(64).enumerate() {
        slots::fill_from(book, item, slots, i as u8);
    }
}

// Fills the weights from the bytes of an allowed book, one for each command.
pub fn fill_weights(book: &[u8], weights: &mut [u16])
    ensures { WeightsFilled book.now weights.old weights.new }
{
    let m = octets::byte_at(book, 5) as usize;
    for command in 0..m.min(weights.len()) {
        weights[command] = items::weight_at(book, command as u8) as u16;
    }
}

// A refusal, whose counts are 0.
pub fn refused(code: u64, place: u64) -> Reading
    ensures { result ≡ refusal code place }
{
    Reading {
        code,
        place,
        n: 0,
        m: 0,
        items: 0,
    }
}

impl From<FaultAt> for Reading {
    ghost from_gives = { λ fault reading. reading ≡ refusal (code_of fault.fault) fault.place };

    fn from(fault: FaultAt) -> Reading {
        refused(fault.fault.into(), fault.place)
    }
}

impl From<State> for Reading {
    ghost from_gives = { λ end reading. reading ≡ reading_at end };

    fn from(end: State) -> Reading {
        Reading {
            code: 0,
            place: 0,
            n: end.n,
            m: end.m,
            items: end.items,
        }
    }
}

impl From<Result<State, FaultAt>> for Reading {
    ghost from_gives = { λ judged reading. reading ≡ reading_by judged };

    fn from(judged: Result<State, FaultAt>) -> Reading {
        match judged {
            Ok(end) => end.into(),
            Err(fault) => fault.into(),
        }
    }
}

// What reading answers where the lent buffers are long enough; nothing is filled.
pub fn reading_of(book: &[u8]) -> Reading
    ensures { ReadingOf book.now result }
{
    judge(book).into()
}

// Reads a book into a table of at least 2,048 entries, slots of at least 2,176 bytes and at least 32 weights: the first fault, or where reading is at
// its end. Nothing is filled before the last record is judged.
pub fn read_into(
    book: &[u8],
    table: &mut [u64],
    slots: &mut [u8],
    weights: &mut [u16],
) -> Result<State, FaultAt>
    ensures { ReadInto book.now (lent table.old slots.old weights.old) result (lent table.new slots.new weights.new) }
{
    if table.len() < book::TABLE_LEN
        || slots.len() < book::SLOTS_LEN
        || weights.len() < book::WEIGHTS_LEN
    {
        return Err(Fault::ShortBuffer.at(0));
    }
    let end = judge(book)?;
    let first = fill_table(book, table);
    fill_slots(book, first, slots);
    fill_weights(book, weights);
    Ok(end)
}

// The same, as C is answered.
pub fn read(book: &[u8], table: &mut [u64], slots: &mut [u8], weights: &mut [u16]) -> Reading
    ensures { ReadAs book.now (lent table.old slots.old weights.old) result
        (lent table.new slots.new weights.new) }
{
    read_into(book, table, slots, weights).into()
}
