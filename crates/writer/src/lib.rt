// Writing: the book that a table, slots and weights hold (01, "Writing"; 02, request 5). All is judged first; then one pass writes.
#![tactic(auto)]

mod checks;
mod records;

ghost use Rattle.std.specs.Prelude.{◌≡◌};
ghost use Rattle.book.specs.Faults.{code_of};
ghost use Rattle.book.specs.Lent.{lent};
ghost use Rattle.writer.specs.Writes.{refusal};
ghost use Rattle.writer.specs.Contract.{judgement, WriteAs};

use book::{Fault, FaultAt};
use checks::{judge_entries, judge_slots, judge_weights};
use records::put_book;

// The bytes that the lent output must hold: those of the largest book that writing writes.
pub const OUT_LEN: usize = 31178;

// What writing answers: code and place, and the book's length, 0 on a refusal.
#[repr(C)]
#[derive(Drop)]
pub struct Writing {
    pub code: u64,
    pub place: u64,
    pub length: u64,
}

// A refusal, whose length is 0.
impl From<FaultAt> for Writing {
    ghost from_gives = { λ fault writing. writing ≡ refusal (code_of fault.fault) fault.place };

    fn from(fault: FaultAt) -> Writing {
        Writing {
            code: fault.fault.into(),
            place: fault.place,
            length: 0,
        }
    }
}

// Why there is no book in these buffers, if so: the first fault, in the order of 01 and 02, and its place.
fn judge(
    n: u64,
    m: u64,
    items: u64,
    table: &[u64],
    slots: &[u8],
    weights: &[u16],
    out: &[u8],
) -> Result<(), FaultAt>
    ensures { result ≡ judgement n m items (lent table.now slots.now weights.now) out.now }
{
    if table.len() < book::TABLE_LEN
        || slots.len() < book::SLOTS_LEN
        || weights.len() < book::WEIGHTS_LEN
        || out.len() < OUT_LEN
    {
        return Err(Fault::ShortBuffer.at(0));
    }
    if !limits::device_fine(n, m) {
        return Err(Fault::OutOfRange.at(0));
    }
    if 64 < items {
        return Err(Fault::TooManyItems.at(0));
    }
    let cells = (n * m) as usize;
    judge_weights(m as usize, weights)?;
    judge_entries(n, cells, table)?;
    judge_slots(n, m, items as usize, slots)
}

// Writes the book at the start of `out`, or answers why there is none and leaves `out` as it was.
pub fn write(
    n: u64,
    m: u64,
    items: u64,
    table: &[u64],
    slots: &[u8],
    weights: &[u16],
    out: &mut [u8],
) -> Writing
    ensures { WriteAs n m items (lent table.now slots.now weights.now) out.old result
        out.new }
{
    if let Err(fault) = judge(n, m, items, table, slots, weights, out) {
        return fault.into();
    }
    let length = put_book(n, m, items as usize, table, slots, weights, out);
    Writing {
        code: 0,
        place: 0,
        length: length as u64,
    }
}
