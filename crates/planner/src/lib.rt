// The calls for C and Rust: the public calls by the names and the order that include/rollback.h has. Each keeps the promise of the call that it passes
// on to. `planner_c` exports them.
#![tactic(auto)]

ghost use Rattle.std.specs.Prelude.{◌≡◌, ◌≤◌, length};
ghost use Rattle.std.proofs.lemmas.List.Edits.{sets};
ghost use Rattle.book.specs.Lent.{lent};
ghost use Rattle.reader.specs.Contract.{ReadAs};
ghost use Rattle.checker.specs.Contract.{CheckAs};
ghost use Rattle.forecast.specs.Contract.{ForecastAs};
ghost use Rattle.finder.specs.Finds.{sought};
ghost use Rattle.finder.specs.Contract.{FindAs};
ghost use Rattle.writer.specs.Contract.{WriteAs};
ghost use Rattle.assembly.specs.Asked.{asked};
ghost use Rattle.assembly.specs.Contract.{AssembleAs, SmallAs};
ghost use Rattle.assembly.specs.Lent.{in_bytes, lent_room, all_lent};
ghost use Rattle.paper.specs.Contract.{PageAs};
ghost use Rattle.planner.specs.Structs.{in_structs};
ghost use Rattle.planner.specs.Whole.{structs_in};
ghost use Rattle.ridge.specs.Computed.{ridge_lookup};
ghost use Rattle.portable.specs.Computed.{portable_lookup};

use assembly::Assembly;
use book::Fault;
use checker::Checking;
use finder::Found;
use forecast::Forecasted;
use lookups::LookupResult;
use paper::Paged;
use reader::Reading;
use writer::Writing;

pub fn rollback_read(
    book: &[u8],
    table: &mut [u64],
    slots: &mut [u8],
    weights: &mut [u16],
) -> Reading
    ensures { ReadAs book.now (lent table.old slots.old weights.old) result
        (lent table.new slots.new weights.new) }
{
    reader::read(book, table, slots, weights)
}

pub fn rollback_check(
    book: &[u8],
    table: &mut [u64],
    slots: &mut [u8],
    weights: &mut [u16],
) -> Checking
    ensures { CheckAs book.now (lent table.old slots.old weights.old) result
        (lent table.new slots.new weights.new) }
{
    checker::check(book, table, slots, weights)
}

pub fn rollback_forecast(book: &[u8], i: u64) -> Forecasted
    ensures { ForecastAs book.now i result }
{
    forecast::forecast(book, i)
}

pub fn rollback_find(book: &[u8], forward: &[u8], phi: u64, psi: u64, table: &mut [u64]) -> Found
    ensures { FindAs book.now (sought forward.now phi psi) table.old result table.new }
{
    finder::find(book, forward, phi, psi, table)
}

pub fn rollback_assemble(
    book: &[u8],
    run: &[u8],
    table: &mut [u64],
    slots: &mut [u8],
    weights: &mut [u16],
    plan: &mut [u8],
    legs: &mut [u8],
) -> Assembly
    ensures { AssembleAs in_bytes (asked book.now run.now)
        (all_lent (lent table.old slots.old weights.old) plan.old legs.old) result
        (all_lent (lent table.new slots.new weights.new) plan.new legs.new) }
{
    assembly::assemble(book, run, table, slots, weights, plan, legs)
}

pub fn rollback_assemble_small(
    book: &[u8],
    run: &[u8],
    scratch: &mut [u64],
    plan: &mut [u8],
    legs: &mut [u8],
) -> Assembly
    ensures { SmallAs (asked book.now run.now) scratch.old (lent_room plan.old legs.old) result
        scratch.new (lent_room plan.new legs.new) }
{
    assembly::assemble_small(book, run, scratch, plan, legs)
}

pub fn rollback_page(
    book: &[u8],
    run: &[u8],
    table: &mut [u64],
    slots: &mut [u8],
    weights: &mut [u16],
    plan: &mut [u8],
    legs: &mut [u8],
    page: &mut [u8],
) -> Paged
    ensures { PageAs (asked book.now run.now)
        (all_lent (lent table.old slots.old weights.old) plan.old legs.old) page.old result
        (all_lent (lent table.new slots.new weights.new) plan.new legs.new) page.new }
{
    paper::lay_out(book, run, table, slots, weights, plan, legs, page)
}

pub fn rollback_write(
    n: u64,
    m: u64,
    items: u64,
    table: &[u64],
    slots: &[u8],
    weights: &[u16],
    out: &mut [u8],
) -> Writing
    ensures { WriteAs n m items (lent table.now slots.now weights.now) out.old result out.new }
{
    writer::write(n, m, items, table, slots, weights, out)
}

pub fn rollback_ridge(state: u64, command: u64) -> LookupResult
    ensures { result ≡ ridge_lookup state command }
{
    ridge::lookup(state, command)
}

pub fn rollback_portable(state: u64, command: u64) -> LookupResult
    ensures { result ≡ portable_lookup state command }
{
    portable::lookup(state, command)
}

// A leg: item number, upper point, lower point.
#[repr(C)]
#[derive(Clone, Copy, Debug, PartialEq, Eq)]
pub struct Leg {
    pub item: u8,
    pub upper: u8,
    pub lower: u8,
}

impl From<[u8; 3]> for Leg {
    ghost use Rattle.std.specs.Prelude.{◌≡◌, slice_index_or};

    ghost from_gives = { λ bytes leg. leg ≡ record { item = slice_index_or bytes 0 0; upper = slice_index_or bytes 1 0; lower = slice_index_or bytes 2 0 } };

    fn from(bytes: [u8; 3]) -> Leg {
        let [item, upper, lower] = bytes;
        Leg { item, upper, lower }
    }
}

// Writes the legs counted, each from three bytes.
fn fill_legs(legs: &mut [Leg], bytes: &[u8; assembly::LEGS_LEN], count: usize)
    requires { (count ≤ length legs.old) × (count ≤ 32) }
    ensures { legs.new ≡ sets legs.old 0 (structs_in bytes.now count 0) }
{
    for i in 0..count {
        legs[i] = Leg::from([bytes[3 * i], bytes[3 * i + 1], bytes[3 * i + 2]]);
    }
}

// Assembling with the legs as structs: at least 32 are lent, and those past the count keep what they held.
pub fn rollback_assemble_legs(
    book: &[u8],
    run: &[u8],
    table: &mut [u64],
    slots: &mut [u8],
    weights: &mut [u16],
    plan: &mut [u8],
    legs: &mut [Leg],
) -> Assembly
    ensures { AssembleAs in_structs (asked book.now run.now)
        (all_lent (lent table.old slots.old weights.old) plan.old legs.old) result
        (all_lent (lent table.new slots.new weights.new) plan.new legs.new) }
{
    if legs.len() < 32 {
        return Fault::ShortBuffer.at(0).into();
    }
    let mut bytes = [0u8; assembly::LEGS_LEN];
    let result = assembly::assemble(book, run, table, slots, weights, plan, &mut bytes);
    fill_legs(legs, &bytes, result.legs as usize);
    result
}
