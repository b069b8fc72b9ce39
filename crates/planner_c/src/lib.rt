// The exports for C and Rust: the calls of `planner` by the names and the order that include/rollback.h has, with the same promises. A static library
// exports its own functions alone, and no crate can stand on one: so each call is here once more, and passes on.
#![tactic(auto)]

ghost use Rattle.std.specs.Prelude.{◌≡◌};
ghost use Rattle.book.specs.Lent.{lent};
ghost use Rattle.reader.specs.Contract.{ReadAs};
ghost use Rattle.checker.specs.Contract.{CheckAs};
ghost use Rattle.forecast.specs.Contract.{ForecastAs};
ghost use Rattle.finder.specs.Finds.{sought};
ghost use Rattle.finder.specs.Contract.{FindAs};
ghost use Rattle.writer.specs.Contract.{WriteAs};
ghost use Rattle.assembly.specs.Asked.{asked};
ghost use Rattle.assembly.specs.Contract.{AssembleAs, SmallAs};
ghost use Rattle.assembly.specs.Lent.{in_bytes, lent_room, all_lent};
ghost use Rattle.paper.specs.Contract.{PageAs};
ghost use Rattle.planner.specs.Structs.{in_structs};
ghost use Rattle.ridge.specs.Computed.{ridge_lookup};
ghost use Rattle.portable.specs.Computed.{portable_lookup};

use assembly::Assembly;
use checker::Checking;
use finder::Found;
use forecast::Forecasted;
use lookups::LookupResult;
use paper::Paged;
use planner::Leg;
use reader::Reading;
use writer::Writing;

#[unsafe(no_mangle)]
pub extern "C" fn rollback_read(
    book: &[u8],
    table: &mut [u64],
    slots: &mut [u8],
    weights: &mut [u16],
) -> Reading
    ensures { ReadAs book.now (lent table.old slots.old weights.old) result
        (lent table.new slots.new weights.new) }
{
    planner::rollback_read(book, table, slots, weights)
}

#[unsafe(no_mangle)]
pub extern "C" fn rollback_check(
    book: &[u8],
    table: &mut [u64],
    slots: &mut [u8],
    weights: &mut [u16],
) -> Checking
    ensures { CheckAs book.now (lent table.old slots.old weights.old) result
        (lent table.new slots.new weights.new) }
{
    planner::rollback_check(book, table, slots, weights)
}

#[unsafe(no_mangle)]
pub extern "C" fn rollback_forecast(book: &[u8], i: u64) -> Forecasted
    ensures { ForecastAs book.now i result }
{
    planner::rollback_forecast(book, i)
}

#[unsafe(no_mangle)]
pub extern "C" fn rollback_find(
    book: &[u8],
    forward: &[u8],
    phi: u64,
    psi: u64,
    table: &mut [u64],
) -> Found
    ensures { FindAs book.now (sought forward.now phi psi) table.old result table.new }
{
    planner::rollback_find(book, forward, phi, psi, table)
}

#[unsafe(no_mangle)]
pub extern "C" fn rollback_assemble(
    book: &[u8],
    run: &[u8],
    table: &mut [u64],
    slots: &mut [u8],
    weights: &mut [u16],
    plan: &mut [u8],
    legs: &mut [u8],
) -> Assembly
    ensures { AssembleAs in_bytes (asked book.now run.now)
        (all_lent (lent table.old slots.old weights.old) plan.old legs.old) result
        (all_lent (lent table.new slots.new weights.new) plan.new legs.new) }
{
    planner::rollback_assemble(book, run, table, slots, weights, plan, legs)
}

#[unsafe(no_mangle)]
pub extern "C" fn rollback_assemble_small(
    book: &[u8],
    run: &[u8],
    scratch: &mut [u64],
    plan: &mut [u8],
    legs: &mut [u8],
) -> Assembly
    ensures { SmallAs (asked book.now run.now) scratch.old (lent_room plan.old legs.old) result
        scratch.new (lent_room plan.new legs.new) }
{
    planner::rollback_assemble_small(book, run, scratch, plan, legs)
}

#[unsafe(no_mangle)]
pub extern "C" fn rollback_page(
    book: &[u8],
    run: &[u8],
    table: &mut [u64],
    slots: &mut [u8],
    weights: &mut [u16],
    plan: &mut [u8],
    legs: &mut [u8],
    page: &mut [u8],
) -> Paged
    ensures { PageAs (asked book.now run.now)
        (all_lent (lent table.old slots.old weights.old) plan.old legs.old) page.old result
        (all_lent (lent table.new slots.new weights.new) plan.new legs.new) page.new }
{
    planner::rollback_page(book, run, table, slots, weights, plan, legs, page)
}

#[unsafe(no_mangle)]
pub extern "C" fn rollback_write(
    n: u64,
    m: u64,
    items: u64,
    table: &[u64],
    slots: &[u8],
    weights: &[u16],
    out: &mut [u8],
) -> Writing
    ensures { WriteAs n m items (lent table.now slots.now weights.now) out.old result out.new }
{
    planner::rollback_write(n, m, items, table, slots, weights, out)
}

#[unsafe(no_mangle)]
pub extern "C" fn rollback_ridge(state: u64, command: u64) -> LookupResult
    ensures { result ≡ ridge_lookup state command }
{
    planner::rollback_ridge(state, command)
}

#[unsafe(no_mangle)]
pub extern "C" fn rollback_portable(state: u64, command: u64) -> LookupResult
    ensures { result ≡ portable_lookup state command }
{
    planner::rollback_portable(state, command)
}

// Assembling with the legs as structs: at least 32 are lent, and those past the count keep what they held.
#[unsafe(no_mangle)]
pub extern "C" fn rollback_assemble_legs(
    book: &[u8],
    run: &[u8],
    table: &mut [u64],
    slots: &mut [u8],
    weights: &mut [u16],
    plan: &mut [u8],
    legs: &mut [Leg],
) -> Assembly
    ensures { AssembleAs in_structs (asked book.now run.now)
        (all_lent (lent table.old slots.old weights.old) plan.old legs.old) result
        (all_lent (lent table.new slots.new weights.new) plan.new legs.new) }
{
    planner::rollback_assemble_legs(book, run, table, slots, weights, plan, legs)
}
