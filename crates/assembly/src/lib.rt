// Assembling a roll-back plan for a run from the items of a book.
#![tactic(auto)]

ghost use Rattle.std.specs.Prelude.{◌≡◌, Ok};
ghost use Rattle.book.specs.Faults.{code_of};
ghost use Rattle.book.specs.Lent.{lent};
ghost use Rattle.checker.specs.Contract.{checking_by};
ghost use Rattle.assembly.specs.Asked.{asked};
ghost use Rattle.assembly.specs.Lent.{in_bytes, lent_room, all_lent};
ghost use Rattle.assembly.specs.Assembles.{refusal};
ghost use Rattle.assembly.specs.Contract.{AssembleAs, Lending, PlannedAs, SmallAs};

use book::{Fault, FaultAt};
use chains::write_chain;
use checker::Counts;
use points::beliefs::beliefs;
use points::points_of;
use states::{Moved, Outcomes, Tabled};

// The bytes of a lent plan, and of lent legs; the masks of a lent scratch.
pub const PLAN_LEN: usize = 256;

pub const LEGS_LEN: usize = 96;

pub const SCRATCH_LEN: usize = 64;

// The number of a point that has no chain.
const NONE: u32 = 4294967295;

// What assembling answers: the code and its place; the numbers of commands and legs and the sum of the commands' weights, each 0 on a refusal; the
// least sum for each of the 33 points, 4,294,967,295 where there is no chain.
#[repr(C)]
#[derive(Clone, Copy)]
pub struct Assembly {
    pub code: u64,
    pub place: u64,
    pub commands: u64,
    pub legs: u64,
    pub sum: u64,
    pub fewest: [u32; 33],
}

// A refusal, whose counts and sum are 0 and whose numbers are all 4,294,967,295.
pub fn refused(code: u64, place: u64) -> Assembly
    ensures { result ≡ refusal code place }
{
    Assembly {
        code,
        place,
        commands: 0,
        legs: 0,
        sum: 0,
        fewest: [NONE; 33],
    }
}

// The answer to a fault.
impl From<FaultAt> for Assembly {
    ghost from_gives = { λ at r. r ≡ refusal (code_of at.fault) at.place };

    fn from(at: FaultAt) -> Assembly {
        refused(at.fault.into(), at.place)
    }
}

// Assembles with a book that was accepted: the outcomes are looked up in a device, the items in their records.
#[inline(always)]
fn planned<D: Outcomes>(
    book: &[u8],
    run: &[u8],
    device: &D,
    weights: &[u16],
    found: Counts,
    plan: &mut [u8],
    legs: &mut [u8],
) -> Assembly
    requires { Lending book.now (D.device device.now) weights.now (checking_by (Ok found)) }
    ensures { PlannedAs in_bytes (asked book.now run.now) (lent_room plan.old legs.old) result
        (lent_room plan.new legs.new) }
{
    if !runs::run_fine(run, found.n, found.m) {
        return Fault::WrongRun.at(0).into();
    }
    let mut sets = [0u64; 33];
    beliefs(run, device, &mut sets);
    if sets[0] == 0 {
        return Fault::NoHistory.at(0).into();
    }
    let i = runs::last_point(run);
    let places = items::places(book);
    let points = points_of(book, &places, weights, found.items, run, &sets, i);
    let sum = points.fewest[i as usize];
    if sum == NONE {
        return Assembly {
            code: Fault::NoChain.into(),
            place: 0,
            commands: 0,
            legs: 0,
            sum: 0,
            fewest: points.fewest,
        };
    }
    let counts = write_chain(book, &places, &points.items, i, plan, legs);
    Assembly {
        code: 0,
        place: 0,
        commands: counts.commands,
        legs: counts.legs,
        sum: u64::from(sum),
        fewest: points.fewest,
    }
}

// Checks the book, and writes the plan and the legs of the chain from the run's last point with the least sum.
pub fn assemble(
    book: &[u8],
    run: &[u8],
    table: &mut [u64],
    slots: &mut [u8],
    weights: &mut [u16],
    plan: &mut [u8],
    legs: &mut [u8],
) -> Assembly
    ensures { AssembleAs in_bytes (asked book.now run.now)
        (all_lent (lent table.old slots.old weights.old) plan.old legs.old) result
        (all_lent (lent table.new slots.new weights.new) plan.new legs.new) }
{
    if plan.len() < PLAN_LEN || legs.len() < LEGS_LEN {
        return Fault::ShortBuffer.at(0).into();
    }
    match checker::check_into(book, table, slots, weights) {
        Ok(found) => {
            let device = Tabled {
                table,
                n: found.n,
                m: found.m,
            };
            planned(book, run, &device, weights, found, plan, legs)
        }
        Err(rejected) => rejected.at.into(),
    }
}

// The same with a scratch of at least 64 masks in place of table, slots and weights: it holds the index of the book's moves. No local array has over 64
// elements.
pub fn assemble_small(
    book: &[u8],
    run: &[u8],
    scratch: &mut [u64],
    plan: &mut [u8],
    legs: &mut [u8],
) -> Assembly
    ensures { SmallAs (asked book.now run.now) scratch.old (lent_room plan.old legs.old) result
        scratch.new (lent_room plan.new legs.new) }
{
    if plan.len() < PLAN_LEN || legs.len() < LEGS_LEN || scratch.len() < SCRATCH_LEN {
        return Fault::ShortBuffer.at(0).into();
    }
    match checker::check_in_scratch(book, scratch) {
        Ok(found) => {
            let mut weights = [0u16; book::WEIGHTS_LEN];
            reader::fill_weights(book, &mut weights);
            let device = Moved {
                book,
                index: scratch,
                n: found.n,
                m: found.m,
            };
            planned(book, run, &device, &weights, found, plan, legs)
        }
        Err(rejected) => rejected.at.into(),
    }
}
