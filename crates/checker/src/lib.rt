// Checking a book: reading it, and judging its items one by one, with the units that this takes.
#![tactic(auto)]

ghost use Rattle.std.specs.Prelude.{◌≡◌, ◌≤◌};
ghost use Rattle.octets.specs.Le.{bytes_le};
ghost use Rattle.book.specs.Book.{WellFormed};
ghost use Rattle.book.specs.Lent.{lent};
ghost use Rattle.checker.specs.Reasons.{fault_of};
ghost use Rattle.checker.specs.TableChecks.{answer_of};
ghost use Rattle.checker.specs.Contract.{unread, checking_by, back_of, returns_in, wrong_for, JudgedAs, BookJudged, CheckAs, CheckSmallAs, CheckInTableAs, CheckTableAs};

use book::{Fault, FaultAt};
use states::{Moved, Outcomes, StateSet, Tabled};

// Why an item is not accepted.
#[derive(Clone, Copy, Debug, PartialEq, Eq)]
pub enum Reason {
    // It is no conditional reverse plan.
    NoReversePlan,
    // It is one, but no start in psi has an end in phi: it can never be used.
    NotEffective,
}

impl From<Reason> for Fault {
    ghost from_gives = { λ why fault. fault ≡ fault_of why };

    fn from(why: Reason) -> Fault {
        match why {
            Reason::NoReversePlan => Fault::NoReversePlan,
            Reason::NotEffective => Fault::NotEffective,
        }
    }
}

// Why a book is not accepted: the fault of its bytes or of its first wrong item, and its place; the units made, 0 where no item was judged.
#[derive(Clone, Copy, Debug, PartialEq, Eq)]
pub struct Rejected {
    pub at: FaultAt,
    pub units: u64,
}

impl From<FaultAt> for Rejected {
    ghost from_gives = { λ at rejected. rejected ≡ unread at };

    fn from(at: FaultAt) -> Rejected {
        Rejected { at, units: 0 }
    }
}

impl From<Rejected> for FaultAt {
    ghost from_gives = { λ rejected at. at ≡ rejected.at };

    fn from(rejected: Rejected) -> FaultAt {
        rejected.at
    }
}

// What an accepted book has: the numbers of its states, commands and items; and the units made.
#[derive(Clone, Copy, Debug, PartialEq, Eq)]
pub struct Counts {
    pub n: u64,
    pub m: u64,
    pub items: u64,
    pub units: u64,
}

// What checking answers: the code and its place; n, m and the number of items, each 0 on a refusal; the units made, 0 where no item was judged.
#[repr(C)]
#[derive(Drop)]
pub struct Checking {
    pub code: u64,
    pub place: u64,
    pub n: u64,
    pub m: u64,
    pub items: u64,
    pub units: u64,
}

impl From<Result<Counts, Rejected>> for Checking {
    ghost from_gives = { λ checked checking. checking ≡ checking_by checked };

    fn from(checked: Result<Counts, Rejected>) -> Checking {
        match checked {
            Ok(Counts { n, m, items, units }) => Checking {
                code: 0,
                place: 0,
                n,
                m,
                items,
                units,
            },
            Err(Rejected { at, units }) => Checking {
                code: at.fault.into(),
                place: at.place,
                n: 0,
                m: 0,
                items: 0,
                units,
            },
        }
    }
}

// What checking with a table as the only buffer answers: the code and its place; n and m, each 0 on a refusal.
#[derive(Drop)]
pub struct TableChecking {
    pub code: u64,
    pub place: u64,
    pub n: u64,
    pub m: u64,
}

impl From<Result<Counts, Rejected>> for TableChecking {
    ghost from_gives = { λ checked checking. checking ≡ answer_of (checking_by checked) };

    fn from(checked: Result<Counts, Rejected>) -> TableChecking {
        let Checking {
            code,
            place,
            n,
            m,
            ..
        } = checked.into();
        TableChecking { code, place, n, m }
    }
}

// A reverse run of the `left` commands that are the lowest bytes of `rest`: no command left and the goal alone in the set, or a next command that every
// state of the set can carry out, with the rest run from the set after it. Where it doesn't arrive, the number of commands behind the one that couldn't
// be carried out.
fn runs_on<D: Outcomes>(
    set: StateSet,
    device: &D,
    rest: u64,
    left: usize,
    goal: u64,
) -> Result<(), usize>
    requires { ((D.device device.now).n ≤ 64) × ((D.device device.now).m ≤ 32) }
    ensures { result ≡ back_of (D.device device.now) set.mask (bytes_le left rest) goal }
{
    if left == 0 {
        return if set.is_only(goal) { Ok(()) } else { Err(0) };
    }
    let Some(next) = set.sent(device, rest % 256) else {
        return Err(left - 1);
    };
    runs_on(next, device, rest / 256, left - 1, goal)
}

// Whether a reverse run of the `left` commands that are the lowest bytes of `rest` arrives: from every state of the set they all can be carried out, and
// lead to the goal alone. Outside the limits of n and m no run does.
pub fn returns<D: Outcomes>(set: StateSet, device: &D, rest: u64, left: usize, goal: u64) -> bool
    ensures { result ≡ returns_in (D.device device.now) set.mask (bytes_le left rest) goal }
{
    states::in_limits(device) && runs_on(set, device, rest, left, goal).is_ok()
}

// Judges the items from the book's bytes: the units made, or the first item that is not accepted. For each start in psi, the ends in phi are run back
// together, and where there are none the empty set; an item is effective if some start is used, that is, has an end. The search is left as soon as one
// item fails. A start takes a unit for each of its commands that is applied: all of them, where it doesn't fail. The commands each way are read as one
// number, of which each turn takes the lowest byte.
fn judge_items<D: Outcomes>(book: &[u8], device: &D) -> Result<u64, Rejected>
    requires { ((D.device device.now).n ≤ 64) × ((D.device device.now).m ≤ 32) × WellFormed book.now }
    ensures { JudgedAs book.now (D.device device.now) result }
{
    let mut units = 0;
    'items: {
        for (at, item) in items::records(book, items::first_item(book)) {
            let phi = items::phi(book, item);
            let psi = items::psi(book, item);
            let forward = octets::u64_at(book, item.forward);
            let reverse = octets::u64_at(book, item.reverse);
            let mut used = false;
            for start in StateSet::of(psi).below(device.n()) {
                let mut ends = StateSet::of(0).add(start);
                let mut rest = forward;
                for j in 0..item.k {
                    ends = ends.after(device, rest % 256);
                    rest /= 256;
                }
                ends = ends.within(phi);
                let back = runs_on(ends, device, reverse, item.r, start);
                units += (item.k + item.r) as u64;
                if !ends.is_empty() {
                    used = true;
                    if let Err(behind) = back {
                        // The commands behind the one that couldn't be carried out were not applied.
                        break 'items Err(wrong(at, Reason::NoReversePlan, units - behind as u64));
                    }
                }
            }
            if !used {
                break 'items Err(wrong(at, Reason::NotEffective, units));
            }
        }
        Ok(units)
    }
}

// The refusal for a wrong item whose record begins at a place.
fn wrong(at: usize, why: Reason, units: u64) -> Rejected
    ensures { result ≡ wrong_for at why units }
{
    Rejected {
        at: Fault::from(why).at(at as u64),
        units,
    }
}

// Judges the items of a book that was read and has so many.
fn judge_book<D: Outcomes>(book: &[u8], device: &D, items: u64) -> Result<Counts, Rejected>
    requires { ((D.device device.now).n ≤ 64) × ((D.device device.now).m ≤ 32) × WellFormed book.now }
    ensures { BookJudged book.now (D.device device.now) items result }
{
    let units = judge_items(book, device)?;
    Ok(Counts {
        n: device.n(),
        m: device.m(),
        items,
        units,
    })
}

// Reads a book into the lent buffers, and judges each of its items: the first one that is not accepted, at the place of its record; the units made.
pub fn check_into(
    book: &[u8],
    table: &mut [u64],
    slots: &mut [u8],
    weights: &mut [u16],
) -> Result<Counts, Rejected>
    ensures { CheckAs book.now (lent table.old slots.old weights.old) (checking_by result)
        (lent table.new slots.new weights.new) }
{
    let end = reader::read_into(book, table, slots, weights)?;
    let device = Tabled {
        table,
        n: end.n,
        m: end.m,
    };
    judge_book(book, &device, end.items)
}

// The same with a scratch of at least 64 masks in place of the buffers. Where the book was read the scratch holds the index of its moves.
#[inline(never)]
pub fn check_in_scratch(book: &[u8], scratch: &mut [u64]) -> Result<Counts, Rejected>
    ensures { CheckSmallAs book.now scratch.old (checking_by result) scratch.new }
{
    let end = reader::judge(book)?;
    moves::index(book, scratch);
    let device = Moved {
        book,
        index: scratch,
        n: end.n,
        m: end.m,
    };
    judge_book(book, &device, end.items)
}

// The same with a table of at least 2,048 entries as the only buffer.
pub fn check_in_table(book: &[u8], table: &mut [u64]) -> Result<Counts, Rejected>
    ensures { CheckInTableAs book.now table.old (checking_by result) table.new }
{
    if table.len() < book::TABLE_LEN {
        return Err(Fault::ShortBuffer.at(0).into());
    }
    let end = reader::judge(book)?;
    reader::fill_table(book, table);
    let device = Tabled {
        table,
        n: end.n,
        m: end.m,
    };
    judge_book(book, &device, end.items)
}

// Each of the three with its answer in one struct: of a book that is not accepted, the code of its fault or of its first wrong item, and the place.
pub fn check(book: &[u8], table: &mut [u64], slots: &mut [u8], weights: &mut [u16]) -> Checking
    ensures { CheckAs book.now (lent table.old slots.old weights.old) result
        (lent table.new slots.new weights.new) }
{
    check_into(book, table, slots, weights).into()
}

pub fn check_small(book: &[u8], scratch: &mut [u64]) -> Checking
    ensures { CheckSmallAs book.now scratch.old result scratch.new }
{
    check_in_scratch(book, scratch).into()
}

pub fn check_table(book: &[u8], table: &mut [u64]) -> TableChecking
    ensures { CheckTableAs book.now table.old result table.new }
{
    check_in_table(book, table).into()
}
