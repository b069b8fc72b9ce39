// Finding the reverse for an item: of the rows of at most 3 commands that make an accepted item, the shortest, and among equals the one with lower
// commands first.
#![tactic(auto)]

ghost use Rattle.std.specs.Prelude.{◌≡◌, [], ◌∷◌, ◌++◌, ◌+◌, ◌*◌, ◌^◌, ◌≤◌, ◌<◌, eqb};
ghost use Rattle.base.specs.Sets.{NoBitFrom};
ghost use Rattle.base.specs.Tests.{both};
ghost use Rattle.base.specs.Cardinality.{member};
ghost use Rattle.octets.specs.Le.{bytes_le};
ghost use Rattle.reversal.specs.Computed.Sets.{ends, runs_back};
ghost use Rattle.states.specs.StateSets.{set_of};
ghost use Rattle.finder.specs.Finds.{sought};
ghost use Rattle.finder.specs.Contract.{holds, EndsKept, all_back, Passing, lowest_row, shortest_row, FindAs};

use book::{Fault, FaultAt};
use states::{StateSet, Tabled};
use std::marker::Model;

// The longest reverse that is looked for.
const MOST: usize = 3;

// What finding answers: the code and its place; the number of commands of the reverse, and these, each 0 where it is not used and on a refusal.
#[repr(C)]
#[derive(Drop)]
pub struct Found {
    pub code: u64,
    pub place: u64,
    pub count: u64,
    pub commands: [u8; 3],
}

// A row of commands as one number, the first of them its lowest byte.
#[derive(Clone, Copy)]
struct Row {
    count: usize,
    number: u64,
}

impl Row {
    // The row with one command more behind it.
    fn with(self, command: u64) -> Row
        requires room { self.count < 3 }
        requires below { self.number < 256 ^ self.count }
        requires byte { command < 32 }
        ensures count { result.count ≡ self.count + 1 }
        ensures number { result.number ≡ self.number + command * 256 ^ self.count }
    {
        Row {
            count: self.count + 1,
            number: self.number + (command << (8 * self.count)),
        }
    }
}

// Its commands, from the first on.
impl Iterator for Row {
    type Item = u64;

    ghost use Rattle.std.specs.Iterator.{YieldsFirst, item_count};
    ghost use Rattle.finder.specs.Searching.{commands_of};

    ghost next_gives = { YieldsFirst commands_of };

    ghost remaining = { item_count commands_of };

    fn next(&mut self) -> Option<u64> {
        if self.count == 0 {
            return None;
        }
        let command = self.number % 256;
        self.number /= 256;
        self.count -= 1;
        Some(command)
    }
}

// What finding answers C: the reverse that is found, or the code of the fault and its place.
impl From<Result<Row, FaultAt>> for Found {
    ghost use Rattle.finder.specs.Searching.{found_by};

    ghost from_gives = { λ row found. found ≡ found_by row };

    fn from(row: Result<Row, FaultAt>) -> Found {
        match row {
            Ok(Row { count, number }) => {
                let [first, second, third, ..] = number.to_le_bytes();
                Found {
                    code: 0,
                    place: 0,
                    count: count as u64,
                    commands: [first, second, third],
                }
            }
            Err(FaultAt { fault, place }) => Found {
                code: fault.into(),
                place,
                count: 0,
                commands: [0; 3],
            },
        }
    }
}

// What a reverse is sought for: the forward commands, phi and psi of the item.
#[derive(Drop)]
struct Sought<'a> {
    forward: &'a [u8],
    phi: u64,
    psi: u64,
}

impl<'a> Model for Sought<'a> {
    ghost use Rattle.finder.specs.Finds.{Sought as Asked, sought};

    ghost Value = { Asked };

    ghost view = { λ a. sought a.forward.now a.phi a.psi };
}

impl Sought<'_> {
    // Whether some item may hold it: one with no reverse command may, if any.
    #[tactic(auto, unfolding(crate::specs::Contract::holds, base::specs::Tests::pick))]
    fn may_be_held(&self, n: u64, m: u64) -> bool
        ensures { result ≡ holds n m self.now }
    {
        limits::counts_fine(self.forward.len() as u64, 0)
            && limits::fields_fine(self.forward, &[], self.phi, self.psi, n, m)
    }
}

// A device of at most 64 states and 32 commands, by its table.
#[derive(Clone, Copy)]
struct InLimits<'a> {
    device: Tabled<'a>,
    ghost states: { device.n ≤ 64 },
    ghost commands: { device.m ≤ 32 },
}

impl InLimits<'_> {
    ghost use Rattle.finder.specs.Searching.{lent, commands_of};

    // The ends in phi that the forward commands lead to from a start.
    fn ends_of(&self, start: u64, sought: &Sought) -> StateSet
        requires { start < 64 }
        ensures { result ≡ set_of (ends (lent self.now) sought.now.forward sought.now.phi start) }
    {
        let mut ends = StateSet::of(0).add(start);
        for command in sought.forward {
            ends = ends.after(&self.device, u64::from(*command));
        }
        ends.within(sought.phi)
    }

    // Stores the ends of each start in psi that has some, at the start's own number, and gives these starts. Each start's forward commands are run once.
    fn keep_ends(&self, sought: &Sought, ends: &mut [u64; 64]) -> StateSet
        ensures { EndsKept (lent self.now) sought.now ends.new result.mask }
    {
        let mut used = StateSet::of(0);
        for start in StateSet::of(sought.psi).below(self.device.n) {
            let set = self.ends_of(start, sought);
            if !set.is_empty() {
                ends[start as usize] = set.mask;
                used = used.add(start);
            }
        }
        used
    }

    // The commands that lead from the state to the goal alone, as a mask. `bit` is that of c: doubling it takes less time than a shift by c.
    fn only_to(&self, state: u64, goal: u64) -> u64
        ensures { Passing self.now.device.m (λ c. eqb ((lent self.now).outcomes state c) goal) result }
    {
        let mut found = 0;
        let mut bit = 1;
        for c in 0..self.device.m {
            if states::outcomes(&self.device, state, c) == goal {
                found |= bit;
            }
            bit *= 2;
        }
        found
    }

    // Of the commands, those that bring the set back to the start: there is a state in the set, and each leads to the start alone.
    fn last_from(&self, set: StateSet, start: u64, commands: u64) -> u64
        requires start { start < 64 }
        requires commands { NoBitFrom self.now.device.m commands }
        ensures { Passing self.now.device.m (λ c. both (member commands c)
            (runs_back (lent self.now) set.mask (c ∷ []) start)) result }
    {
        let goal = StateSet::of(0).add(start);
        let rest = set.below(self.device.n);
        if rest.is_empty() {
            return 0;
        }
        let mut left = commands;
        for state in rest {
            left &= self.only_to(state, goal.mask);
            if left == 0 {
                return 0;
            }
        }
        left
    }

    // Of the commands, those that, sent after a row, bring the set back to the start.
    fn last_behind(&self, set: StateSet, row: Row, start: u64, commands: u64) -> u64
        requires start { start < 64 }
        requires commands { NoBitFrom self.now.device.m commands }
        ensures { Passing self.now.device.m (λ c. both (member commands c)
            (runs_back (lent self.now) set.mask (commands_of row ++ (c ∷ [])) start)) result }
    {
        let mut at = set;
        for command in row {
            let Some(next) = at.sent(&self.device, command) else {
                return 0;
            };
            at = next;
        }
        self.last_from(at, start, commands)
    }
}

// What rows of commands are tried on: the starts of a device that are used, and the ends of each at its own number.
#[derive(Clone, Copy)]
struct Search<'a> {
    within: InLimits<'a>,
    ends: &'a [u64; 64],
    used: StateSet,
}

impl Search<'_> {
    ghost use Rattle.finder.specs.Searching.{lent, commands_of, found_with};

    // Whether the row brings every start that is used back from its ends.
    fn comes_back(&self, row: Row) -> bool
        ensures { result ≡ all_back (lent self.now.within) self.now.ends.now self.now.used.mask
            (commands_of row) }
    {
        let device = self.within.device;
        for start in self.used.below(device.n) {
            let set = StateSet::of(self.ends[start as usize]);
            if !checker::returns(set, &device, row.number, row.count, start) {
                return false;
            }
        }
        true
    }

    // The commands that, sent after a row, bring every start that is used back from its ends.
    fn last_commands(&self, row: Row) -> u64
        ensures { Passing self.now.within.device.m (λ c. all_back (lent self.now.within) self.now.ends.now self.now.used.mask
            (commands_of row ++ (c ∷ []))) result }
    {
        let device = self.within.device;
        let mut commands = (1 << device.m) - 1;
        for start in self.used.below(device.n) {
            let set = StateSet::of(self.ends[start as usize]);
            commands = self.within.last_behind(set, row, start, commands);
            if commands == 0 {
                return 0;
            }
        }
        commands
    }

    // Of the rows that begin with `row` and have `left` commands more, the lowest that brings all starts back: the next command goes from 0 up. Of the last
    // commands all that do so are found at once. `left` is 0 only for the row of no command.
    fn lowest_row(&self, row: Row, left: usize) -> Option<u64>
        requires short { row.count + left ≤ 3 }
        requires below { row.number < 256 ^ row.count }
        ensures { result ≡ lowest_row (λ number. all_back (lent self.now.within) self.now.ends.now self.now.used.mask
            (bytes_le (row.count + left) number)) self.now.within.device.m left (256 ^ row.count) row.number }
    {
        if left == 0 {
            return if self.comes_back(row) {
                Some(row.number)
            } else {
                None
            };
        }
        if left == 1 {
            let last = self.last_commands(row);
            if last == 0 {
                return None;
            }
            return Some(row.with(last.trailing_zeros() as u64).number);
        }
        for c in 0..self.within.device.m {
            if let Some(number) = self.lowest_row(row.with(c), left - 1) {
                return Some(number);
            }
        }
        None
    }

    // Rows of no command, of one, of two and of three, until one is found.
    fn shortest_row(&self) -> Option<Row>
        ensures { found_with result ≡ shortest_row (λ count number. all_back (lent self.now.within) self.now.ends.now self.now.used.mask
            (bytes_le count number)) self.now.within.device.m 0 4 }
    {
        for count in 0..=MOST {
            if let Some(number) = self.lowest_row(
                Row {
                    count: 0,
                    number: 0,
                },
                count,
            ) {
                return Some(Row { count, number });
            }
        }
        None
    }
}

impl Sought<'_> {
    ghost use Rattle.finder.specs.Searching.{found_by};

    // The row of the reverse, or why there is none. Where no start has an end no item is effective, whatever its reverse.
    fn row_in(&self, book: &[u8], table: &mut [u64]) -> Result<Row, FaultAt>
        ensures { FindAs book.now self.now table.old (found_by result) table.new }
    {
        let counts = checker::check_in_table(book, table)?;
        if !self.may_be_held(counts.n, counts.m) {
            return Err(Fault::NoItem.at(0));
        }
        let within = InLimits {
            device: Tabled {
                table,
                n: counts.n,
                m: counts.m,
            },
        };
        let mut ends = [0; 64];
        let used = within.keep_ends(self, &mut ends);
        if used.is_empty() {
            return Err(Fault::NoReverse.at(0));
        }
        let search = Search {
            within,
            ends: &ends,
            used,
        };
        search.shortest_row().ok_or(Fault::NoReverse.at(0))
    }
}

// Finds the reverse for an item with these forward commands and masks, in a book that is checked first, with a table of at least 2,048 entries as the
// only buffer.
pub fn find(book: &[u8], forward: &[u8], phi: u64, psi: u64, table: &mut [u64]) -> Found
    ensures { FindAs book.now (sought forward.now phi psi) table.old result
        table.new }
{
    let sought = Sought { forward, phi, psi };
    sought.row_in(book, table).into()
}
