// The points of a run: the possible states at each (module beliefs), the least sum of weights, and the item that begins a chain with that sum. Every
// call takes any bytes and numbers; its promise speaks of those within the limits of books and runs.
#![tactic(auto)]

pub mod beliefs;

ghost use Rattle.std.specs.Prelude.{◌≡◌, true, ℕ, ◌+◌, ◌≤◌, ◌<◌, length, get_or};
ghost use Rattle.base.specs.Cardinality.{member};
ghost use Rattle.reversal.specs.Weights.{sum_of};
ghost use Rattle.items.specs.Items.{held_in};
ghost use Rattle.points.specs.Items.{recorded};
ghost use Rattle.points.specs.Links.{PointsAs};
ghost use Rattle.points.specs.Rows.{AskedOf, Ahead, asks_at, Marked, cheapest};

use items::Parts;
use states::StateSet;

// The sum of a point that has no chain.
const NONE: u64 = 4294967295;

// What an item asks: its forward commands as one number, lowest byte first, with the mask of as many bytes; the states above and below.
#[derive(Clone, Copy)]
pub struct Asked {
    pub k: u64,
    pub mask: u64,
    pub commands: u64,
    pub phi: u64,
    pub psi: u64,
}

fn asked_by(book: &[u8], item: Parts) -> Asked
    requires { (1 ≤ item.k) × (item.k ≤ 8) }
    ensures { AskedOf (held_in book.now item) result }
{
    let k = item.k as u64;
    let mask = 18446744073709551615 >> (64 - 8 * k);
    let commands = octets::u64_at(book, item.forward);
    let phi = items::phi(book, item);
    let psi = items::psi(book, item);
    Asked {
        k,
        mask,
        commands: commands & mask,
        phi,
        psi,
    }
}

// The run's commands from each point below i on, eight bytes as a number.
fn look_ahead(run: &[u8], i: u64, ahead: &mut [u64; 33])
    requires { (i ≤ 32) × (length ahead.old ≡ 33) }
    ensures { Ahead run.now i ahead.new }
{
    for j in 0..i as usize {
        ahead[j] = octets::u64_at(run, 5 + j);
    }
}

// Whether the item fits from point j, by the possible states at both ends.
fn fits_at(item: Asked, ahead: &[u64; 33], sets: &[u64; 33], j: u64) -> bool
    requires { (item.k ≤ j) × (j ≤ 32) }
    ensures { result ≡ asks_at item ahead.now sets.now j }
{
    let low = j - item.k;
    ahead[low as usize] & item.mask == item.commands
        && StateSet::of(sets[j as usize]).is_inside(item.phi)
        && StateSet::of(sets[low as usize]).is_inside(item.psi)
}

// Adds item a to the row of each point up to i from which it fits.
fn mark(item: Asked, a: u64, ahead: &[u64; 33], sets: &[u64; 33], i: u64, rows: &mut [u64; 33])
    requires { (a < 64) × (i ≤ 32) × (length rows.old ≡ 33) }
    ensures { Marked item ahead.now sets.now a i rows.old rows.new }
{
    for j in item.k..=i {
        if fits_at(item, ahead, sets, j) {
            rows[j as usize] |= 1 << a;
        }
    }
}

// The sum of the weights of the item's reverse commands.
fn price(book: &[u8], item: Parts, weights: &[u16]) -> u64
    requires { (item.r < 256) × (item.reverse + item.r ≤ item.next) }
    ensures { (result ≡ sum_of weights.now (held_in book.now item).reverse) × (result < 16777216) }
{
    let mut sum = 0;
    for x in 0..item.r {
        let command = octets::byte_at(book, item.reverse + x);
        sum += octets::word_at(weights, command as usize);
    }
    sum
}

// A sum, and the item that begins a chain with it.
#[derive(Clone, Copy)]
pub struct Choice {
    pub number: u64,
    pub item: u8,
}

// The least sum from point j by an item of the row, with those of the points below it known; among equals the lowest item.
fn best(row: u64, ks: &[u8; 64], prices: &[u32; 64], fewest: &[u32; 33], j: u64) -> Choice
    requires { (j ≤ 32) × ((a : ℕ) → member row a ≡ true → get_or ks.now a 0 ≤ j) }
    ensures { result ≡ cheapest ks.now prices.now fewest.now j row }
{
    let mut choice = Choice {
        number: NONE,
        item: 0,
    };
    for a in StateSet::of(row) {
        let low = j - ks[a as usize] as u64;
        let sum = u64::from(prices[a as usize]) + u64::from(fewest[low as usize]);
        if sum < choice.number {
            choice = Choice {
                number: sum,
                item: a as u8,
            };
        }
    }
    choice
}

// The least sum for each of the 33 points, and the item that begins a chain with it.
#[derive(Drop)]
pub struct Points {
    pub fewest: [u32; 33],
    pub items: [u8; 33],
}

// No point has a chain.
fn no_points() -> Points {
    Points {
        fewest: [NONE as u32; 33],
        items: [0u8; 33],
    }
}

// The numbers from point 0 upward; each item is read once. No point has a chain where there are over 64 items, i is over 32, or an item hasn't 1 to 8
// forward commands.
pub fn points_of(
    book: &[u8],
    places: &[u16],
    weights: &[u16],
    count: u64,
    run: &[u8],
    sets: &[u64; 33],
    i: u64,
) -> Points
    ensures { PointsAs (recorded book.now places.now) weights.now run.now sets.now count i
        result.fewest result.items }
{
    if 64 < count || 32 < i {
        return no_points();
    }
    let mut ahead = [0u64; 33];
    look_ahead(run, i, &mut ahead);
    let mut rows = [0u64; 33];
    let mut ks = [0u8; 64];
    let mut prices = [0u32; 64];
    for a in 0..count {
        let item = items::parts_at(book, octets::word_at(places, a as usize) as usize);
        if item.k < 1 || 8 < item.k {
            return no_points();
        }
        ks[a as usize] = item.k as u8;
        prices[a as usize] = price(book, item, weights) as u32;
        mark(asked_by(book, item), a, &ahead, sets, i, &mut rows);
    }
    let mut fewest = [NONE as u32; 33];
    let mut items = [0u8; 33];
    fewest[0] = 0;
    for j in 1..=i {
        let choice = best(rows[j as usize], &ks, &prices, &fewest, j);
        fewest[j as usize] = choice.number as u32;
        items[j as usize] = choice.item;
    }
    Points { fewest, items }
}
