// The chain from a point down, written as a plan and legs. The call takes any bytes and numbers; its promise speaks of chains that can be walked.
#![tactic(auto)]

ghost use Rattle.points.specs.Items.{recorded};
ghost use Rattle.chains.specs.ChainFollowed.{WalkedAs};

// What was written.
#[derive(Drop)]
pub struct Counts {
    pub commands: u64,
    pub legs: u64,
}

// Follows the items from point i down to 0; writes the reverse commands and a leg of each. Nothing is written where i is over 32.
pub fn write_chain(
    book: &[u8],
    places: &[u16],
    items: &[u8],
    i: u64,
    plan: &mut [u8],
    legs: &mut [u8],
) -> Counts
    ensures { WalkedAs (recorded book.now places.now) items.now i
        plan.old legs.old result plan.new legs.new }
{
    let mut counts = Counts {
        commands: 0,
        legs: 0,
    };
    if 32 < i {
        return counts;
    }
    let mut j = i;
    while 0 < j {
        let a = octets::byte_at(items, j as usize);
        let item = items::parts_at(book, octets::word_at(places, a as usize) as usize);
        // An item that doesn't go down, or goes below 0, ends the walk: only a chain that can't be walked has such an item.
        let k = item.k as u64;
        let down = if (1..=j).contains(&k) { k } else { j };
        let lower = j - down;
        octets::copy(item.r, book, item.reverse, plan, counts.commands as usize);
        let leg = [a as u8, j as u8, lower as u8];
        octets::copy(3, &leg, 0, legs, 3 * counts.legs as usize);
        counts.commands += item.r as u64;
        counts.legs += 1;
        j = lower;
    }
    counts
}
