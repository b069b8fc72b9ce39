// A plan on paper: assembling, with the legs laid out as lines of text in a lent page.
#![tactic(auto)]

ghost use Rattle.std.specs.Prelude.{◌+◌, ◌^◌, ◌<◌, ◌≤◌, drop};
ghost use Rattle.book.specs.Lent.{lent};
ghost use Rattle.assembly.specs.Asked.{asked};
ghost use Rattle.assembly.specs.Lent.{all_lent};
ghost use Rattle.assembly.specs.LegsRead.{leg_read};
ghost use Rattle.show.specs.Written.{Written};
ghost use Rattle.show.specs.Adds.{Adds};
ghost use Rattle.paper.specs.Layout.{widths, columns, joined, line_of};
ghost use Rattle.paper.specs.Contract.{reverse_in, page_in, PageAs};

use assembly::Assembly;
use book::Fault;
use show::Text;

// The bytes of a lent page: 32 lines of 41.
pub const PAGE_LEN: usize = 1312;

// What assembling on paper answers: assembling's answer, and the length of the text at the start of the page, 0 on a refusal.
#[repr(C)]
#[derive(Drop)]
pub struct Paged {
    pub assembly: Assembly,
    pub length: u64,
}

// The reverse commands of the item in slot a, in eight columns.
fn put_commands(text: &mut Text, slots: &[u8], a: u8)
    requires { text.old.end < 2 ^ 32 }
    ensures adds { Adds text.old (joined (columns (drop 5 widths) (reverse_in slots.now a))) text.new }
    ensures upper_bound { text.new.end ≤ text.old.end + 184 }
{
    let shown = slots::r(slots, a).min(8) as u8;
    for x in 0..shown {
        text.put_right(3, slots::reverse(slots, a, x));
    }
    text.put_spaces(3 * (8 - usize::from(shown)));
}

// The line of leg i.
fn put_line(text: &mut Text, slots: &[u8], legs: &[u8], i: usize)
    requires { (i < 32) × (text.old.end < 2 ^ 20) }
    ensures adds { Adds text.old
        (line_of (i + 1) (leg_read legs.now i) (reverse_in slots.now (leg_read legs.now i).number)) text.new }
    ensures upper_bound { text.new.end ≤ text.old.end + 301 }
{
    let item = octets::byte_at(legs, 3 * i) as u8;
    let upper = octets::byte_at(legs, 3 * i + 1);
    let lower = octets::byte_at(legs, 3 * i + 2);
    text.put_right(3, (i + 1) as u64);
    text.put_right(3, upper);
    text.put_right(3, lower);
    text.put_right(4, u64::from(item));
    text.put_right(3, slots::r(slots, item));
    put_commands(text, slots, item);
    text.put_byte(b'\n');
}

// The lines of the legs counted, at the start of the page. The answer is their length.
fn put_lines(slots: &[u8], legs: &[u8], count: usize, page: &mut [u8]) -> usize
    requires { count ≤ 32 }
    ensures { Written page.old 0 (page_in slots.now legs.now count) page.new result }
{
    let mut text = Text { out: page, end: 0 };
    for i in 0..count {
        put_line(&mut text, slots, legs, i);
    }
    text.end
}

// Assembles, and lays the legs out in the page, one line for each. A refusal has no legs, and leaves the page as it is.
pub fn lay_out(
    book: &[u8],
    run: &[u8],
    table: &mut [u64],
    slots: &mut [u8],
    weights: &mut [u16],
    plan: &mut [u8],
    legs: &mut [u8],
    page: &mut [u8],
) -> Paged
    ensures { PageAs (asked book.now run.now)
        (all_lent (lent table.old slots.old weights.old) plan.old legs.old) page.old result
        (all_lent (lent table.new slots.new weights.new) plan.new legs.new) page.new }
{
    if page.len() < PAGE_LEN {
        return Paged {
            assembly: Fault::ShortBuffer.at(0).into(),
            length: 0,
        };
    }
    let assembly = assembly::assemble(book, run, table, slots, weights, plan, legs);
    let length = put_lines(slots, legs, assembly.legs as usize, page) as u64;
    Paged { assembly, length }
}
