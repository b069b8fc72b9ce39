// Runs the 600 cases of books.bin, made by a second program, through reading and checking, and prints what each answers and leaves behind.
// A case is a byte that says how buffers are lent; the book's length, two bytes; the book.
#![tactic(auto)]

use std::io::Print;
use vectors::{Cases, Lending};

// The buffers of a case.
#[derive(Drop)]
struct Buffers {
    table: [u64; 2053],
    slots: [u8; 2181],
    weights: [u16; 37],
}

impl Buffers {
    // What a case lends of them, as they are before a call: the table's pattern, the index mod 251 in the slots, 40,000 + index in the weights. Filled
    // where they stand: as a value they are copied at each step.
    fn lend(&mut self, lending: Lending) -> (&mut [u64], &mut [u8], &mut [u16]) {
        let Buffers {
            table,
            slots,
            weights,
        } = self;
        vectors::pattern(table);
        for (i, slot) in slots.iter_mut().enumerate() {
            *slot = (i % 251) as u8;
        }
        for (i, weight) in weights.iter_mut().enumerate() {
            *weight = 40000 + i as u16;
        }
        (
            &mut table[..lending.size(2053, 1)],
            &mut slots[..lending.size(2181, 2)],
            &mut weights[..lending.size(37, 4)],
        )
    }
}

// One case: reading, then checking with the buffers as before reading, and what they hold after it.
fn run_case(rt: &impl Print, head: &[u8], book: &[u8]) {
    let lending = Lending::of(octets::byte_at(head, 0), 3);
    let mut buffers = Buffers {
        table: [0; 2053],
        slots: [0; 2181],
        weights: [0; 37],
    };
    let (table, slots, weights) = buffers.lend(lending);
    let r = reader::read(book, table, slots, weights);
    vectors::print_row(rt, &[r.code, r.place, r.n, r.m, r.items]);
    let (table, slots, weights) = buffers.lend(lending);
    let r = checker::check(book, table, slots, weights);
    vectors::print_row(rt, &[r.code, r.place, r.n, r.m, r.items, r.units]);
    vectors::print_first(rt, table, 40);
    vectors::print_first(rt, slots, 102);
    vectors::print_first(rt, weights, 32);
}

fn main(rt: HostRuntime) {
    let cases = Cases {
        path: b"books.bin",
        count: 600,
        head: 3,
    };
    cases.each_book(&rt, |head, book| run_case(&rt, head, book));
}
