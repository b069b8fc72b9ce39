// Runs the 900 cases of finds.bin, made by a second program, through finding a reverse, and prints for each the answer and the table's first 16 entries,
// a line each.
// A case is a byte that says how the table is lent; phi and psi, 8 bytes each; the book's length and the number of forward commands, two bytes each; the
// book; the forward commands.
#![tactic(auto)]

use std::io::Print;
use vectors::{Cases, Lending};

// One case.
fn run_case(rt: &impl Print, head: &[u8], book: &[u8], forward: &[u8]) {
    let mut table = [0u64; 2053];
    vectors::pattern(&mut table);
    let lending = Lending::of(octets::byte_at(head, 0), 2);
    let r = finder::find(
        book,
        forward,
        octets::u64_at(head, 1),
        octets::u64_at(head, 9),
        &mut table[..lending.size(2053, 1)],
    );
    let [first, second, third] = r.commands;
    vectors::print_row(
        rt,
        &[
            r.code,
            r.place,
            r.count,
            first.into(),
            second.into(),
            third.into(),
        ],
    );
    vectors::print_first(rt, &table, 16);
}

fn main(rt: HostRuntime) {
    let cases = Cases {
        path: b"finds.bin",
        count: 900,
        head: 19,
    };
    cases.each_run(&rt, |head, book, forward| {
        run_case(&rt, head, book, forward)
    });
}
