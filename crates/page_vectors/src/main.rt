// Runs the 700 cases of pages.bin, made by a second program, through assembling on paper, and prints for each the answer with the length, the 33
// numbers, the page's lines as they are, and the four bytes behind them.
// A case is a byte that says how buffers are lent; the book's length and the run's, two bytes each; the book; the run.
#![tactic(auto)]

use paper::Paged;
use std::io::Print;
use vectors::{Cases, Lending};

fn print_answer(rt: &impl Print, r: Paged, page: &[u8]) {
    let a = r.assembly;
    let length = r.length as usize;
    vectors::print_row(rt, &[a.code, a.place, a.commands, a.legs, a.sum, r.length]);
    vectors::print_row(rt, &a.fewest);
    let _ = rt.write_all(vectors::part(page, 0, length));
    vectors::print_row(rt, vectors::part(page, length, 4));
}

// One case. The page holds 90 everywhere.
fn run_case(rt: &impl Print, head: &[u8], book: &[u8], run: &[u8]) {
    let lending = Lending::of(octets::byte_at(head, 0), 6);
    let mut table = [0u64; 2053];
    let mut slots = [0u8; 2181];
    let mut weights = [0u16; 37];
    let mut plan = [0u8; 261];
    let mut legs = [0u8; 101];
    let mut page = [90u8; 1317];
    let page = &mut page[..lending.size(1317, 1)];
    let r = paper::lay_out(
        book,
        run,
        &mut table[..lending.size(2053, 4)],
        &mut slots[..lending.size(2181, 5)],
        &mut weights[..lending.size(37, 7)],
        &mut plan[..lending.size(261, 2)],
        &mut legs[..lending.size(101, 3)],
        page,
    );
    print_answer(rt, r, page);
}

fn main(rt: HostRuntime) {
    let cases = Cases {
        path: b"pages.bin",
        count: 700,
        head: 3,
    };
    cases.each_run(&rt, |head, book, run| run_case(&rt, head, book, run));
}
