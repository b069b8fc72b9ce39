// Runs the 700 cases of small.bin, made by a second program, through assembling with a scratch, and prints for each the answer, the plan, the legs, the
// 33 numbers, and on code 1 the scratch's first 8 entries, a line each.
// A case is a byte that says how buffers are lent; the book's length and the run's, two bytes each; the book; the run.
#![tactic(auto)]

use std::io::Print;
use vectors::{Cases, Lending};

// One case.
fn run_case(rt: &impl Print, head: &[u8], book: &[u8], run: &[u8]) {
    let lending = Lending::of(octets::byte_at(head, 0), 4);
    let mut scratch = [0u64; 69];
    let mut plan = [0u8; 261];
    let mut legs = [0u8; 101];
    vectors::pattern(&mut scratch);
    let r = assembly::assemble_small(
        book,
        run,
        &mut scratch[..lending.size(69, 1)],
        &mut plan[..lending.size(261, 2)],
        &mut legs[..lending.size(101, 3)],
    );
    vectors::print_row(rt, &[r.code, r.place, r.commands, r.legs, r.sum]);
    vectors::print_first(rt, &plan, r.commands as usize);
    vectors::print_first(rt, &legs, vectors::leg_bytes(r.legs));
    vectors::print_row(rt, &r.fewest);
    vectors::print_first(rt, &scratch, if r.code == 1 { 8 } else { 0 });
}

fn main(rt: HostRuntime) {
    let cases = Cases {
        path: b"small.bin",
        count: 700,
        head: 3,
    };
    cases.each_run(&rt, |head, book, run| run_case(&rt, head, book, run));
}
