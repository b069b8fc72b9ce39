// Runs the 900 cases of cases.bin, made by a second program, through assembling, and prints for each the answer, the plan, the legs and the 33
// numbers, a line each.
// A case is the book's length and the run's, two bytes each; the book; the run.
#![tactic(auto)]

use std::io::Print;
use vectors::Cases;

// One case, with buffers of the stated lengths.
fn run_case(rt: &impl Print, book: &[u8], run: &[u8]) {
    let mut table = [0u64; 2048];
    let mut slots = [0u8; 2176];
    let mut weights = [0u16; 32];
    let mut plan = [0u8; 256];
    let mut legs = [0u8; 96];
    let r = assembly::assemble(
        book,
        run,
        &mut table,
        &mut slots,
        &mut weights,
        &mut plan,
        &mut legs,
    );
    vectors::print_row(rt, &[r.code, r.place, r.commands, r.legs, r.sum]);
    vectors::print_first(rt, &plan, r.commands as usize);
    vectors::print_first(rt, &legs, vectors::leg_bytes(r.legs));
    vectors::print_row(rt, &r.fewest);
}

fn main(rt: HostRuntime) {
    let cases = Cases {
        path: b"cases.bin",
        count: 900,
        head: 2,
    };
    cases.each_run(&rt, |_, book, run| run_case(&rt, book, run));
}
