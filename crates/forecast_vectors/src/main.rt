// Runs the 900 cases of forecasts.bin, made by a second program, through the forecast, and prints for each the answer on a line.
// A case is i, 8 bytes; the book's length, two bytes; the book.
#![tactic(auto)]

use std::io::Print;
use vectors::Cases;

// One case.
fn run_case(rt: &impl Print, head: &[u8], book: &[u8]) {
    let r = forecast::forecast(book, octets::u64_at(head, 0));
    vectors::print_row(rt, &[r.code, r.place, r.units, r.plan_bytes, r.legs]);
}

fn main(rt: HostRuntime) {
    let cases = Cases {
        path: b"forecasts.bin",
        count: 900,
        head: 10,
    };
    cases.each_book(&rt, |head, book| run_case(&rt, head, book));
}
