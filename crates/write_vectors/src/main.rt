// Runs the 500 cases of writes.bin, made by a second program, through `writer::write`, and prints for each the answer and the output's first bytes.
// A case has 575 bytes: n, m and the count, 8 bytes each; a byte that says which buffer is one short; 32 weights, 2 bytes each; 48 entries, 8 bytes
// each; 3 slots.
#![tactic(auto)]

use std::io::Print;
use vectors::{Cases, Lending};

// One case: code, place and length on a line; the output's bytes 0 to length + 3 on the next.
fn run_case(rt: &impl Print, case: &[u8; 575]) {
    let mut table = [0u64; 2053];
    let mut slots = [0u8; 2181];
    let mut weights = [0u16; 37];
    let mut out = [90u8; 31183];
    for (weight, bytes) in weights.iter_mut().zip(case[25..89].as_chunks().0) {
        *weight = u16::from_le_bytes(*bytes);
    }
    for (entry, bytes) in table.iter_mut().zip(case[89..473].as_chunks().0) {
        *entry = u64::from_le_bytes(*bytes);
    }
    slots[..102].copy_from_slice(&case[473..]);
    let lending = Lending::Short(case[24].into());
    let r = writer::write(
        octets::u64_at(case, 0),
        octets::u64_at(case, 8),
        octets::u64_at(case, 16),
        &table[..lending.size(2053, 2)],
        &slots[..lending.size(2181, 3)],
        &weights[..lending.size(37, 4)],
        &mut out[..lending.size(31183, 1)],
    );
    vectors::print_row(rt, &[r.code, r.place, r.length]);
    if r.length < 31175 {
        vectors::print_first(rt, &out, r.length as usize + 4);
    }
}

fn main(rt: HostRuntime) {
    let cases = Cases {
        path: b"writes.bin",
        count: 500,
        head: 575,
    };
    cases.each(&rt, |_, head| {
        if let Some(case) = head.first_chunk() {
            run_case(&rt, case);
        }
    });
}
