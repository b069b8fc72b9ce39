// Holds every lookup and every entry of the constant tables to the rule worked out, which the program `tables` holds to a second program's masks.
// For each device: how many entries agree, then the answers for what is no state or no command.
#![tactic(auto)]

use lookups::{GivenByRule, LookupResult};
use portable_rule::PortableRelay;
use ridge_rule::RidgeRepeater;
use std::io::Print;

// How many entries of a device's table are, and are looked up as, what its rule's function gives.
fn print_agreeing<D: GivenByRule, F: Fn(u64, u64) -> LookupResult>(
    rt: &impl Print,
    table: &[u64],
    lookup: F,
)
    requires { F.IsAlwaysCallable lookup }
{
    let agreeing = (0u64..)
        .zip(table)
        .filter(|&(entry, &mask)| {
            let (state, command) = (entry / D::COMMANDS, entry % D::COMMANDS);
            mask == D::outcomes(state, command)
                && lookup(state, command) == LookupResult::from(Some(mask))
        })
        .count();
    let _ = println!(rt; "{agreeing}");
}

fn print_answer(rt: &impl Print, answer: LookupResult) {
    let _ = println!(rt; "{} {} {}", answer.code, answer.place, answer.mask);
}

fn main(rt: HostRuntime) {
    print_agreeing::<RidgeRepeater, _>(&rt, &ridge::table(), ridge::lookup);
    print_answer(&rt, ridge::lookup(64, 0));
    print_answer(&rt, ridge::lookup(0, 16));
    print_answer(&rt, ridge::lookup(u64::MAX, u64::MAX));
    print_agreeing::<PortableRelay, _>(&rt, &portable::table(), portable::lookup);
    print_answer(&rt, portable::lookup(32, 0));
    print_answer(&rt, portable::lookup(0, 12));
    print_answer(&rt, portable::lookup(u64::MAX, u64::MAX));
}
