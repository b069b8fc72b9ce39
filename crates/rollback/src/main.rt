// The roll-back plan for the book book.bin and the run run.bin in the folder where it is started.
#![tactic(auto)]

fn main(rt: HostRuntime) {
    program::print_in(&rt, b".");
}
