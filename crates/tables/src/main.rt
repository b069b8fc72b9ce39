// Prints the masks of both devices, as their rules' functions work them out, one a line by entry: the ridge repeater's 1,024, then the portable
// relay's 384 (02, CR 1). make.sh makes the source files of the constant tables of this.
#![tactic(auto)]

use lookups::GivenByRule;
use portable_rule::PortableRelay;
use ridge_rule::RidgeRepeater;
use std::io::Print;

// What standard output does not take is let go.
fn print_masks<D: GivenByRule>(rt: &impl Print) {
    for state in 0..D::STATES {
        for command in 0..D::COMMANDS {
            let _ = println!(rt; "{}", D::outcomes(state, command));
        }
    }
}

fn main(rt: HostRuntime) {
    print_masks::<RidgeRepeater>(&rt);
    print_masks::<PortableRelay>(&rt);
}
