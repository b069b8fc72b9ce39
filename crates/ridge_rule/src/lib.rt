// The ridge repeater's rule (01, "The ridge repeater").
#![tactic(auto)]

ghost use Rattle.std.specs.Prelude.{◌≡◌, ◌<◌};
ghost use Rattle.std.proofs.Common.{arith};
ghost use Rattle.ridge_rule.specs.Ridge.{ridge};
ghost use Rattle.ridge_rule.specs.Computed.{single, rule_mask};

use lookups::GivenByRule;

// The set of one state, by channel, power and mode.
#[tactic(auto, using(base::proofs::Masks::shl_one), unfolding(crate::specs::Computed::single))]
fn one_state(c: u64, p: u64, q: u64) -> u64
    requires { (c < 4) × (p < 4) × (q < 4) }
    ensures { result ≡ single c p q }
{
    1 << (c + 4 * p + 16 * q)
}

// The outcomes of a command in a state, by the rule: none for what is no state or no command.
#[tactic(auto, using(std::proofs::lemmas::Bool::Decides::nat_tests), unfolding(crate::specs::Computed::rule_mask, base::specs::Tests::pick, base::specs::Bounded::union))]
pub fn outcomes(state: u64, command: u64) -> u64
    ensures { result ≡ rule_mask state command }
{
    // channel, power and mode
    let c = state % 4;
    let p = state / 4 % 4;
    let q = state / 16;
    match command {
        // sets the channel; in relay it may also stay
        0..=3 => match q {
            0 => one_state(command, p, q),
            1 => one_state(command, p, q) | one_state(c, p, q),
            _ => 0,
        },
        // sets the power
        4..=7 => match q {
            0..=2 => one_state(c, command - 4, q),
            _ => 0,
        },
        // sets the mode
        8..=10 => match q {
            0..=2 => one_state(c, p, command - 8),
            _ => 0,
        },
        // locks
        11 => match q {
            0..=2 => one_state(c, p, 3),
            _ => 0,
        },
        // unlocks
        12 => match q {
            3 => one_state(c, p, 0),
            _ => 0,
        },
        // any channel
        13 => match q {
            0 => one_state(0, p, q) | one_state(1, p, q) | one_state(2, p, q) | one_state(3, p, q),
            _ => 0,
        },
        // one more power
        14 => match q {
            0..=2 => if p < 3 { one_state(c, p + 1, q) } else { 0 },
            _ => 0,
        },
        // one less power
        15 => match q {
            0..=2 => if p > 0 { one_state(c, p - 1, q) } else { 0 },
            _ => 0,
        },
        _ => 0,
    }
}

// The ridge repeater as a device given by its rule.
pub struct RidgeRepeater;

impl GivenByRule for RidgeRepeater {
    const STATES: u64 = 64;

    const COMMANDS: u64 = 16;

    ghost STATES = { 64 };

    ghost COMMANDS = { 16 };

    ghost rule = { ridge };

    #[tactic(auto, using(crate::proofs::Rules::rule_mask_lem))]
    fn outcomes(state: u64, command: u64) -> u64 {
        outcomes(state, command)
    }

    ghost numbers = { Prim.omega arith };

    ghost within_limits = { Prim.omega arith };
}
