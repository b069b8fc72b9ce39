// The portable relay's rule (02, CR 1).
#![tactic(auto)]

ghost use Rattle.std.specs.Prelude.{◌≡◌, ◌<◌};
ghost use Rattle.std.proofs.Common.{arith};
ghost use Rattle.portable_rule.specs.Portable.{portable};
ghost use Rattle.portable_rule.specs.Computed.{single, rule_mask};

use lookups::GivenByRule;

// The set of one state, by channel, power and mode.
#[tactic(auto, using(base::proofs::Masks::shl_one), unfolding(crate::specs::Computed::single))]
fn one_state(c: u64, p: u64, q: u64) -> u64
    requires { (c < 8) × (p < 2) × (q < 2) }
    ensures { result ≡ single c p q }
{
    1 << (c + 8 * p + 16 * q)
}

// The outcomes of a command in a state, by the rule: none for what is no state or no command.
#[tactic(auto, using(std::proofs::lemmas::Bool::Decides::nat_tests), unfolding(crate::specs::Computed::rule_mask, base::specs::Tests::pick))]
pub fn outcomes(state: u64, command: u64) -> u64
    ensures { result ≡ rule_mask state command }
{
    // channel, power and mode
    let c = state % 8;
    let p = state / 8 % 2;
    let q = state / 16;
    // no state
    if q > 1 {
        return 0;
    }
    match command {
        // sets the channel; in relay it may also stay
        0..=7 => match q {
            0 => one_state(command, p, q),
            _ => one_state(command, p, q) | one_state(c, p, q),
        },
        // sets the power
        8..=9 => one_state(c, command - 8, q),
        // sets relay
        10 => one_state(c, p, 1),
        // sets standby
        11 => one_state(c, p, 0),
        _ => 0,
    }
}

// The portable relay as a device given by its rule.
pub struct PortableRelay;

impl GivenByRule for PortableRelay {
    const STATES: u64 = 32;

    const COMMANDS: u64 = 12;

    ghost STATES = { 32 };

    ghost COMMANDS = { 12 };

    ghost rule = { portable };

    #[tactic(auto, using(crate::proofs::Rules::rule_mask_lem))]
    fn outcomes(state: u64, command: u64) -> u64 {
        outcomes(state, command)
    }

    ghost numbers = { Prim.omega arith };

    ghost within_limits = { Prim.omega arith };
}
