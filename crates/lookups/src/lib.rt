// Devices given by a rule: what such a device is, and a lookup in its constant table, for any of them.
#![tactic(auto)]

ghost use Rattle.std.specs.Prelude.{◌≡◌, ◌⊎◌, ℕ, ◌≤◌, ◌<◌};
ghost use Rattle.base.specs.Tables.{cell};
ghost use Rattle.lookups.specs.Rules.{DeviceRule, OutcomesOf};
ghost use Rattle.lookups.specs.Lookup.{EqualsRule, Looked};
ghost use Rattle.lookups.specs.Computed.{answered, answer_of};

// A device given by a rule: how many states and commands it has, and a function that works the rule out.
pub trait GivenByRule {
    const STATES: u64;

    const COMMANDS: u64;

    ghost STATES: { ℕ };

    ghost COMMANDS: { ℕ };

    ghost rule: { DeviceRule };

    // The outcomes of a command in a state, by the rule: none for what is no state or no command.
    fn outcomes(state: u64, command: u64) -> u64
        ensures { OutcomesOf rule state command result };

    // Both are the rule's.
    ghost numbers: { (STATES ≡ rule.n) × (COMMANDS ≡ rule.m) };

    // 01: "n from 1 to 64, .. m from 1 to 32".
    ghost within_limits: { (1 ≤ STATES) × (STATES ≤ 64) × (1 ≤ COMMANDS) × (COMMANDS ≤ 32) };
}

// What a lookup answers: the code, its place, and the mask of the outcomes.
#[repr(C)]
#[derive(Drop, PartialEq, Eq)]
pub struct LookupResult {
    pub code: u64,
    pub place: u64,
    pub mask: u64,
}

// The code where there is no such state or command.
const NO_ENTRY: u64 = 5;

impl From<Option<u64>> for LookupResult {
    ghost from_gives = { λ mask r. r ≡ answered mask };

    fn from(mask: Option<u64>) -> LookupResult {
        match mask {
            Some(mask) => LookupResult {
                code: 0,
                place: 0,
                mask,
            },
            None => LookupResult {
                code: NO_ENTRY,
                place: 0,
                mask: 0,
            },
        }
    }
}

// The mask of a command in a state, by a table with an entry for each; None for what is no state or no command.
#[tactic(auto, unfolding(base::specs::Tables::cell))]
fn mask_in<D: GivenByRule>(table: &[u64], state: u64, command: u64) -> Option<u64>
    ensures outside { (D.rule.n ≤ state) ⊎ (D.rule.m ≤ command) → result ≡ None }
    ensures inside { state < D.rule.n → command < D.rule.m → result ≡ Some (cell D.rule.m table.now state command) }
{
    if state >= D::STATES || command >= D::COMMANDS {
        return None;
    }
    let entry = state * D::COMMANDS + command;
    Some(table.get(entry as usize).copied().unwrap_or(0))
}

// The outcomes of a command in a state, by a constant table of the device. Code 5 for what is no state or no command.
#[tactic(auto, using(std::proofs::lemmas::Bool::Decides::nat_tests), unfolding(crate::specs::Computed::answer_of, base::specs::Tests::pick))]
pub fn lookup<D: GivenByRule>(table: &[u64], state: u64, command: u64) -> LookupResult
    ensures entry { result ≡ answer_of D.rule.n D.rule.m state command (cell D.rule.m table.now state command) }
    ensures by_rule { (not_empty : ℕ) → EqualsRule D.rule not_empty table.now → Looked D.rule state command result }
{
    LookupResult::from(mask_in::<D>(table, state, command))
}
