// The portable relay's constant table and its lookup (02, CR 1).
#![tactic(auto)]

mod masks;

ghost use Rattle.std.specs.Prelude.{◌≡◌};
ghost use Rattle.lookups.specs.Lookup.{EqualsRule};
ghost use Rattle.portable_rule.specs.Portable.{portable};
ghost use Rattle.portable.specs.Computed.{portable_lookup};

use lookups::LookupResult;
use portable_rule::PortableRelay;

// The constant table of 384 masks, lent from read-only memory: entry state * 12 + command. None is empty.
pub fn entries() -> &'static [u64; 384]
    ensures { EqualsRule portable 384 result.now }
{
    &masks::MASKS
}

// The same table by value.
pub fn table() -> [u64; 384]
    ensures { EqualsRule portable 384 result }
{
    *entries()
}

// The outcomes of a command in a state, by the table. Code 5 for what is no state or no command.
pub fn lookup(state: u64, command: u64) -> LookupResult
    ensures { result ≡ portable_lookup state command }
{
    lookups::lookup::<PortableRelay>(entries(), state, command)
}
