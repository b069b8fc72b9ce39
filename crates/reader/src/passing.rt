// Moves without a fault, passed one after the other in a plain loop over numbers. Any other record is left to `turn_at`.
ghost use Rattle.std.specs.Prelude.{◌≡◌, ◌+◌, ◌^◌, ◌≤◌, ◌<◌, length, IfSome};
ghost use Rattle.reader.specs.Passing.{GoodMove, Passing};

use crate::reached::Reached;
use book::{Kind, Phase, State};

// The bytes of a move's record.
const MOVE_LEN: usize = 14;

// Its first four bytes as a number: a body of 10 bytes, kind 2.
const MOVE_HEAD: u64 = 131082;

// The states below n.
fn states_below(n: u64) -> u64
    requires { n ≤ 64 }
    ensures { result + 1 ≡ 2 ^ n }
{
    if n < 64 { (1 << n) - 1 } else { u64::MAX }
}

// The lowest index that may follow the move at a place, whose mask is at most `top`; none where another record or a move with a fault stands there.
fn low_after(s: &[u8], at: usize, n: u64, m: u64, top: u64, low: u64) -> Option<u64>
    requires { (at + 14 ≤ length s.now) × (n ≤ 64) × (m ≤ 32) × (top + 1 ≡ 2 ^ n) }
    ensures { IfSome result (GoodMove s.now at n m low) }
{
    // Of the record's bytes alone, whose number is known, no look-up is tested.
    let record = &s[at..at + MOVE_LEN];
    let state = octets::byte_at(record, 4);
    let command = octets::byte_at(record, 5);
    let mask = octets::u64_at(record, 6);
    if octets::u64_at(record, 0) % 4294967296 != MOVE_HEAD {
        return None;
    }
    if n <= state || m <= command || mask == 0 || top < mask {
        return None;
    }
    let index = state * m + command;
    if index < low { None } else { Some(index + 1) }
}

// Where reading is after the moves without a fault that stand from a place on.
pub(crate) fn past_moves(s: &[u8], from: Reached) -> Reached
    requires { from.at ≤ length s.now }
    ensures { Passing s.now from.at from.st result.at result.st × (result.at ≤ length s.now) }
{
    if !from.st.phase.allows(Kind::MoveRecord) {
        return from;
    }
    let State {
        mut phase,
        n,
        m,
        mut low,
        items,
    } = from.st;
    let top = states_below(n);
    let mut at = from.at;
    while at + MOVE_LEN <= s.len() {
        let Some(next) = low_after(s, at, n, m, top, low) else {
            break;
        };
        phase = Phase::AtMoves;
        low = next;
        at += MOVE_LEN;
    }
    Reached {
        st: State {
            phase,
            n,
            m,
            low,
            items,
        },
        at,
    }
}
