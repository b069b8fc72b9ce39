// The judgement of one record.
ghost use Rattle.std.specs.Prelude.{◌≡◌, IfOk};
ghost use Rattle.book.specs.declared.kind.Kind.TheVariants.{DeviceRecord, WeightsRecord, MoveRecord, ItemRecord};
ghost use Rattle.book.specs.Book.{all_one};
ghost use Rattle.book.specs.Limits.{weights_fine, fields_fine};
ghost use Rattle.book.specs.Parse.{weights_of, item_of, judged_as, step};
ghost use Rattle.reader.specs.Judged.{Limits, Counted, rec};

use book::{Fault, Kind, Phase, State, Step};

// A device record: n and m.
fn device_step(st: State, body: &[u8]) -> Step
    ensures value { result ≡ judged_as DeviceRecord st body.now }
    ensures bounded { IfOk result Limits }
{
    if !st.phase.allows(Kind::DeviceRecord) {
        return Err(Fault::WrongKind);
    }
    if body.len() != 2 {
        return Err(Fault::WrongLength);
    }
    let n = octets::byte_at(body, 0);
    let m = octets::byte_at(body, 1);
    if !limits::device_fine(n, m) {
        return Err(Fault::OutOfRange);
    }
    Ok(State {
        phase: Phase::AtWeights,
        n,
        m,
        low: 0,
        items: 0,
    })
}

// Whether each of the weights in a body is from 1 to 1,000.
fn weights_fine(body: &[u8]) -> bool
    ensures { result ≡ weights_fine (weights_of body.now) }
{
    body.chunks_exact(2)
        .all(|weight| limits::weight_fine(octets::u16_at(weight, 0)))
}

// Whether each of them is 1.
fn all_one(body: &[u8]) -> bool
    ensures { result ≡ all_one (weights_of body.now) }
{
    body.chunks_exact(2)
        .all(|weight| octets::u16_at(weight, 0) == 1)
}

// A record of weights: two bytes for each command.
fn weights_step(st: State, body: &[u8]) -> Step
    requires { Limits st }
    ensures value { result ≡ judged_as WeightsRecord st body.now }
    ensures bounded { IfOk result Limits }
{
    if !st.phase.allows(Kind::WeightsRecord) {
        return Err(Fault::WrongKind);
    }
    if body.len() != 2 * st.m as usize {
        return Err(Fault::WrongLength);
    }
    if !weights_fine(body) {
        return Err(Fault::OutOfRange);
    }
    if all_one(body) {
        return Err(Fault::OnesOnly);
    }
    Ok(State {
        phase: Phase::AtMoves,
        ..st
    })
}

// A move record: state, command and mask.
fn move_step(st: State, body: &[u8]) -> Step
    requires { Limits st }
    ensures value { result ≡ judged_as MoveRecord st body.now }
    ensures bounded { IfOk result Limits }
{
    if !st.phase.allows(Kind::MoveRecord) {
        return Err(Fault::WrongKind);
    }
    if body.len() != 10 {
        return Err(Fault::WrongLength);
    }
    let state = octets::byte_at(body, 0);
    let command = octets::byte_at(body, 1);
    let mask = octets::u64_at(body, 2);
    if !limits::move_fine(state, command, mask, st.n, st.m) {
        return Err(Fault::OutOfRange);
    }
    let index = state * st.m + command;
    if index < st.low {
        return Err(Fault::NotRising);
    }
    Ok(State {
        phase: Phase::AtMoves,
        low: index + 1,
        ..st
    })
}

// Whether an item record's commands and masks are within the limits, after its counts and its length were judged.
fn item_fine(body: &[u8], k: usize, r: usize, n: u64, m: u64) -> bool
    requires { Counted body.now k r }
    ensures { result ≡ fields_fine n m (item_of body.now) }
{
    let phi = octets::u64_at(body, 2 + k + r);
    let psi = octets::u64_at(body, 10 + k + r);
    limits::fields_fine(&body[2..2 + k], &body[2 + k..2 + k + r], phi, psi, n, m)
}

// An item record.
fn item_step(st: State, body: &[u8]) -> Step
    requires { Limits st }
    ensures value { result ≡ judged_as ItemRecord st body.now }
    ensures bounded { IfOk result Limits }
{
    if !st.phase.allows(Kind::ItemRecord) {
        return Err(Fault::WrongKind);
    }
    if 64 <= st.items {
        return Err(Fault::TooManyItems);
    }
    if body.len() < 2 {
        return Err(Fault::WrongLength);
    }
    let k = octets::byte_at(body, 0);
    let r = octets::byte_at(body, 1);
    if !limits::counts_fine(k, r) {
        return Err(Fault::OutOfRange);
    }
    if body.len() != 18 + k as usize + r as usize {
        return Err(Fault::WrongLength);
    }
    if !item_fine(body, k as usize, r as usize, st.n, st.m) {
        return Err(Fault::OutOfRange);
    }
    Ok(State {
        phase: Phase::AtItems,
        items: st.items + 1,
        ..st
    })
}

// The first fault of a record that stands where reading is, or where reading is after it.
pub(crate) fn record_step(st: State, number: u64, body: &[u8]) -> Step
    requires { Limits st }
    ensures value { result ≡ step st (rec number body.now) }
    ensures bounded { IfOk result Limits }
{
    match Kind::try_from(number)? {
        Kind::DeviceRecord => device_step(st, body),
        Kind::WeightsRecord => weights_step(st, body),
        Kind::MoveRecord => move_step(st, body),
        Kind::ItemRecord => item_step(st, body),
    }
}
