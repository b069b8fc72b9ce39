// Numbers as bytes: read from a lent row, and written into one; an element of a row of numbers. Every function takes any numbers: past a row's end
// there are zeros, and nothing is stored.
#![tactic(auto)]

ghost use Rattle.std.specs.Prelude.{◌≡◌, ◌+◌, ◌<◌, ◌≤◌, MatchOption, leb, length, min, slice_get, get_or, replicate};
ghost use Rattle.std.proofs.lemmas.List.Edits.{sets};
ghost use Rattle.octets.specs.Le.{bytes_le};
ghost use Rattle.octets.specs.Parts.{le_at, whole_at, piece};

use std::ops::Range;

// The element at i as a number, or 0 past the end.
fn number_at<T: Copy + Into<u64>>(s: &[T], i: usize) -> u64
    ensures { MatchOption (slice_get s.now i) (result ≡ 0) (λ x. T.converts x result) }
{
    match s.get(i) {
        Some(x) => (*x).into(),
        None => 0,
    }
}

// The byte at i, or 0 past the end.
pub fn byte_at(s: &[u8], i: usize) -> u64
    ensures value { result ≡ get_or s.now i 0 }
    ensures upper_bound { result < 256 }
{
    number_at(s, i)
}

// The 16-bit number at i, or 0 past the end.
pub fn word_at(s: &[u16], i: usize) -> u64
    ensures value { result ≡ get_or s.now i 0 }
    ensures upper_bound { result < 65536 }
{
    number_at(s, i)
}

// The 64-bit number at i, or 0 past the end.
pub fn entry_at(s: &[u64], i: usize) -> u64
    ensures { result ≡ get_or s.now i 0 }
{
    number_at(s, i)
}

// The N bytes from `at` on, if they are all there.
fn chunk_at<const N: usize>(s: &[u8], at: usize) -> Option<&[u8; N]>
    ensures { MatchOption result (length s.now < at + N) (λ b. (at + N ≤ length s.now) × (b.now ≡ piece N s.now at)) }
{
    s.get(at..)?.first_chunk()
}

// The N bytes from `at` on, 0 past the end.
fn bytes_at<const N: usize>(s: &[u8], at: usize) -> [u8; N]
    ensures { result ≡ piece N s.now at }
{
    if let Some(bytes) = chunk_at(s, at) {
        return *bytes;
    }
    let mut bytes = [0; N];
    copy_part(N, s, at, &mut bytes, 0);
    bytes
}

// The number in two bytes.
pub fn u16_at(s: &[u8], at: usize) -> u64
    ensures value { result ≡ le_at 2 s.now at }
    ensures upper_bound { result < 65536 }
{
    u64::from(u16::from_le_bytes(bytes_at(s, at)))
}

// The number in eight bytes.
pub fn u64_at(s: &[u8], at: usize) -> u64
    ensures { result ≡ le_at 8 s.now at }
{
    let bytes: [u8; 8] = bytes_at(s, at);
    u64::from_le_bytes(bytes)
}

// Whether a row of `len` bytes has n from `at` on.
pub fn has_room(len: usize, at: usize, n: usize) -> bool
    ensures { result ≡ leb (at + n) len }
{
    at <= len && n <= len - at
}

// The number in eight bytes, or 0 where they are not all there.
pub fn whole_at(s: &[u8], at: usize) -> u64
    ensures { result ≡ whole_at s.now at }
{
    let Some(bytes) = chunk_at(s, at) else {
        return 0;
    };
    u64::from_le_bytes(*bytes)
}

// Stores the lowest bytes of v, lowest first, in all of d.
fn put_all(v: u64, d: &mut [u8])
    ensures { d.new ≡ bytes_le (length d.old) v }
{
    let mut rest = v;
    for b in d.iter_mut() {
        *b = (rest % 256) as u8;
        rest /= 256;
    }
}

// Stores the n lowest bytes of v, lowest first, from `at` on, as far as there is room.
#[tactic(auto, using(crate::proofs::Room::put_lent))]
pub fn put_le(n: usize, v: u64, d: &mut [u8], at: usize)
    ensures { d.new ≡ sets d.old at (bytes_le n v) }
{
    if has_room(d.len(), at, n) {
        put_all(v, &mut d[at..at + n]);
    } else {
        put_part(n, v, d, at);
    }
}

// The same where not all of them have room. Not inlined: in a loop over numbers that all have room, as writing's over the weights, the compiler works out
// at each turn which part has.
#[inline(never)]
#[tactic(auto, using(crate::proofs::Room::put_room))]
fn put_part(n: usize, v: u64, d: &mut [u8], at: usize)
    ensures { d.new ≡ sets d.old at (bytes_le n v) }
{
    let room = part(d.len(), at, n);
    put_all(v, &mut d[room]);
}

// Where n elements from `at` on stand in a row of `len`, as far as there are any.
fn part(len: usize, at: usize, n: usize) -> Range<usize>
    ensures { (result.start ≡ min at len) × (result.end ≡ min (at + n) len) }
{
    at.min(len)..at.saturating_add(n).min(len)
}

// Stores the byte b n times, from `at` on, as far as there is room.
#[tactic(auto, using(crate::proofs::Room::fill_room))]
pub fn fill(n: usize, b: u8, d: &mut [u8], at: usize)
    ensures { d.new ≡ sets d.old at (replicate n b) }
{
    let room = part(d.len(), at, n);
    d[room].fill(b);
}

// Stores n bytes of s from p on, 0 past its end, into d, from q on, as far as there is room. Byte by byte: where the compiler doesn't see that the two
// rows are apart, the library's copy_from_slice becomes a call of memmove, and the archive for C needs memcpy and memset alone.
#[tactic(auto, using(crate::proofs::Room::copy_room))]
pub fn copy(n: usize, s: &[u8], p: usize, d: &mut [u8], q: usize)
    ensures { d.new ≡ sets d.old q (piece n s.now p) }
{
    if has_room(s.len(), p, n) && has_room(d.len(), q, n) {
        let from = &s[p..p + n];
        for (i, b) in d[q..q + n].iter_mut().enumerate() {
            *b = from[i];
        }
    } else {
        copy_part(n, s, p, d, q);
    }
}

// The same where not all of them are there, or have room.
#[tactic(auto, using(crate::proofs::Room::copy_room))]
fn copy_part(n: usize, s: &[u8], p: usize, d: &mut [u8], q: usize)
    ensures { d.new ≡ sets d.old q (piece n s.now p) }
{
    let from = &s[part(s.len(), p, n)];
    let room = part(d.len(), q, n);
    for (i, b) in d[room].iter_mut().enumerate() {
        *b = byte_at(from, i) as u8;
    }
}
