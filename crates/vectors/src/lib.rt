// What the test programs that run vector files share: the cases of a file, parts of a file, how much of each buffer is lent, what a table holds before a
// call, and rows of numbers on standard output.
#![tactic(auto)]

ghost use Rattle.std.specs.Prelude.{◌≡◌, ◌≢◌, ℕ, ◌+◌, ◌-◌, ◌*◌, ◌<◌, ◌≤◌, min, length, get_or, take, drop};
ghost use Rattle.io.specs.Counts.{IsPrefixLen};
ghost use Rattle.vectors.specs.declared.Lending.TheVariants.{Longer, Short};

use std::io::{Eprint, Print, Read};
use std::rt::Files;

// The len bytes from `at` on, as far as there are any.
pub fn part(s: &[u8], at: usize, len: usize) -> &[u8]
    ensures { result.now ≡ take len (drop at s.now) }
{
    let rest = &s[at.min(s.len())..];
    &rest[..len.min(rest.len())]
}

// The file's next bytes, as many as asked for or as there is room. The answer is their number.
fn read_part(file: &mut impl Read, size: u16, buf: &mut [u8]) -> usize
    ensures { IsPrefixLen result buf.new }
{
    let wanted = usize::from(size).min(buf.len());
    files::read_full(file, &mut buf[..wanted])
}

// The number in the last two bytes.
fn last_two(head: &[u8]) -> u16 {
    match head {
        [.., low, high] => u16::from_le_bytes([*low, *high]),
        _ => 0,
    }
}

// The number in the file's next two bytes.
fn next_two(file: &mut impl Read) -> u16 {
    let mut bytes = [0; 2];
    files::read_full(file, &mut bytes);
    u16::from_le_bytes(bytes)
}

// A file of so many cases, each of which begins with a head of so many bytes, at most 575.
#[derive(Clone, Copy)]
pub struct Cases<'a> {
    pub path: &'a [u8],
    pub count: u64,
    pub head: usize,
}

impl Cases<'_> {
    // Runs the cases, each by a call with the file, of which the head has been read, and the head. The answer is how many were run; none are where the
    // file can't be opened, which is said on standard error.
    pub fn each<R: Files + Eprint, C: FnMut(&mut R::File, &[u8])>(self, rt: &R, mut case: C) -> u64
        requires { (state : C) (file head : _) → C.pre state file head }
        ensures { result ≤ self.entry.count }
    {
        let Cases { path, count, head } = self;
        match files::open_read(rt, path) {
            Ok(mut file) => {
                for _ in 0..count {
                    let mut bytes = [0; 575];
                    let head = &mut bytes[..head.min(575)];
                    files::read_full(&mut file, head);
                    case(&mut file, head);
                }
                count
            }
            Err(error) => {
                let name = str::from_utf8(path).unwrap_or("");
                let _ = eprintln!(rt; "{name}: {error}");
                0
            }
        }
    }

    // Runs cases of a head, whose last two bytes are the book's length, and the book.
    pub fn each_book<R: Files + Eprint, C: FnMut(&[u8], &[u8])>(self, rt: &R, mut case: C) -> u64
        requires { (state : C) (head book : _) → C.pre state head book }
        ensures { result ≤ self.entry.count }
    {
        self.each(rt, |file, head| {
            let mut book = [0; 31179];
            let book_size = read_part(file, last_two(head), &mut book);
            case(head, &book[..book_size]);
        })
    }

    // Runs cases of a head, whose last two bytes are the book's length; the run's length, two bytes; the book; the run.
    pub fn each_run<R: Files + Eprint, C: FnMut(&[u8], &[u8], &[u8])>(
        self,
        rt: &R,
        mut case: C,
    ) -> u64
        requires { (state : C) (head book run : _) → C.pre state head book run }
        ensures { result ≤ self.entry.count }
    {
        self.each(
            rt,
            |file, head|
                requires { (book run : _) → C.pre case head book run }
            {
                let mut book = [0; 31179];
                let mut run = [0; 302];
                let run_size = next_two(file);
                let book_size = read_part(file, last_two(head), &mut book);
                let run_size = read_part(file, run_size, &mut run);
                case(head, &book[..book_size], &run[..run_size]);
            },
        )
    }
}

// How a case lends its buffers, each of which is five longer than stated.
#[derive(Clone, Copy)]
pub enum Lending {
    // Whole.
    Longer,
    // As stated, but for the buffer of this number, of which one less is lent.
    Short(u64),
}

impl Lending {
    // What a case's kind says, where that of the longer ones is `longer`.
    pub fn of(kind: u64, longer: u64) -> Lending
        ensures longer { kind ≡ longer → result ≡ Longer }
        ensures others { kind ≢ longer → result ≡ Short kind }
    {
        if kind == longer {
            Lending::Longer
        } else {
            Lending::Short(kind)
        }
    }

    // How much is lent of the buffer of that number.
    pub fn size(self, whole: usize, number: u64) -> usize
        ensures upper_bound { result ≤ whole }
        ensures longer { self ≡ Longer → result ≡ whole }
        ensures short { self ≡ Short number → result ≡ whole - 6 }
        ensures stated { (other : ℕ) → self ≡ Short other → other ≢ number → result ≡ whole - 5 }
    {
        match self {
            Lending::Longer => whole,
            Lending::Short(short) if short == number => whole.saturating_sub(6),
            Lending::Short(_) => whole.saturating_sub(5),
        }
    }
}

// A table or a scratch before a call: entry + 1 at each entry.
pub fn pattern(masks: &mut [u64])
    ensures { (length masks.new ≡ length masks.old)
        × ((i : ℕ) → i < length masks.old → get_or masks.new i 0 ≡ i + 1) }
{
    for (i, mask) in masks.iter_mut().enumerate() {
        *mask = i as u64 + 1;
    }
}

// The bytes that so many legs take, at most 96.
pub fn leg_bytes(legs: u64) -> usize
    ensures { (legs < 32 → result ≡ 3 * legs) × (32 ≤ legs → result ≡ 96) }
{
    3 * legs.min(32) as usize
}

// Prints numbers as a row. What standard output does not take is let go.
pub fn print_row<T: Copy + Into<u64>>(rt: &impl Print, row: &[T]) {
    for (i, x) in row.iter().enumerate() {
        let n: u64 = (*x).into();
        let _ = if i == 0 {
            print!(rt; "{n}")
        } else {
            print!(rt; " {n}")
        };
    }
    let _ = println!(rt; "");
}

// Prints the first numbers as a row; how many there were.
pub fn print_first<T: Copy + Into<u64>>(rt: &impl Print, row: &[T], count: usize) -> usize
    ensures { result ≡ min count (length row.now) }
{
    let count = count.min(row.len());
    print_row(rt, &row[..count]);
    count
}
