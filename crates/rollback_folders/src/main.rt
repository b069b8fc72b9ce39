// Prints, for each folder of data/, its name and what the program `rollback` prints there. The file stdout was written from 01 and 02.
//
// Q's book, with a run of 01:
//   q8          "plan 0, items 3, 1": one command, two legs
//   q9          code 11
//   q11         an empty plan: an empty second line
//   q2          the book with psi 3 in item 1, and Q5: 8 at that item's record
//   q4          the book with the item of Q4 behind its items, and Q5: 12 at that item's record
//   no_book     Q5 alone: an empty book
//   no_run      no run.bin: an empty run
//   run_folder  run.bin is a folder, which can't be read
// A book of one state whose item undoes command 0 by eight times command 31:
//   plan_256    the largest run, 301 bytes: 32 times command 0
//   run_302     the same and one byte more: 9, where 301 bytes would give the plan
//   run_602     the same run twice: 9, as for every run of over 301 bytes
// Q's device with weights and two items, 1 / 0 1 and 1 / 1 1 1, and a run of command 1 in state 1:
//   dear        the item with two commands costs 302, the one with three 6
//   even        both items cost 6: the one that stands first, which has three commands
//   ones        every weight is 1: 13 at the record of the weights
// 64 states, 32 commands, weights, all moves, 64 items:
//   book_31179  the largest book, 31,178 bytes, and one byte more: 2 at 31,178, where 31,178 bytes would give an empty plan
//   book_31180  a book of 31,176 bytes and the header of a 65th item: 2 at 31,176, since three of its four bytes are judged; with the fourth it
//               would be 7
#![tactic(auto)]

use std::rt::Files;

const FOLDERS: [&str; 16] = [
    "q8",
    "q9",
    "q11",
    "q2",
    "q4",
    "no_book",
    "no_run",
    "run_folder",
    "plan_256",
    "run_302",
    "run_602",
    "dear",
    "even",
    "ones",
    "book_31179",
    "book_31180",
];

// What standard output does not take is let go.
fn print_folder<R: Files + Print>(rt: &R, folder: &str) {
    let _ = rt.println(folder);
    program::print_in(rt, folder.as_bytes());
}

fn main(rt: HostRuntime) {
    for folder in FOLDERS {
        print_folder(&rt, folder);
    }
}
