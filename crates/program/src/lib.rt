// The program `rollback`, for any folder.
#![tactic(auto)]

ghost use Rattle.program.specs.Printed.{ReportOfSome, SizeOfSome};

use std::io::Print;
use std::rt::Files;

// The program's lines for book.bin and run.bin of a folder, stored at the start of `out`; a file that can't be read counts as empty. One byte more
// than is judged is read of each, so that `report` alone sets the limits. The answer is the length of the lines.
fn report_in<R: Files>(rt: &R, folder: &[u8], out: &mut [u8]) -> usize
    ensures { ReportOfSome out.old result out.new }
{
    let mut book = [0u8; 31180];
    let mut run = [0u8; 303];
    let book_size = files::read_in(rt, folder, b"book.bin", &mut book);
    let run_size = files::read_in(rt, folder, b"run.bin", &mut run);
    report::report(&book[..book_size], &run[..run_size], out)
}

// Prints the lines for a folder's files. The answer is their length. What standard output does not take is let go.
pub fn print_in<R: Files + Print>(rt: &R, folder: &[u8]) -> usize
    ensures { SizeOfSome result }
{
    let mut out = [0u8; 5461];
    let size = report_in(rt, folder, &mut out);
    let _ = rt.write_all(&out[..size]);
    size
}
