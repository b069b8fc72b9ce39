// What the program prints for a book and a run, written into a lent row.
#![tactic(auto)]

ghost use Rattle.report.specs.Contract.{ReportAs};

// Cuts the book to its first 31,179 bytes and the run to its first 302, assembles, and stores the lines at the start of `out`. The answer is their
// length, at most 5,461; what does not fit in the row is not stored, and is counted all the same.
pub fn report(book: &[u8], run: &[u8], out: &mut [u8]) -> usize
    ensures { ReportAs book.now run.now out.old result out.new }
{
    let book = &book[..book.len().min(book::BOOK_LEN + 1)];
    let run = &run[..run.len().min(302)];
    let mut table = [0u64; book::TABLE_LEN];
    let mut slots = [0u8; book::SLOTS_LEN];
    let mut weights = [0u16; book::WEIGHTS_LEN];
    let mut plan = [0u8; assembly::PLAN_LEN];
    let mut legs = [0u8; assembly::LEGS_LEN];
    let r = assembly::assemble(
        book,
        run,
        &mut table,
        &mut slots,
        &mut weights,
        &mut plan,
        &mut legs,
    );
    show::lines(out, r.code, r.place, r.commands, r.legs, &plan)
}
