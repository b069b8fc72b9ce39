// How far reading has come.
ghost use Rattle.reader.specs.Judged.{Limits};

use book::State;

// Where reading is: the place of the next record, and a state whose numbers are within 01's limits.
#[derive(Clone, Copy)]
pub struct Reached {
    pub st: State,
    pub at: usize,
    ghost in_limits: { Limits st },
}
