// How much checking a book will take, and how long plans may be, with no buffer lent and no command applied.
#![tactic(auto)]

ghost use Rattle.std.specs.Prelude.{◌≡◌};
ghost use Rattle.book.specs.Faults.{code_of};
ghost use Rattle.forecast.specs.Forecasts.{refusal};
ghost use Rattle.forecast.specs.Contract.{ForecastAs};

use book::{Fault, FaultAt};

// The code and its place; the units of checking, and the plan bytes and legs that no run of i commands exceeds, each 0 on a refusal.
#[repr(C)]
#[derive(Clone, Copy, Debug, PartialEq, Eq)]
pub struct Forecasted {
    pub code: u64,
    pub place: u64,
    pub units: u64,
    pub plan_bytes: u64,
    pub legs: u64,
}

// A refusal, whose numbers are 0.
impl From<FaultAt> for Forecasted {
    ghost from_gives = { λ fault forecasted. forecasted ≡ refusal (code_of fault.fault) fault.place };

    fn from(fault: FaultAt) -> Forecasted {
        Forecasted {
            code: fault.fault.into(),
            place: fault.place,
            units: 0,
            plan_bytes: 0,
            legs: 0,
        }
    }
}

// Forecasts the check of a book, and plans of runs of i commands. The book is read in one pass, whose cost does not grow with psi.
pub fn forecast(book: &[u8], i: u64) -> Forecasted
    ensures { ForecastAs book.now i result }
{
    let sums = match reader::sum_up(book) {
        Ok(sums) => sums,
        Err(fault) => return fault.into(),
    };
    if 32 < i {
        return Fault::WrongRun.at(0).into();
    }
    Forecasted {
        code: 0,
        place: 0,
        units: sums.units,
        plan_bytes: i * sums.longest,
        legs: i,
    }
}
