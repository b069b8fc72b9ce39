// Why a call refuses what it was given, and at which place.
ghost use Rattle.std.specs.Prelude.{◌≡◌};
ghost use Rattle.book.specs.Faults.{code_of};
ghost use Rattle.book.specs.Parse.{fault_at};

// The faults of 01's table and of 02, in the order of their codes.
#[derive(Clone, Copy, Debug, PartialEq, Eq)]
pub enum Fault {
    // A lent buffer is shorter than stated.
    ShortBuffer = 1,
    // Under 4 bytes of a record are left, or its body is cut off; an empty book too.
    CutOff = 2,
    // A kind unknown in a book, or out of its order.
    WrongKind = 3,
    // A body's length is not that of its kind.
    WrongLength = 4,
    // A field is outside its range.
    OutOfRange = 5,
    // A move doesn't rise.
    NotRising = 6,
    // A 65th item.
    TooManyItems = 7,
    // An item is no conditional reverse plan.
    NoReversePlan = 8,
    // The run isn't exactly one record, or a command or mask is outside m or n.
    WrongRun = 9,
    // Nothing can have happened that fits the run.
    NoHistory = 10,
    // No items lead from the run's end back to its start.
    NoChain = 11,
    // An item can never be used.
    NotEffective = 12,
    // A record of weights in which every weight is 1.
    OnesOnly = 13,
    // Forward commands or masks that no item may hold.
    NoItem = 14,
    // No reverse of at most 3 commands makes an accepted item.
    NoReverse = 15,
}

impl Fault {
    // This fault, found at a place.
    pub fn at(self, place: u64) -> FaultAt
        ensures { result ≡ fault_at self place }
    {
        FaultAt { fault: self, place }
    }
}

impl From<Fault> for u64 {
    ghost from_gives = { λ fault code. code ≡ code_of fault };

    fn from(fault: Fault) -> u64 {
        fault as u64
    }
}

// A fault and its place.
#[derive(Clone, Copy, Debug, PartialEq, Eq)]
pub struct FaultAt {
    pub fault: Fault,
    pub place: u64,
}
