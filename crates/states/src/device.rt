// Where a device's outcomes are looked up: in its table, or in the moves of its book by their index.

ghost use Rattle.std.specs.Prelude.{◌≡◌, ℕ, ◌<◌, ◌≤◌};
ghost use Rattle.reversal.specs.Device.{Device, tabled};
ghost use Rattle.moves.specs.Moves.{moved};
ghost use Rattle.states.specs.Past.{entry_out, indexed_out};

// Where the outcomes of a device's commands are looked up.
pub trait Outcomes {
    // The device whose outcomes these are.
    ghost device: { Self → Device };

    // How many states it has.
    fn n(&self) -> u64
        ensures { result ≡ (device self.now).n };

    // How many commands it has.
    fn m(&self) -> u64
        ensures { result ≡ (device self.now).m };

    // The outcomes of a command in one of its states.
    fn outcomes_at(&self, state: u64, command: u64) -> u64
        ensures { (state < (device self.now).n) × ((device self.now).n ≤ 64) × ((device self.now).m ≤ 32)
            → result ≡ (device self.now).outcomes state command };

    // What is no state has no outcomes.
    ghost none_past: { (it : Self) → (s c : ℕ) → (device it).n ≤ s → (device it).outcomes s c ≡ 0 };
}

// A device by its table.
#[derive(Clone, Copy)]
pub struct Tabled<'a> {
    pub table: &'a [u64],
    pub n: u64,
    pub m: u64,
}

impl<'a> Outcomes for Tabled<'a> {
    ghost device = { λ it. tabled it.n it.m it.table.now };

    ghost none_past = { λ it. entry_out it.n it.m it.table.now };

    fn n(&self) -> u64 {
        self.n
    }

    fn m(&self) -> u64 {
        self.m
    }

    fn outcomes_at(&self, state: u64, command: u64) -> u64 {
        if command < self.m {
            let at = state.wrapping_mul(self.m).wrapping_add(command);
            self.table.get(at as usize).copied().unwrap_or(0)
        } else {
            0
        }
    }
}

// A device by the moves of its book, and their index.
#[derive(Clone, Copy)]
pub struct Moved<'a> {
    pub book: &'a [u8],
    pub index: &'a [u64],
    pub n: u64,
    pub m: u64,
}

impl<'a> Outcomes for Moved<'a> {
    ghost device = { λ it. moved it.book.now it.n it.m it.index.now };

    ghost none_past = { λ it. indexed_out it.book.now it.n it.m it.index.now };

    fn n(&self) -> u64 {
        self.n
    }

    fn m(&self) -> u64 {
        self.m
    }

    fn outcomes_at(&self, state: u64, command: u64) -> u64 {
        if command < self.m {
            let row = self.index.get(state as usize).copied().unwrap_or(0);
            moves::outcomes(self.book, row, command)
        } else {
            0
        }
    }
}
