// The kinds of records in a book, and their numbers.
ghost use Rattle.std.specs.Prelude.{◌≡◌};
ghost use Rattle.book.specs.declared.fault.Fault.TheVariants.{WrongKind};
ghost use Rattle.book.specs.Book.{number};
ghost use Rattle.book.specs.Parse.{kind_of};

use crate::fault::Fault;

// The kinds of records in a book.
#[derive(Clone, Copy, Debug, PartialEq, Eq)]
pub enum Kind {
    DeviceRecord = 1,
    WeightsRecord = 5,
    MoveRecord = 2,
    ItemRecord = 3,
}

impl From<Kind> for u64 {
    ghost from_gives = { λ kind n. n ≡ number kind };

    fn from(kind: Kind) -> u64 {
        kind as u64
    }
}

// A number that no kind has.
#[derive(Clone, Copy, Debug, PartialEq, Eq)]
pub struct UnknownKind(pub u64);

impl TryFrom<u64> for Kind {
    type Error = UnknownKind;

    ghost try_from_gives = { λ n kind. kind ≡ kind_of n };

    fn try_from(n: u64) -> Result<Self, UnknownKind> {
        match n {
            1 => Ok(Kind::DeviceRecord),
            2 => Ok(Kind::MoveRecord),
            3 => Ok(Kind::ItemRecord),
            5 => Ok(Kind::WeightsRecord),
            _ => Err(UnknownKind(n)),
        }
    }
}

impl From<UnknownKind> for Fault {
    ghost from_gives = { λ _ fault. fault ≡ WrongKind };

    fn from(_unknown: UnknownKind) -> Fault {
        Fault::WrongKind
    }
}
