// What may stand next in a book that is being read.
ghost use Rattle.std.specs.Prelude.{◌≡◌};
ghost use Rattle.book.specs.Parse.{allows};

use crate::kind::Kind;

// The first kind that may stand next.
#[derive(Clone, Copy, Debug, PartialEq, Eq)]
pub enum Phase {
    // The device; nothing else.
    AtStart,
    // Weights, moves and items.
    AtWeights,
    // Moves and items.
    AtMoves,
    // Items.
    AtItems,
}

impl Phase {
    // Whether a record of this kind may stand next.
    pub fn allows(self, kind: Kind) -> bool
        ensures { result ≡ allows self kind }
    {
        match self {
            Phase::AtStart => matches!(kind, Kind::DeviceRecord),
            Phase::AtWeights => !matches!(kind, Kind::DeviceRecord),
            Phase::AtMoves => matches!(kind, Kind::MoveRecord | Kind::ItemRecord),
            Phase::AtItems => matches!(kind, Kind::ItemRecord),
        }
    }
}
