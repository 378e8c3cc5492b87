//! The causes for which a search halts.
ghost use Rattle.std.specs.Prelude.{◌≡◌};
ghost use Rattle.board_words.specs.Causes.{halt_number};

/// Why a search halts. On the board a cause stands as its number, the greater the more urgent, and 0 stands for none.
#[derive(Clone, Copy, Debug, PartialEq, Eq)]
pub enum HaltCause {
    /// The budget of visits is spent: 1.
    Budget,
    /// Memory was refused: 2.
    Memory,
    /// A visit met a fault of the model: 3.
    Fault,
}

impl HaltCause {
    /// The number that stands for the cause on a board.
    pub fn number(self) -> u64
        ensures { result ≡ halt_number self }
    {
        match self {
            HaltCause::Budget => 1,
            HaltCause::Memory => 2,
            HaltCause::Fault => 3,
        }
    }
}
