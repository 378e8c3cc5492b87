//! How a run of the program ends.

ghost use Rattle.std.specs.Prelude.{◌≡◌, OnOk, OnErr};
ghost use Rattle.run_ends.specs.Statuses.{code_of};

use dp_outside::Failed;

/// How a run of the program ended.
#[derive(Clone, Copy, Debug, PartialEq, Eq)]
pub enum Status {
    /// The best solution is proved optimal, a list of steps is legal, a certificate holds, or a model was shown.
    Success,
    /// The words have no meaning.
    Usage,
    /// A text is refused.
    Refused,
    /// A read failed.
    ReadFault,
    /// A write failed.
    WriteFault,
    /// Memory ran out.
    Memory,
    /// A file has more bytes than are read.
    TooLong,
    /// There is no solution, a list of steps is not legal, or a certificate is rejected.
    Negative,
    /// The budget of visits ended the search.
    Stopped,
    /// An expression has no value.
    Fault,
}

impl Status {
    /// The number that the process ends with.
    pub fn code(self) -> u8
        ensures { result ≡ code_of self }
    {
        match self {
            Status::Success => 0,
            Status::Usage => 2,
            Status::Refused => 3,
            Status::ReadFault => 4,
            Status::WriteFault => 5,
            Status::Memory => 6,
            Status::TooLong => 7,
            Status::Negative => 10,
            Status::Stopped => 11,
            Status::Fault => 12,
        }
    }
}

/// The status of a run whose last text was written so.
pub fn status_after(written: Result<(), Failed>, status: Status) -> Status
    ensures ok { OnOk written (result ≡ status) }
    ensures err { OnErr written (result ≡ Status.WriteFault) }
{
    match written {
        Ok(()) => status,
        Err(Failed) => Status::WriteFault,
    }
}
