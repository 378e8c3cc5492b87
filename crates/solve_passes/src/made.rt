//! A pass that was made.

ghost use Rattle.std.specs.Prelude.{◌≡◌, ◌<◌, ◌^◌, Some, None, false};
ghost use Rattle.solve_passes.specs.Ongoing as ongoing;

use crate::progress::{Counts, Printing};
use pass_ends::PassEnd;
use pass_over::AnnouncedEnd;

/// A pass that was made, and what it announced.
#[derive(Debug, Drop)]
pub struct Made {
    pub end: PassEnd,
    /// `None` where costs are not announced.
    pub counts: Option<Counts>,
    /// Whether a write of an announced cost failed.
    pub failed: bool,
}

/// Whether costs are announced.
pub(crate) fn announces(printing: Printing) -> bool
    ensures { result ≡ ongoing.announces printing }
{
    match printing {
        Printing::All { announce } => announce,
        Printing::VerdictAlone => false,
    }
}

/// A pass that announced costs.
pub(crate) fn made_by(ended: AnnouncedEnd) -> Made
    ensures made { result ≡ record { end = ended.end; counts = Some (record { announced = ended.announced; refused = ended.refused }); failed = ended.failed } }
    ensures words { ended.refused < 2 ^ 64 }
{
    let AnnouncedEnd {
        end,
        last: _,
        announced,
        refused,
        failed,
    } = ended;
    Made {
        end,
        counts: Some(Counts { announced, refused }),
        failed,
    }
}

/// A pass that announced nothing.
pub(crate) fn made_silently(end: PassEnd) -> Made
    ensures { result ≡ record { end = end; counts = None; failed = false } }
{
    Made {
        end,
        counts: None,
        failed: false,
    }
}
