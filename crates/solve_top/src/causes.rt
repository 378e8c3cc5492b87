//! Why there is nothing to work on.

use dp_base::Place;

/// Why there is nothing to work on. File 1 is the domain, 2 the problem, and 3 the list of steps or the certificate.
#[derive(Debug, Drop)]
pub enum NoModel {
    ReadFault(u8),
    TooLong(u8),
    /// The number of the rule that a text breaks, and where; in an expression `offset` is the byte in it.
    Refused {
        number: u8,
        place: Place,
        offset: Option<u32>,
    },
    Memory,
}
