// Why an order cannot be carried out.
ghost use Rattle.std.specs.Prelude.{◌≡◌};
ghost use Rattle.order.specs.declared.fault.Fault.TheVariants.{Unread, Memory};

use line::expected::Expected;
use std::alloc::AllocFailed;
use thiserror::Error;

#[derive(Clone, Copy, PartialEq, Eq, Debug, Error)]
pub enum Fault {
    // the line cannot be read, or does not fit where it stands
    #[error(transparent)]
    Unread(Expected),
    #[error("there is no memory for the order")]
    Memory,
}

// Both conversions are by hand, since contracts read which fault `?` makes.
impl From<Expected> for Fault {
    ghost from_gives = { λ e r. r ≡ Unread e };

    fn from(expected: Expected) -> Fault {
        Fault::Unread(expected)
    }
}

impl<T: Drop> From<AllocFailed<T>> for Fault {
    ghost from_gives = { λ _ r. r ≡ Memory };

    fn from(_refused: AllocFailed<T>) -> Fault {
        Fault::Memory
    }
}
