// Why there is no table to answer for: a text's own error, of a lower crate, has a place where this has a fault.
ghost use Rattle.std.specs.Prelude.{◌≡◌};
ghost use Rattle.console.specs.declared.stop.Stop.TheVariants.{Memory, Refused};

use std::alloc::AllocError;
use tables::fault::Fault;
use texts::TextPlace;

#[derive(Drop)]
pub(crate) enum Stop {
    // want of memory
    Memory,
    Refused(Fault<TextPlace>),
}

impl From<AllocError> for Stop {
    ghost from_gives = { λ _ r. r ≡ Memory };

    fn from(_e: AllocError) -> Stop {
        Stop::Memory
    }
}

impl From<Fault<TextPlace>> for Stop {
    ghost from_gives = { λ f r. r ≡ Refused f };

    fn from(fault: Fault<TextPlace>) -> Stop {
        Stop::Refused(fault)
    }
}
