// Why a message was not read or written.
use counted_io::WriteFault;
use message_reading::{Fault, MessageFault};
use std::alloc::AllocError;

/// Why a message was not read or written.
#[derive(Clone, Copy, Drop, PartialEq, Eq)]
pub enum WireFault {
    /// A growth was refused.
    Memory = 1,
    /// The reader failed.
    Read = 2,
    /// The writer failed.
    Write = 3,
    /// The bytes end inside the message.
    Early = 4,
    /// A part of the message has not its form.
    Malformed = 5,
    /// The head, or the lines behind a chunked body, pass their limits.
    HeadTooLarge = 6,
    /// The body has more than 8,388,608 bytes.
    BodyTooLarge = 7,
    /// The body has another coding than `chunked`.
    Coding = 8,
    /// The message says the length of its body in both ways.
    BothLengths = 9,
    /// The message took 100,000,000 reads.
    TurnLimit = 10,
    /// The method isn't served.
    Method = 11,
    /// Bytes of the body were refused by the memory that they were asked of.
    Bodies = 12,
}

impl From<Fault> for WireFault {
    ghost use Rattle.std.specs.Prelude.{◌≡◌};
    ghost use Rattle.wire.specs.Fault.{of_bytes};

    ghost from_gives = { λ own fault. fault ≡ of_bytes own };

    fn from(own: Fault) -> WireFault {
        match own {
            Fault::Early => WireFault::Early,
            Fault::Malformed => WireFault::Malformed,
            Fault::HeadTooLarge => WireFault::HeadTooLarge,
            Fault::BodyTooLarge => WireFault::BodyTooLarge,
            Fault::Coding => WireFault::Coding,
            Fault::BothLengths => WireFault::BothLengths,
            Fault::Method => WireFault::Method,
        }
    }
}

impl From<MessageFault> for WireFault {
    ghost use Rattle.std.specs.Prelude.{◌≡◌};
    ghost use Rattle.wire.specs.Fault.{of_read};

    ghost from_gives = { λ read fault. fault ≡ of_read read };

    fn from(read: MessageFault) -> WireFault {
        match read {
            MessageFault::Memory => WireFault::Memory,
            MessageFault::Read => WireFault::Read,
            MessageFault::TurnLimit => WireFault::TurnLimit,
            MessageFault::Bodies => WireFault::Bodies,
            MessageFault::Bytes(own) => own.into(),
        }
    }
}

impl From<WriteFault> for WireFault {
    ghost use Rattle.std.specs.Prelude.{◌≡◌};
    ghost use Rattle.wire.specs.declared.fault.WireFault.TheVariants.{Write};

    ghost from_gives = { λ _ fault. fault ≡ Write };

    fn from(_: WriteFault) -> WireFault {
        WireFault::Write
    }
}

impl From<AllocError> for WireFault {
    ghost use Rattle.std.specs.Prelude.{◌≡◌};
    ghost use Rattle.wire.specs.declared.fault.WireFault.TheVariants.{Memory};

    ghost from_gives = { λ _ fault. fault ≡ Memory };

    fn from(_: AllocError) -> WireFault {
        WireFault::Memory
    }
}
