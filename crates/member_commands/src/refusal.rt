ghost use Rattle.std.specs.Prelude.{◌≡◌};
ghost use Rattle.member_commands.specs.Refusing.{by_kem};
ghost use Rattle.member_commands.specs.declared.refusal.NotMade.TheVariants.{Memory as OutOfMemory};

use kem_trait::KemRefusal;
use std::alloc::AllocError;

/// Why no message was made.
#[derive(Clone, Copy, Debug, PartialEq, Eq)]
pub enum NotMade {
    /// The random bytes give no usable key for one of those whom the message is due to.
    NoUsableKey,
    /// A row of the history has the id of the message.
    Repeated,
    /// The history has more than 32 heads, or one of those whom the message is due to can't be reached. No member after
    /// steps has such a history or such a book.
    Unfit,
    /// An allocation was refused.
    Memory,
}

impl From<AllocError> for NotMade {
    ghost from_gives = { λ _ why. why ≡ OutOfMemory };

    fn from(_: AllocError) -> NotMade {
        NotMade::Memory
    }
}

impl From<KemRefusal> for NotMade {
    ghost from_gives = { λ refusal why. why ≡ by_kem refusal };

    fn from(refusal: KemRefusal) -> NotMade {
        match refusal {
            KemRefusal::NoUsableKey => NotMade::NoUsableKey,
            KemRefusal::Memory => NotMade::Memory,
        }
    }
}
