// One leaf, for one message.

ghost use Rattle.std.specs.Prelude.{◌≡◌, ◌<◌, ◌^◌};
ghost use Rattle.lms_sign.specs.Leaves.{LeafValue, leaves_of};

use group_fields::MessageId;
use std::marker::Model;

/// A leaf of a tree, made to sign one message. It can't be dropped: `Tree::sign` or `discard` takes it.
pub struct Leaf {
    number: u32,
    message: MessageId,
    public: [u8; 56],
}

impl Model for Leaf {
    ghost use Rattle.std.specs.Prelude.{◌<◌};
    ghost use Rattle.lms_sign.specs.Leaves.{LeafValue, leaves_of};

    ghost Value = { LeafValue };

    ghost view = { λ l. record { number = l.number; message = l.message.0.0; public = l.public } };

    ghost invariant = { λ l. l.number < leaves_of l.public };
}

impl Leaf {
    // A leaf of the tree with this public key.
    pub(crate) fn new(number: u32, message: MessageId, public: [u8; 56]) -> Leaf
        requires { number < leaves_of public }
        ensures { result ≡ record { number = number; message = message.0.0; public = public } }
    {
        Leaf {
            number,
            message,
            public,
        }
    }

    // The leaf's number and message, for its one signature.
    pub(crate) fn spend(self) -> (u32, [u8; 32])
        ensures number { result.0 ≡ self.number }
        ensures message { result.1 ≡ self.message }
        ensures within { result.0 < leaves_of self.public }
    {
        let Leaf {
            number,
            message,
            public: _,
        } = self;
        let bytes = message.0.0;
        (number, bytes)
    }

    /// Gives the leaf up unused.
    pub fn discard(self) {
        let Leaf {
            number: _,
            message: _,
            public: _,
        } = self;
    }
}
