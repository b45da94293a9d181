ghost use Rattle.std.specs.Prelude.{◌≡◌, true};
ghost use Rattle.mailbox_cli.specs.Lines.{fits};

/// Why a command was refused.
#[derive(Clone, Copy, Debug, PartialEq, Eq)]
pub enum Refusal {
    /// The words are not of the grammar.
    Words,
    /// There is no member.
    NotMade,
    /// There is a member already.
    AlreadyMade,
    /// The random bytes give no usable key.
    NoUsableKey,
    /// The bytes of the disk are no journal at this place.
    NotJournal(u64),
}

/// How a run ended: its status, and the refusal with status 2, 3 or 8.
#[derive(Clone, Copy, Debug, PartialEq, Eq)]
pub struct Ended {
    pub status: u8,
    pub refusal: Option<Refusal>,
    ghost fits: { fits status refusal ≡ true },
}

impl Ended {
    /// The command was carried out.
    pub(crate) const DONE: Ended = Ended {
        status: 0,
        refusal: None,
    };
    /// The disk failed.
    pub(crate) const DISK_FAULT: Ended = Ended {
        status: 4,
        refusal: None,
    };
    /// The mail folder failed.
    pub(crate) const POST_FAULT: Ended = Ended {
        status: 5,
        refusal: None,
    };
    /// The source of random bytes failed.
    pub(crate) const ENTROPY_FAULT: Ended = Ended {
        status: 6,
        refusal: None,
    };
    /// The output failed.
    pub(crate) const SINK_FAULT: Ended = Ended {
        status: 7,
        refusal: None,
    };
    /// Memory ran out.
    pub(crate) const NO_MEMORY: Ended = Ended {
        status: 9,
        refusal: None,
    };
}
