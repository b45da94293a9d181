//! A group, and the headers of its first messages, each of which follows the one before it.
//!
//! They are made in rounds of one message of each member, the creator first; each round begins with the member after
//! the one that began the round before. An even round is an operation, the create in the first and then updates, which
//! the others acknowledge; an odd round is texts. All of it is valid: the creator is the inviter of the others, and each
//! card has the public key of a pair. What has no spelling is left empty: it shows in the digest that is printed.

ghost use Rattle.std.specs.Prelude.{◌<◌};

use group_fields::{
    Bytes, Card, Cards, Digest, GroupId, Header, HeaderView, Ids, Kind, MemberId, MessageId,
    Target, read_card, read_header, write_card, write_header,
};
use kem_trait::{Kem, KemRefusal, SeedWords};
use ntru_prime::Drill37;
use sha2::{Digest as Hasher, Sha256};
use std::alloc::{AllocError, Global};

/// How many bytes a public key of the group's set has.
const KEY: usize = 33;

const NOBODY: MemberId = MemberId(Digest([0; 32]));

/// How many members a group has, and how many messages each of them has made. A history names at most 32 ids, so where
/// one more is to be taken in there are 31 members.
#[derive(Clone, Copy)]
pub(crate) enum Size {
    /// 32 members with 4,000 messages.
    Full,
    /// 31 members with 1,984 messages.
    Half,
    /// 31 members with 3,968 messages.
    Whole,
}

impl Size {
    fn members(self) -> u8
        ensures { 0 < result }
    {
        match self {
            Size::Full => 32,
            Size::Half | Size::Whole => 31,
        }
    }

    fn messages(self) -> u32 {
        match self {
            Size::Full => 4000,
            Size::Half => 1984,
            Size::Whole => 3968,
        }
    }

    /// How many messages each member has made before the round of the message with a number.
    fn round(self, number: u32) -> u32 {
        number / u32::from(self.members())
    }

    /// How many messages each member has made.
    pub(crate) fn rounds(self) -> u32 {
        self.round(self.messages())
    }

    /// The kind of the message with a number.
    fn kind(self, number: u32) -> Kind {
        let is_first = number % u32::from(self.members()) == 0;
        match (self.round(number), is_first) {
            (0, true) => Kind::Create,
            (round, _) if round % 2 == 1 => Kind::Text,
            (_, true) => Kind::Update,
            (_, false) => Kind::Ack,
        }
    }

    /// The place of the sender of the message with a number, with that of the creator.
    fn place(self, creator: usize, number: u32) -> usize {
        let behind = self.round(number).wrapping_add(number);
        creator.wrapping_add(behind as usize) % usize::from(self.members())
    }
}

/// A member, with the bytes of its card.
#[derive(Drop)]
pub(crate) struct Member {
    pub(crate) id: MemberId,
    pub(crate) card: Bytes,
}

/// The members in the order of their ids, the creator among them, whose LMS public key was given, and the bytes of the
/// headers, oldest first.
#[derive(Drop)]
pub(crate) struct Group {
    pub(crate) size: Size,
    pub(crate) creator: MemberId,
    pub(crate) members: Vec<Member>,
    pub(crate) rows: Vec<Bytes>,
    kem_public: [u8; KEY],
    last: MessageId,
    operation: MessageId,
}

/// What a message says beside what it follows.
#[derive(Drop)]
struct Says {
    sender: MemberId,
    seq: u32,
    kind: Kind,
    target: Target,
    body: Digest,
}

/// An LMS public key of height 10 that nobody signs by.
pub(crate) fn key_of_nobody(number: u8) -> [u8; 56] {
    let mut key = [number; 56];
    key[..8].copy_from_slice(&[0, 0, 0, 6, 0, 0, 0, 3]);
    key
}

/// The public key of a pair. Zeros where the seed gives no usable key.
fn public_key(alloc: Global) -> Result<[u8; KEY], AllocError> {
    let mut public = [0; KEY];
    match Drill37::make(alloc, &mut SeedWords::new(&[1; 32])) {
        Ok(pair) => Drill37::public(&pair, &mut public),
        Err(KemRefusal::NoUsableKey) => {}
        Err(KemRefusal::Memory) => return Err(AllocError),
    }
    Ok(public)
}

/// The member with these keys that only the inviter may take in.
fn new_member(
    alloc: Global,
    inviter: MemberId,
    lms_public: &[u8; 56],
    kem_public: &[u8; KEY],
) -> Result<Member, AllocError> {
    let card = Card {
        set: Drill37::SET,
        lms_public: *lms_public,
        inviter,
        kem_public: Bytes::from(kem_public.to_vec(alloc)?),
    };
    let card = spelled_card(alloc, &card)?;
    let id = MemberId(Digest(Sha256::digest(card.as_slice())));
    Ok(Member { id, card })
}

fn spelled_card(alloc: Global, card: &Card) -> Result<Bytes, AllocError> {
    if card.has_spelling() {
        write_card(alloc, card)
    } else {
        Ok(Bytes::from(Vec::new(alloc)))
    }
}

fn spelled_header(alloc: Global, header: &Header) -> Result<Bytes, AllocError> {
    if header.has_spelling() {
        write_header(alloc, header)
    } else {
        Ok(Bytes::from(Vec::new(alloc)))
    }
}

/// The place of an id among the members.
fn place_of(members: &[Member], id: &MemberId) -> usize {
    members
        .iter()
        .position(|member| member.id == *id)
        .unwrap_or(0)
}

impl Group {
    /// The group of a size whose creator has this LMS public key.
    pub(crate) fn make(
        alloc: Global,
        size: Size,
        lms_public: &[u8; 56],
    ) -> Result<Group, AllocError> {
        let mut group = Group::found(alloc, size, lms_public)?;
        group.invite_all(alloc)?;
        for number in 0..size.messages() {
            group.put(alloc, number)?;
        }
        Ok(group)
    }

    /// The creator alone, whom nobody invited.
    fn found(alloc: Global, size: Size, lms_public: &[u8; 56]) -> Result<Group, AllocError> {
        let kem_public = public_key(alloc)?;
        let creator = new_member(alloc, NOBODY, lms_public, &kem_public)?;
        Ok(Group {
            size,
            creator: creator.id,
            members: vec![in alloc; creator]?,
            rows: Vec::new(alloc),
            kem_public,
            last: MessageId(Digest([0; 32])),
            operation: MessageId(Digest([0; 32])),
        })
    }

    /// A member by a number, whom the creator invites.
    pub(crate) fn invited(&self, alloc: Global, number: u8) -> Result<Member, AllocError> {
        new_member(
            alloc,
            self.creator,
            &key_of_nobody(number),
            &self.kem_public,
        )
    }

    /// Adds the members besides the creator.
    fn invite_all(&mut self, alloc: Global) -> Result<(), AllocError> {
        for number in 1..self.size.members() {
            let next = self.invited(alloc, number)?;
            self.members.push(next)?;
        }
        self.members.sort_by_key(|member| member.id)
    }

    /// The ids of the members.
    fn ids(&self, alloc: Global) -> Result<Ids, AllocError> {
        let mut ids = Ids::new(alloc);
        for member in self.members.as_slice() {
            ids.push(member.id.0)?;
        }
        Ok(ids)
    }

    /// The member whose turn it is to make the message with a number.
    fn sender(&self, number: u32) -> MemberId {
        let creator = place_of(self.members.as_slice(), &self.creator);
        match self.members.get(self.size.place(creator, number)) {
            Some(member) => member.id,
            None => NOBODY,
        }
    }

    /// The bytes of the header of a message that follows the last one.
    fn header(&self, alloc: Global, says: Says) -> Result<Bytes, AllocError> {
        let predecessors = match says.kind {
            Kind::Create => Ids::new(alloc),
            _ => Ids::from([self.last.0].to_vec(alloc)?),
        };
        let header = Header {
            set: Drill37::SET,
            group: GroupId(Digest([1; 32])),
            sender: says.sender,
            seq: says.seq,
            kind: says.kind,
            target: says.target,
            predecessors,
            body: says.body,
        };
        spelled_header(alloc, &header)
    }

    /// Makes the header of the message with a number.
    fn put(&mut self, alloc: Global, number: u32) -> Result<(), AllocError> {
        let kind = self.size.kind(number);
        let target = match kind {
            Kind::Create => Target::Members(self.ids(alloc)?),
            Kind::Ack => Target::Answer(self.operation, true),
            _ => Target::Nothing,
        };
        let says = Says {
            sender: self.sender(number),
            seq: self.size.round(number).wrapping_add(1),
            kind,
            target,
            body: Digest([0; 32]),
        };
        let row = self.header(alloc, says)?;
        self.last = MessageId(Digest(Sha256::digest(row.as_slice())));
        if kind == Kind::Create || kind == Kind::Update {
            self.operation = self.last;
        }
        self.rows.push(row)?;
        Ok(())
    }

    /// The header of the creator's next message, with this body.
    pub(crate) fn next(
        &self,
        alloc: Global,
        kind: Kind,
        target: Target,
        body: &[u8],
    ) -> Result<Bytes, AllocError> {
        let says = Says {
            sender: self.creator,
            seq: self.size.rounds().wrapping_add(1),
            kind,
            target,
            body: Digest(Sha256::digest(body)),
        };
        self.header(alloc, says)
    }

    /// The cards of the members.
    pub(crate) fn cards(&self, alloc: Global) -> Result<Cards, AllocError> {
        let mut cards = Cards::new(alloc);
        for member in self.members.as_slice() {
            if let Ok(card) = read_card(member.card.as_slice()) {
                cards.push(&card)?;
            }
        }
        Ok(cards)
    }

    /// The headers, read from their bytes.
    pub(crate) fn headers(&self, alloc: Global) -> Result<Vec<HeaderView<'_>>, AllocError> {
        let mut headers = Vec::new(alloc);
        for row in self.rows.as_slice() {
            if let Ok(header) = read_header(row.as_slice()) {
                headers.push(header)?;
            }
        }
        Ok(headers)
    }
}
