ghost use Rattle.std.specs.Prelude.{◌≡◌, ◌≤◌, length, IfErr};
ghost use Rattle.group_fields.specs.Fields.{place_of};
ghost use Rattle.group_fields.specs.declared.header.Kind.TheVariants.{Create};
ghost use Rattle.group_fields.specs.HeaderViews.{target_of};
ghost use Rattle.group_fields.specs.LayoutReads.{Takes, read_whole, whole_seen};
ghost use Rattle.wire_codec.specs.Packets.{add_body, body, create_body, greatest_size, member_named, members_named};
ghost use Rattle.wire_codec.specs.Packets.{parts_body, text_body};
ghost use Rattle.wire_codec.specs.Readings.{IsIn};
ghost use Rattle.wire_codec.specs.Views.{body_seen, created, parts_seen, text_seen, welcome_of};

use crate::cards::{CardsView, take_card_named, take_cards_named};
use crate::history::{HistoryView, take_history};
use crate::parts::{PartsView, take_part, take_parts};
use crate::text::{TextView, take_text};
use group_fields::{
    CardView, Cursor, Digest, FieldFault, HeaderView, IdsView, Kind, MemberId, TargetView, end,
};

// The most parts of a message, and of one that acknowledges an add.
const GREATEST_PARTS: u8 = 31;

const GREATEST_PARTS_OF_ADD_ACK: u8 = 1;

// What the body of an add has, lent out of its packet.
#[derive(Debug, Drop)]
pub struct WelcomeView<'a> {
    pub(crate) card: CardView<'a>,
    pub(crate) to: MemberId,
    pub(crate) part: &'a [u8],
    pub(crate) history: HistoryView<'a>,
}

// What the body of a create has, lent out of its packet.
#[derive(Debug, Drop)]
pub struct CreateView<'a> {
    pub(crate) cards: CardsView<'a>,
    pub(crate) parts: PartsView<'a>,
}

// What a message carries beside its header, lent out of its packet.
#[derive(Debug, Drop)]
pub enum BodyView<'a> {
    Create(CreateView<'a>),
    Parts(PartsView<'a>),
    Add(WelcomeView<'a>),
    Text(TextView<'a>),
}

// The cards of the members of a new group, and parts.
#[tactic(auto, unfolding(crate::specs::Packets::create_body, group_fields::specs::LayoutReads::read))]
fn take_create<'a>(
    cursor: &mut Cursor<'a>,
    set: u8,
    ids: &IdsView<'_>,
) -> Result<CreateView<'a>, FieldFault>
    requires within { IsIn greatest_size cursor.old }
    requires least { 1 ≤ set }
    requires greatest { set ≤ 2 }
    requires few { length ids.now ≤ 32 }
    ensures { Takes created (create_body set ids.now) cursor.old cursor.new result }
{
    let cards = take_cards_named(cursor, set, ids)?;
    let parts = take_parts(cursor, set, GREATEST_PARTS)?;
    Ok(CreateView { cards, parts })
}

// The card of the member that is added, its part, and the history.
#[tactic(auto, unfolding(crate::specs::Packets::add_body, group_fields::specs::LayoutReads::read))]
fn take_add<'a>(
    cursor: &mut Cursor<'a>,
    set: u8,
    to: MemberId,
) -> Result<WelcomeView<'a>, FieldFault>
    requires within { IsIn greatest_size cursor.old }
    requires least { 1 ≤ set }
    requires greatest { set ≤ 2 }
    ensures { Takes welcome_of (add_body set to) cursor.old cursor.new result }
{
    let card = take_card_named(cursor, set, to.0)?;
    let part = take_part(cursor, set)?;
    let history = take_history(cursor, set)?;
    Ok(WelcomeView {
        card,
        to,
        part,
        history,
    })
}

// Parts alone, at most so many.
#[tactic(auto, unfolding(crate::specs::Packets::parts_body, group_fields::specs::LayoutReads::read))]
fn take_parts_alone<'a>(
    cursor: &mut Cursor<'a>,
    set: u8,
    greatest: u8,
) -> Result<PartsView<'a>, FieldFault>
    requires { IsIn greatest_size cursor.old }
    ensures { Takes parts_seen (parts_body set greatest) cursor.old cursor.new result }
{
    let parts = take_parts(cursor, set, greatest)?;
    Ok(parts)
}

// A text alone.
#[tactic(auto, unfolding(crate::specs::Packets::text_body, group_fields::specs::LayoutReads::read))]
fn take_text_alone<'a>(cursor: &mut Cursor<'a>) -> Result<TextView<'a>, FieldFault>
    requires { IsIn greatest_size cursor.old }
    ensures { Takes text_seen text_body cursor.old cursor.new result }
{
    let text = take_text(cursor)?;
    Ok(text)
}

// The member that an add names.
fn member_named(target: &TargetView<'_>) -> MemberId
    ensures { result ≡ member_named (target_of target.now) }
{
    match target {
        TargetView::Member(id) => *id,
        TargetView::Members(_) | TargetView::Nothing | TargetView::Answer(_, _) => {
            MemberId(Digest([0; 32]))
        }
    }
}

// The body of a create, by the members that it names.
fn take_named<'a>(
    cursor: &mut Cursor<'a>,
    header: &HeaderView<'_>,
) -> Result<CreateView<'a>, FieldFault>
    requires within { IsIn greatest_size cursor.old }
    requires kind { header.now.kind ≡ Create }
    ensures { Takes created (create_body header.now.set (members_named header.now.target)) cursor.old cursor.new
        result }
{
    let _ = header.bytes();
    match header.target() {
        TargetView::Members(ids) => take_create(cursor, header.set(), &ids),
        TargetView::Nothing | TargetView::Member(_) | TargetView::Answer(_, _) => unreachable!(),
    }
}

// The fields of the body behind a header.
fn take_body<'a>(
    cursor: &mut Cursor<'a>,
    header: &HeaderView<'_>,
) -> Result<BodyView<'a>, FieldFault>
    requires { IsIn greatest_size cursor.old }
    ensures { Takes body_seen (body header.now.set header.now.kind header.now.target) cursor.old cursor.new result }
{
    let _ = header.bytes();
    let set = header.set();
    match header.kind() {
        Kind::Create => Ok(BodyView::Create(take_named(cursor, header)?)),
        Kind::Add => {
            let to = member_named(&header.target());
            Ok(BodyView::Add(take_add(cursor, set, to)?))
        }
        Kind::Text => Ok(BodyView::Text(take_text_alone(cursor)?)),
        Kind::AddAck => {
            let parts = take_parts_alone(cursor, set, GREATEST_PARTS_OF_ADD_ACK)?;
            Ok(BodyView::Parts(parts))
        }
        Kind::Update | Kind::Remove | Kind::Ack => {
            let parts = take_parts_alone(cursor, set, GREATEST_PARTS)?;
            Ok(BodyView::Parts(parts))
        }
    }
}

// The body behind a header, and nothing may be left over.
pub(crate) fn read_body<'a>(
    bytes: &'a [u8],
    header: &HeaderView<'_>,
) -> Result<BodyView<'a>, FieldFault>
    requires { length bytes.now ≤ greatest_size }
    ensures exact { read_whole (body header.now.set header.now.kind header.now.target) 0 bytes.now
        ≡ whole_seen body_seen result }
    ensures within { IfErr result (λ fault. place_of fault ≤ length bytes.now) }
{
    let mut cursor = Cursor::new(bytes);
    let body = take_body(&mut cursor, header)?;
    end(&mut cursor)?;
    Ok(body)
}
