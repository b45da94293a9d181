//! What is drawn for parts.

ghost use Rattle.std.specs.Prelude.{◌≡◌, ◌≤◌, ◌∷◌, length, map, flat_map, All, Any, IsSome, IsErrOf, IfOk, Some};
ghost use Rattle.std.specs.Prelude.{None, bytes_eq, codes};
ghost use Rattle.std.specs.Vec.Iter.{into_iter_items, into_iter_len};
ghost use Rattle.kem_trait.specs.Words.{seed_words};
ghost use Rattle.hkdf_seal.specs.Keys.{kdf};
ghost use Rattle.group_keys.specs.Primitives.{primitives_of};
ghost use Rattle.two_party.specs.Drawn.{Drawn, ids_of, drawn_for, left_for, after_take, place_of, sources_for};

use group_fields::{MemberId, Memory};
use hkdf_seal::kdf;
use kem_trait::{Kem, KemRefusal, SeedWords};
use std::alloc::Global;
use std::marker::Model;
use std::vec::IntoIter;

/// What is drawn for one part: the sender's new pair, the receiver's new pair, and the seed of the encapsulation.
/// Contracts see the two pairs as bytes, and the seed.
#[derive(Drop)]
pub struct PartDraw<K: Kem> {
    pub(crate) own: K::Pair,
    pub(crate) other: K::Pair,
    pub(crate) encapsulation: [u8; 32],
}

impl<K: Kem> Model for PartDraw<K> {
    ghost use Rattle.group_model.specs.Pairing.{Draws};
    ghost use Rattle.group_parts.specs.KeyPairs.{pair_of};

    ghost Value = { Draws };

    ghost view = { λ draw. record {
      own = pair_of ⟦<K as Kem>⟧ (K.secret_key draw.own);
      other = pair_of ⟦<K as Kem>⟧ (K.secret_key draw.other);
      encapsulation = draw.encapsulation;
    } };
}

/// What was drawn for one id, until it is taken.
#[derive(Drop)]
struct DrawRow<K: Kem> {
    member: MemberId,
    draw: Option<PartDraw<K>>,
}

impl<K: Kem> Model for DrawRow<K> {
    ghost use Rattle.two_party.specs.Drawn.{Drawn};

    ghost Value = { Drawn };

    ghost view = { λ row. record { id = row.member.0.0; left = row.draw } };
}

impl<K: Kem> DrawRow<K> {
    /// Whether the row is that of a member.
    fn is_of(&self, member: &MemberId) -> bool
        ensures { result ≡ bytes_eq self.now.id member.now.0.0 }
    {
        self.member == *member
    }

    /// Takes what was drawn.
    fn take(&mut self) -> Option<PartDraw<K>>
        ensures value { result ≡ self.old.left }
        ensures after { self.new ≡ record { id = self.old.id; left = None } }
    {
        self.draw.take()
    }
}

/// What is drawn for the parts of one step, for each of a list of members. Contracts see a row for each, with its draws
/// until they are taken.
#[derive(Drop)]
pub struct PartDraws<K: Kem> {
    rows: Vec<DrawRow<K>>,
}

impl<K: Kem> Model for PartDraws<K> {
    ghost use Rattle.std.specs.Prelude.{List};
    ghost use Rattle.two_party.specs.Drawn.{Drawn};

    ghost Value = { List Drawn };

    ghost view = { λ draws. draws.rows.items };
}

/// How many rows stand before the first that is of a member.
fn place_of<K: Kem>(rows: &[DrawRow<K>], member: &MemberId) -> usize
    ensures place { result ≡ place_of rows.now member.now.0.0 }
    ensures most { result ≤ length rows.now }
{
    for i in 0..rows.len() {
        if rows[i].is_of(member) {
            return i;
        }
    }
    rows.len()
}

impl<K: Kem> PartDraws<K> {
    /// Takes what was drawn for a member. `None` exactly where the member was not in the list, or what was drawn for it
    /// was taken before.
    pub fn take(&mut self, to: &MemberId) -> Option<PartDraw<K>>
        ensures draw { result ≡ left_for self.old to.now.0.0 }
        ensures left { self.new ≡ after_take self.old to.now.0.0 }
    {
        let place = place_of::<K>(self.rows.as_slice(), to);
        if place == self.rows.len() {
            return None;
        }
        self.rows[place].take()
    }
}

/// The words of the pairs: for each member those of the own pair, and then those of the other's.
fn sources(alloc: Global, seed: &[u8; 32], to: &[MemberId]) -> Result<Vec<SeedWords>, Memory>
    ensures { IfOk result (λ sources. map seed_words sources.items ≡ flat_map (sources_for seed.now) (ids_of to.now)) }
{
    let mut sources = Vec::new(alloc);
    for member in to {
        sources.push(SeedWords::new(&kdf(seed, b"own", &member.0.0)))?;
        sources.push(SeedWords::new(&kdf(seed, b"other", &member.0.0)))?;
    }
    Ok(sources)
}

/// The draw of a member, with the next two pairs.
fn next_draw<K: Kem>(
    seed: &[u8; 32],
    member: &MemberId,
    pairs: &mut IntoIter<K::Pair, Global>,
) -> PartDraw<K>
    requires { 2 ≤ length (into_iter_items pairs.old) }
    ensures secrets { map K.secret_key (into_iter_items pairs.old)
        ≡ result.own.secret ∷ result.other.secret ∷ map K.secret_key (into_iter_items pairs.new) }
    ensures own { result.own.public ≡ K.public_in result.own.secret }
    ensures other { result.other.public ≡ K.public_in result.other.secret }
    ensures encapsulation { result.encapsulation ≡ kdf seed.now (codes "encap") member.now.0.0 }
{
    let own = pairs.next().unwrap();
    let other = pairs.next().unwrap();
    PartDraw {
        own,
        other,
        encapsulation: kdf(seed, b"encap", &member.0.0),
    }
}

/// The pairs of members, in the order of their words.
fn make_pairs<K: Kem>(
    alloc: Global,
    seed: &[u8; 32],
    to: &[MemberId],
) -> Result<Vec<K::Pair>, KemRefusal>
    ensures made { IfOk result (λ pairs. map (λ pair. Some (K.secret_key pair)) pairs.items
        ≡ map K.made (flat_map (sources_for seed.now) (ids_of to.now))) }
    ensures unusable { IsErrOf result KemRefusal.NoUsableKey
        → Any (λ row. row.left ≡ None) (drawn_for (primitives_of ⟦<K as Kem>⟧) seed.now (ids_of to.now)) }
{
    let mut words = sources(alloc, seed, to)?;
    match K::make_many(alloc, words.as_mut_slice()) {
        Ok(pairs) => Ok(pairs.into_vec()),
        Err(refusal) => Err(refusal),
    }
}

/// The rows of members, with the pairs that their words made.
fn rows_of<K: Kem>(
    alloc: Global,
    seed: &[u8; 32],
    to: &[MemberId],
    pairs: Vec<K::Pair>,
) -> Result<Vec<DrawRow<K>>, Memory>
    requires { map (λ pair. Some (K.secret_key pair)) pairs.items
        ≡ map K.made (flat_map (sources_for seed.now) (ids_of to.now)) }
    ensures drawn { IfOk result (λ rows. rows.items ≡ drawn_for (primitives_of ⟦<K as Kem>⟧) seed.now (ids_of to.now)) }
    ensures usable { IfOk result (λ rows. All (λ row. IsSome row.left) rows.items) }
{
    let mut pairs = pairs.into_iter();
    let mut rows = Vec::new(alloc);
    for member in to {
        let draw = next_draw::<K>(seed, member, &mut pairs);
        rows.push(DrawRow {
            member: *member,
            draw: Some(draw),
        })?;
    }
    Ok(rows)
}

/// Draws for the parts of one step, from its 32 random bytes, to each of the members: the sender's new pair from the
/// words of the key that the random bytes give under "own" and the member's id, the member's new pair likewise under
/// "other", and under "encap" the seed of the encapsulation. All pairs are made by one call.
///
/// `NoUsableKey` only where the words of some pair give no usable key; then no call with these random bytes and members
/// draws. `Memory` where an allocation was refused.
pub fn draw_parts<K: Kem>(
    alloc: Global,
    seed: &[u8; 32],
    to: &[MemberId],
) -> Result<PartDraws<K>, KemRefusal>
    ensures drawn { IfOk result (λ draws. draws ≡ drawn_for (primitives_of ⟦<K as Kem>⟧) seed.now (ids_of to.now)) }
    ensures usable { IfOk result (λ draws. All (λ row. IsSome row.left) draws) }
    ensures unusable { IsErrOf result KemRefusal.NoUsableKey
        → Any (λ row. row.left ≡ None) (drawn_for (primitives_of ⟦<K as Kem>⟧) seed.now (ids_of to.now)) }
{
    let pairs = make_pairs::<K>(alloc, seed, to)?;
    let rows = rows_of::<K>(alloc, seed, to, pairs)?;
    Ok(PartDraws { rows })
}
