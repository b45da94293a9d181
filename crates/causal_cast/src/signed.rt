//! Who signed a message.

ghost use Rattle.std.specs.Prelude.{◌≡◌, ◌<◌, ◌↔◌, IsTrue, MatchOption, length};
ghost use Rattle.lms_sign.specs.Signatures.{leaf_number};
ghost use Rattle.group_messages.specs.Messages.{message_of};
ghost use Rattle.causal_cast.specs.Judging.{IsSignedUnder};

use group_fields::{CardView, HeaderView};
use lms_sign::verify;

// The number of the leaf that a signature states, where it is long enough to state one.
fn leaf_of(signature: &[u8]) -> Option<u32>
    ensures { MatchOption result (length signature.now < 4) (λ number. number ≡ leaf_number signature.now) }
{
    let (number, _) = signature.split_first_chunk::<4>()?;
    Some(u32::from_be_bytes(*number))
}

/// Whether the member of the card signed the message, with the leaf of its sequence number.
pub fn is_signed_under(card: &CardView<'_>, header: &HeaderView<'_>, signature: &[u8]) -> bool
    ensures { IsTrue result ↔ IsSignedUnder card.now (message_of header.now) signature.now }
{
    match leaf_of(signature) {
        Some(leaf) => {
            u64::from(leaf) + 1 == u64::from(header.seq())
                && verify(card.lms_public(), &header.id().0.0, signature)
        }
        None => false,
    }
}
