//! First refusals of a member in no group, and of nobody yet.
ghost use Rattle.member_checks.specs.Inputs.{HasSpelledCards};

use crate::{Seat, first_refusal, refusal_before_made};
use causal_cast::Verdict;
use causal_history::History;
use group_fields::{Digest, MemberId};
use member_view::RemoveWins;
use ntru_prime::Drill37;
use reference_member::{Input, Refusal};
use std::alloc::Global;
use std::test::Fail;

const ME: MemberId = MemberId(Digest([7; 32]));

const NOBODY: MemberId = MemberId(Digest([0; 32]));

/// The first refusal of a member in no group.
fn refused(alloc: Global, input: &Input<'_>) -> Result<Option<Refusal>, Fail>
    requires { HasSpelledCards input.now }
{
    let history = History::new(alloc);
    let seat = Seat {
        history: &history,
        me: ME,
        inviter: NOBODY,
        height: 5,
    };
    Ok(first_refusal::<Drill37, RemoveWins>(alloc, &seat, input)?)
}

/// The refusal where there is no member.
fn before_made(input: &Input<'_>) -> Option<Refusal> {
    refusal_before_made::<Drill37, RemoveWins>(input)
}

#[test]
fn who_is_in_no_group_is_refused(rt: HostRuntime) -> Result<(), Fail> {
    let alloc = rt.alloc();
    let malformed = Refusal::Packet(Verdict::Malformed(0));
    let rows = [
        (
            refused(alloc, &Input::Init(NOBODY, 5))?,
            Some(Refusal::AlreadyMade),
        ),
        (refused(alloc, &Input::Update)?, Some(Refusal::NotJoined)),
        (
            refused(alloc, &Input::Send(b"hello"))?,
            Some(Refusal::NotJoined),
        ),
        (
            refused(alloc, &Input::Remove(ME))?,
            Some(Refusal::NotJoined),
        ),
        (refused(alloc, &Input::Packet(b""))?, Some(malformed)),
        (before_made(&Input::Init(NOBODY, 5)), None),
        (before_made(&Input::Update), Some(Refusal::NotMade)),
    ];
    for (found, wanted) in rows.iter() {
        assert_eq!(rt; *found, *wanted);
    }
    Ok(())
}
