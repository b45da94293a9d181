ghost use Rattle.std.specs.Prelude.{◌≡◌, ◌++◌, ℕ, List, Ok};
ghost use Rattle.disk_trait.specs.Disk.{LeavesOnly};
ghost use Rattle.mailbox_cli.specs.Call.{Call, Carries, IsOpened, devices};
ghost use Rattle.mailbox_cli.specs.Receipts.{IsWritten, Reaches};
ghost use Rattle.mailbox_cli.specs.Runs.{Kept, Runs};
ghost use Rattle.mailbox_cli.specs.Steps.{Step, steps_of};
ghost use Rattle.mailbox_cli.specs.Story.{Event, steps_after};

use disk_trait::Disk;
use kem_trait::Kem;
use mail_trait::{Entropy, Post, Sink};

/// A law on calls over one disk, with crashes in them and between them: the steps at the end are those at the start,
/// and behind them in order those that were kept of each call.
pub fn steps_are_kept<K: Kem, D: Disk, P: Post, E: Entropy, S: Sink>()
    ensures { let on = devices ⟦<D as Disk>⟧ ⟦<P as Post>⟧ ⟦<E as Entropy>⟧ ⟦<S as Sink>⟧ in
        D.told → (start last : D) (runs : Runs ⟦<K as Kem>⟧ on start last) (steps : List Step) (image : List ℕ)
        → LeavesOnly (D.content start) (D.image start) → steps_of ⟦<K as Kem>⟧ (D.content start) ≡ Ok steps
        → D.image last image
        → (kept : List Step) × Kept ⟦<K as Kem>⟧ on runs kept × (steps_of ⟦<K as Kem>⟧ image ≡ Ok (steps ++ kept)) }
{}

/// A law on acknowledged steps: where a line was written whole, every crash after the call leaves the steps that were
/// planned before it, and with status 0 it leaves all planned steps.
pub fn acknowledged_steps_last<K: Kem, D: Disk, P: Post, E: Entropy, S: Sink>()
    ensures line { let on = devices ⟦<D as Disk>⟧ ⟦<P as Post>⟧ ⟦<E as Entropy>⟧ ⟦<S as Sink>⟧ in
        D.told → S.told → (call : Call D P E S) (carries : Carries ⟦<K as Kem>⟧ on call) (front : List Event)
        (image : List ℕ) → IsOpened carries.read front → IsWritten ⟦<K as Kem>⟧ on call carries front
        → D.image call.after.disk image
        → Reaches (steps_after carries.read front) (steps_of ⟦<K as Kem>⟧ image) }
    ensures status { let on = devices ⟦<D as Disk>⟧ ⟦<P as Post>⟧ ⟦<E as Entropy>⟧ ⟦<S as Sink>⟧ in
        D.told → (call : Call D P E S) (carries : Carries ⟦<K as Kem>⟧ on call) (image : List ℕ) → call.ended.status ≡ 0
        → IsOpened carries.read carries.events → D.image call.after.disk image
        → steps_of ⟦<K as Kem>⟧ image ≡ steps_after carries.read carries.events }
{}
