ghost use Rattle.std.specs.Prelude.{◌≡◌, ◌++◌, ◌∷◌, [], ℕ, List, true, false, None, Some, IfSome, is_some};
ghost use Rattle.std.specs.Option.{ForSome};
ghost use Rattle.posix_calls.specs.declared.call.Reply.TheVariants as replies;
ghost use Rattle.posix_calls.specs.declared.errno.Errno.TheVariants.{IoError};
ghost use Rattle.client_log.specs.update_log.Stage.{calls_left, next, progress};
ghost use Rattle.client_log.specs.update_log.Calls.{ShowsCall};
ghost use Rattle.client_log.specs.update_log.declared.stage.Progress.TheVariants.{Going, Appended};
ghost use Rattle.client_log.specs.update_log.declared.stage.Stage.TheVariants as stages;
ghost use Rattle.client_log.specs.Calls.{IsMoved, IsMovedOnce};
ghost use Rattle.client_log.specs.Counts.{AreLeft, CountOf};
ghost use Rattle.client_log.specs.View.{current_records};
ghost use Rattle.client_view.specs.KnowledgeTables.{knows};
ghost use Rattle.client_view.specs.AfterRecord.{knows_logged, without_made, without_touched};
ghost use Rattle.client_view.specs.Preparation.{IsPreparedFor};
ghost use Rattle.libfs.specs.View.{is_pending};
ghost use Rattle.libfs.specs.CallStep.{IsGoing, HasReplied, HasFailed, call_answer};

use crate::begun_record::Begun;
use crate::client::Client;
use client_log::in_update_log::Progress;
use client_view::{ClientCopies, OwnRecords};
use posix_calls::{Errno, Reply};
use tier_device::Media;

impl<M: Media> Client<M> {
    /// Makes one device call for the call that waits for its answer. The fourth that succeeds ends it: its record is kept, the client knows what that left, and the call is answered. A
    /// device that fails ends it at once with EIO, and its record stays begun. It takes no memory.
    pub fn step(&mut self) -> Option<Reply>
        requires { is_pending self.old ≡ true }

        // At each moment of the call what counted before it counts, with the begun record or without.
        ensures any_moment { (regions : ℕ → List ℕ) → AreLeft M.Media self.old.log self.new.log regions → CountOf self.old.log.generation (is_some self.old.log.other) (current_records M.Media self.old.log) self.old.log.current.begun regions }

        ensures going { self.new.log.failed ≡ false → progress self.old.log.current.stage ≡ Going → IsGoing M.Media self.old result self.new }
        ensures replied { self.new.log.failed ≡ false → progress self.old.log.current.stage ≡ Appended → IfSome self.old.begun (λ b. HasReplied M.Media self.old b result self.new) }
        ensures failed { self.new.log.failed ≡ true → HasFailed M.Media self.old result self.new }

        // What the device call does, and that it is one; a log that has failed before makes none.
        ensures shown { self.new.log.failed ≡ false → ShowsCall self.old.log.current.stage self.old.log.current.end self.old.log.current.begun (M.seen self.old.log.current.media) (M.seen self.new.log.current.media) }
        ensures moved { self.old.log.failed ≡ false → IsMovedOnce M.Media self.old.log.current self.new.log.current (call_answer self.new.log.failed) }
        ensures stage { self.new.log.failed ≡ false → self.new.log.current.stage ≡ next self.old.log.current.stage }
        ensures stage_failed { self.old.log.failed ≡ false → self.new.log.failed ≡ true → self.new.log.current.stage ≡ stages.Failed }
        ensures rest { self.new.log ≡ record self.old.log { current = self.new.log.current; failed = self.new.log.failed } }
        ensures stays_failed { self.old.log.failed ≡ true → self.new.log ≡ self.old.log }
    {
        match self.log.step() {
            Ok(Progress::Going) => None,
            Ok(Progress::Appended) => Some(keep_record(
                &mut self.begun,
                &mut self.copies,
                &mut self.records,
            )),
            Err(_) => {
                self.answered = true;
                Some(fault_reply())
            }
        }
    }

    /// Makes all device calls that are left for the call that waits for its answer, one after the other, each as `step` does, and answers it: where all succeed its record is kept, and the
    /// client knows what that left. A device that fails ends it at once with EIO, no further call is made, and the record stays begun. It takes no memory.
    pub fn finish(&mut self) -> Reply
        requires { is_pending self.old ≡ true }

        // At each moment of the calls what counted before them counts, with the begun record or without.
        ensures any_moment { (regions : ℕ → List ℕ) → AreLeft M.Media self.old.log self.new.log regions → CountOf self.old.log.generation (is_some self.old.log.other) (current_records M.Media self.old.log) self.old.log.current.begun regions }

        ensures replied { self.new.log.failed ≡ false → IfSome self.old.begun (λ b. HasReplied M.Media self.old b (Some result) self.new) }
        ensures failed { self.new.log.failed ≡ true → HasFailed M.Media self.old (Some result) self.new }

        // How many device calls it makes; a log that has failed before makes none.
        ensures moved { self.old.log.failed ≡ false → IsMoved M.Media (calls_left self.old.log.current.stage) self.old.log.current self.new.log.current (call_answer self.new.log.failed) }
        ensures stage { self.new.log.failed ≡ false → self.new.log.current.stage ≡ stages.Resting }
        ensures stage_failed { self.old.log.failed ≡ false → self.new.log.failed ≡ true → self.new.log.current.stage ≡ stages.Failed }
        ensures rest { self.new.log ≡ record self.old.log { current = self.new.log.current; failed = self.new.log.failed } }
        ensures stays_failed { self.old.log.failed ≡ true → self.new.log ≡ self.old.log }
    {
        match self.log.finish() {
            Ok(()) => keep_record(&mut self.begun, &mut self.copies, &mut self.records),
            Err(_) => {
                self.answered = true;
                fault_reply()
            }
        }
    }
}

// The begun record is kept: it counts among the client's, which knows what it left, and its call has this reply. It is put into its callers, so that what is begun is not moved once more.
#[inline(always)]
pub(crate) fn keep_record(
    begun: &mut Option<Begun>,
    copies: &mut ClientCopies,
    records: &mut OwnRecords,
) -> Reply
    requires begun { is_some begun.old ≡ true }
    requires prepared { ForSome begun.old (λ b. IsPreparedFor (knows copies.old) b.change) }
    requires room { records.old.has_room ≡ true }
    ensures none { begun.new ≡ None }
    ensures reply { IfSome begun.old (λ b. result ≡ b.reply) }
    ensures known { IfSome begun.old (λ b. knows copies.new ≡ knows_logged (knows copies.old) b.change.logged.effects b.change.made b.change.descriptor) }
    ensures order { IfSome begun.old (λ b. copies.new.blocks ≡ without_touched (without_made copies.old.blocks b.change.made) b.change.logged.effects) }
    ensures pushed { IfSome begun.old (λ b. records.new.current ≡ records.old.current ++ b.change.logged ∷ []) }
    ensures away { records.new.away ≡ records.old.away }
{
    match begun {
        Some(begun) => copies.commit(&mut begun.change),
        None => unreachable!(),
    }
    match begun.take() {
        Some(Begun { change, reply }) => {
            records.push(change.logged);
            reply
        }
        None => unreachable!(),
    }
}

// A device failed.
fn fault_reply() -> Reply
    ensures { result ≡ replies.Failed IoError }
{
    Reply::Failed {
        errno: Errno::IoError,
    }
}
