// How an append ends that goes no further.
ghost use Rattle.std.specs.Prelude.{◌≡◌, ◌≢◌, ◌≤◌, ◌+◌, ℕ, List, IfOk, IfErr, IsTrue, ◌↔◌, OnOk, OnErr, get_or, true, false};
ghost use Rattle.tier_device.specs.declared.media.Tier.{Tier};
ghost use Rattle.tier_device.specs.declared.media.Tier.TheVariants.{Fast};
ghost use Rattle.tier_device.specs.Media.{Keeps, Rose};
ghost use Rattle.tier_device.specs.StopsSince.{LeftSince};
ghost use Rattle.update_log.specs.declared.error.RegionError.TheVariants.{DeviceFault};
ghost use Rattle.update_log.specs.declared.format.TheConstants.{OPEN};
ghost use Rattle.update_log.specs.declared.stage.Stage.TheVariants as stages;
ghost use Rattle.update_log.specs.Frames.{with_record};
ghost use Rattle.update_log.specs.Stage.{IsAppending, IsUnopened};
ghost use Rattle.update_log.specs.View.{WithOrWithout, header_of, records_of, begun_of};

use crate::append::fence_closed;
use crate::error::RegionError;
use crate::region::Region;
use crate::stage::Stage;
use tier_device::Media;

impl<M: Media> Region<M> {
    /// Makes one device call, a fence, that settles an append which goes no further, and answers whether its record is in the region
    /// from then on: it is exactly if its gate is open, as a read gives it. Either way nothing is begun then, and the next record may
    /// be. It takes no memory.
    ///
    /// If the device fails, the record may stand in the region or not, and the region stays failed until it is reopened.
    pub fn settle(&mut self) -> Result<bool, RegionError>
        requires { IsAppending self.old.stage }
        ensures exact { IfOk result (λ whole. IsTrue whole ↔ (get_or (M.seen self.new.media Fast) self.old.end 0 ≡ OPEN)) }
        ensures appended { IfOk result (λ whole. whole ≡ true → records_of M.Media self.new ≡ with_record (records_of M.Media self.old) (begun_of self.old)) }
        ensures gone { IfOk result (λ whole. whole ≡ false → records_of M.Media self.new ≡ records_of M.Media self.old) }
        // At each moment of the call a stop leaves the records from before the append, with the begun one or without.
        ensures any_moment { (c : List ℕ) → LeftSince (M.left self.new.media) (M.moment self.new.media) (M.moment self.old.media) Fast c
            → WithOrWithout (header_of M.Media self.old) (records_of M.Media self.old) (begun_of self.old) c }

        ensures seen { OnOk result ((t : Tier) → M.seen self.new.media t ≡ M.seen self.old.media t) }
        ensures stage { OnOk result (self.new.stage ≡ stages.Resting) }
        ensures unanswered { OnErr result ((records_of M.Media self.new ≡ records_of M.Media self.old) × (begun_of self.new ≡ begun_of self.old)) }
        ensures same_header { header_of M.Media self.new ≡ header_of M.Media self.old }
        ensures one_call { OnOk result (M.moment self.new.media ≡ M.moment self.old.media + 1) }
        ensures at_most { M.moment self.new.media ≤ M.moment self.old.media + 1 }
        ensures past { Keeps (M.moment self.old.media) (M.moment self.new.media) (M.left self.old.media) (M.left self.new.media) }
        ensures only { IfErr result (λ e. e ≡ DeviceFault) }
        ensures failed { OnErr result (self.new.stage ≡ stages.Failed) }
        ensures fault { OnErr result (Rose (M.faults self.old.media) (M.faults self.new.media)) }
        ensures sound { OnOk result (M.faults self.new.media ≡ M.faults self.old.media) }
        ensures faults { (M.faults self.old.media ≤ M.faults self.new.media) × (M.faults self.new.media ≤ M.faults self.old.media + 1) }
    {
        if self.stage == Stage::Opened {
            match self.keep() {
                Ok(()) => Ok(true),
                Err(error) => Err(error),
            }
        } else {
            match self.give_up() {
                Ok(()) => Ok(false),
                Err(error) => Err(error),
            }
        }
    }

    // The same, of an append whose gate is open: its record is kept.
    fn keep(&mut self) -> Result<(), RegionError>
        requires { self.old.stage ≡ stages.Opened }
        ensures gate { OnOk result (get_or (M.seen self.new.media Fast) self.old.end 0 ≡ OPEN) }
        ensures appended { OnOk result (records_of M.Media self.new ≡ with_record (records_of M.Media self.old) (begun_of self.old)) }
        // At each moment of the call a stop leaves the records from before the append, with the begun one or without.
        ensures any_moment { (c : List ℕ) → LeftSince (M.left self.new.media) (M.moment self.new.media) (M.moment self.old.media) Fast c
            → WithOrWithout (header_of M.Media self.old) (records_of M.Media self.old) (begun_of self.old) c }

        ensures seen { OnOk result ((t : Tier) → M.seen self.new.media t ≡ M.seen self.old.media t) }
        ensures stage { OnOk result (self.new.stage ≡ stages.Resting) }
        ensures unanswered { OnErr result ((records_of M.Media self.new ≡ records_of M.Media self.old) × (begun_of self.new ≡ begun_of self.old)) }
        ensures same_header { header_of M.Media self.new ≡ header_of M.Media self.old }
        ensures one_call { OnOk result (M.moment self.new.media ≡ M.moment self.old.media + 1) }
        ensures at_most { M.moment self.new.media ≤ M.moment self.old.media + 1 }
        ensures past { Keeps (M.moment self.old.media) (M.moment self.new.media) (M.left self.old.media) (M.left self.new.media) }
        ensures only { IfErr result (λ e. e ≡ DeviceFault) }
        ensures failed { OnErr result (self.new.stage ≡ stages.Failed) }
        ensures fault { OnErr result (Rose (M.faults self.old.media) (M.faults self.new.media)) }
        ensures sound { OnOk result (M.faults self.new.media ≡ M.faults self.old.media) }
        ensures faults { (M.faults self.old.media ≤ M.faults self.new.media) × (M.faults self.new.media ≤ M.faults self.old.media + 1) }
    {
        // For the proof: a read gives the gate open.
        self.left_now();
        match self.step() {
            Ok(_) => Ok(()),
            Err(error) => Err(error),
        }
    }

    // The same, of an append whose gate is not open: its record is in the region at no time.
    fn give_up(&mut self) -> Result<(), RegionError>
        requires { IsUnopened self.old.stage }
        ensures gate { OnOk result (get_or (M.seen self.new.media Fast) self.old.end 0 ≢ OPEN) }
        ensures gone { OnOk result (records_of M.Media self.new ≡ records_of M.Media self.old) }
        // At each moment of the call a stop leaves the records from before the append, with the begun one or without.
        ensures any_moment { (c : List ℕ) → LeftSince (M.left self.new.media) (M.moment self.new.media) (M.moment self.old.media) Fast c
            → WithOrWithout (header_of M.Media self.old) (records_of M.Media self.old) (begun_of self.old) c }

        ensures seen { OnOk result ((t : Tier) → M.seen self.new.media t ≡ M.seen self.old.media t) }
        ensures stage { OnOk result (self.new.stage ≡ stages.Resting) }
        ensures unanswered { OnErr result ((records_of M.Media self.new ≡ records_of M.Media self.old) × (begun_of self.new ≡ begun_of self.old)) }
        ensures same_header { header_of M.Media self.new ≡ header_of M.Media self.old }
        ensures one_call { OnOk result (M.moment self.new.media ≡ M.moment self.old.media + 1) }
        ensures at_most { M.moment self.new.media ≤ M.moment self.old.media + 1 }
        ensures past { Keeps (M.moment self.old.media) (M.moment self.new.media) (M.left self.old.media) (M.left self.new.media) }
        ensures only { IfErr result (λ e. e ≡ DeviceFault) }
        ensures failed { OnErr result (self.new.stage ≡ stages.Failed) }
        ensures fault { OnErr result (Rose (M.faults self.old.media) (M.faults self.new.media)) }
        ensures sound { OnOk result (M.faults self.new.media ≡ M.faults self.old.media) }
        ensures faults { (M.faults self.old.media ≤ M.faults self.new.media) × (M.faults self.new.media ≤ M.faults self.old.media + 1) }
    {
        self.has_content = false;
        match fence_closed(&mut self.media, self.stage, self.end, self.body.as_slice()) {
            Ok(()) => {
                self.stage = Stage::Resting;
                Ok(())
            }
            Err(_) => {
                self.stage = Stage::Failed;
                Err(RegionError::DeviceFault)
            }
        }
    }
}
