ghost use Rattle.std.specs.Prelude.{◌≡◌};

/// How far an append or a wipe has come.
#[derive(Clone, Copy, PartialEq, Eq)]
pub enum Stage {
    /// Nothing is begun: the gate behind the records is closed, and nothing is pending on the device.
    Resting,
    /// Behind the records stands an open gate that no record follows: nothing can be begun here.
    Foreign,
    /// A record is begun: its bytes are to be written next.
    Begun,
    /// Its bytes are written, and are to be fenced next.
    Written,
    /// Its bytes are kept, and its gate is to be opened next.
    Kept,
    /// Its gate is open, and is to be fenced next.
    Opened,
    /// A device call of the append failed: only reopening leads on.
    Failed,
    /// A wipe has written the first gate closed, and is to fence it next.
    Closing,
    /// The first gate is kept closed: the wipe is to write the generation next.
    Closed,
    /// The generation is written, and the wipe is to fence it next.
    Naming,
    /// A device call of the wipe failed: only reopening leads on.
    WipeFailed,
}

/// How far one device call has brought an append.
#[derive(Clone, Copy, PartialEq, Eq)]
pub enum Progress {
    /// Further calls are needed.
    Going,
    /// The record is appended, and every stop from now on leaves it.
    Appended,
}

/// How far one device call has brought a wipe.
#[derive(Clone, Copy, PartialEq, Eq)]
pub enum WipeProgress {
    /// Further calls are needed.
    Going,
    /// The region is wiped, and every stop from now on leaves it so.
    Wiped,
}

impl Stage {
    ghost use Rattle.update_log.specs.Stage.{next, progress};
    ghost use Rattle.update_log.specs.Wipe.{wipe_progress};

    // The stage after a device call that succeeds.
    pub(crate) fn next(self) -> Stage
        ensures { result ≡ next self }
    {
        match self {
            Stage::Begun => Stage::Written,
            Stage::Written => Stage::Kept,
            Stage::Kept => Stage::Opened,
            Stage::Opened => Stage::Resting,
            Stage::Resting
            | Stage::Foreign
            | Stage::Failed
            | Stage::Closing
            | Stage::Closed
            | Stage::Naming
            | Stage::WipeFailed => self,
        }
    }

    // How far a device call that succeeds and leads to this stage has brought the append.
    pub(crate) fn progress(self) -> Progress
        ensures { result ≡ progress self }
    {
        match self {
            Stage::Opened => Progress::Appended,
            _ => Progress::Going,
        }
    }

    // How far the device call of a wipe that leads to this stage has brought it.
    pub(crate) fn wipe_progress(self) -> WipeProgress
        ensures { result ≡ wipe_progress self }
    {
        match self {
            Stage::Resting => WipeProgress::Wiped,
            _ => WipeProgress::Going,
        }
    }
}
