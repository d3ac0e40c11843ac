ghost use Rattle.std.specs.Prelude.{◌≡◌};
ghost use Rattle.libfs.specs.Lives.{found_in};

use posix_calls::Reply;

/// What became of the call that a client had begun when it died.
#[derive(Drop)]
pub enum Fate {
    /// Its record is in the region: it is done, and this is its reply.
    Whole { reply: Reply },
    /// Its record is not in the region: nothing of it is done.
    Gone,
    /// No call waited for its answer.
    None,
}

/// The same without the reply, to be kept.
#[derive(Clone, Copy, Debug, PartialEq, Eq)]
pub enum Found {
    Whole,
    Gone,
    Nothing,
}

impl Fate {
    /// The fate without its reply.
    pub fn kind(&self) -> Found
        ensures { result ≡ found_in self.now }
    {
        match self {
            Fate::Whole { .. } => Found::Whole,
            Fate::Gone => Found::Gone,
            Fate::None => Found::Nothing,
        }
    }
}
