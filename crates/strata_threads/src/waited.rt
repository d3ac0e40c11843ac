ghost use Rattle.std.specs.Prelude.{◌≡◌, ◌==◌, ◌<◌, None, false, [], ◌∷◌};
ghost use Rattle.libfs.specs.lease_manager.Marks.{ShowsOther};
ghost use Rattle.libfs.specs.lease_manager.Words.{HasWord};
ghost use Rattle.strata_threads.specs.WaitedTurns.{away_turn, busy_turn, is_to_write, taken_mode, with_inode};

use libfs::Client;
use libfs::in_client_plan::Mode;
use std::marker::Model;
use tier_device::Media;

/// How many turns of a call were waited, of those that it is given, and which inodes it waited to write. Contracts see all of it (`specs/WaitedTurns.antt`). A turn is counted only by what was waited for.
#[derive(Drop)]
pub struct Waited {
    count: u64,
    turns: u64,
    // Inodes, the one added last first, 0 for none: a record changes three at most
    to_write: [u32; 3],
}

impl Model for Waited {
    ghost use Rattle.std.specs.Prelude.{◌≤◌};
    ghost use Rattle.strata_threads.specs.WaitedTurns.{WaitedView};

    ghost Value = { WaitedView };

    ghost view = { λ w. record { count = w.count; turns = w.turns; to_write = w.to_write } };

    ghost invariant = { λ w. w.count ≤ w.turns };
}

impl Waited {
    /// None of `turns` turns.
    pub fn none_of(turns: u64) -> Waited
        ensures { result ≡ record { count = 0; turns = turns; to_write = 0 ∷ 0 ∷ 0 ∷ [] } }
    {
        Waited {
            count: 0,
            turns,
            to_write: [0; 3],
        }
    }

    /// How many turns were waited.
    pub fn count(&self) -> u64
        ensures { result ≡ self.now.count }
    {
        self.count
    }

    /// Whether all turns were waited.
    pub fn is_over(&self) -> bool
        ensures over { result ≡ (self.now.count == self.now.turns) }
        ensures left { result ≡ false → self.now.count < self.now.turns }
    {
        self.count == self.turns
    }

    // For writing, where the call waited to write the inode: if it read first, it would find other readers' marks as it raises.
    pub(crate) fn lease_mode(&self, inode: u32, mode: Mode) -> Mode
        requires inode { HasWord inode }
        ensures { result ≡ taken_mode self.now inode mode }
    {
        if self.is_to_write(inode) {
            Mode::Write
        } else {
            mode
        }
    }

    // Counts a turn in which a lease was busy, by the word that showed a mark of another client than this.
    pub(crate) fn count_busy<M: Media>(
        &mut self,
        client: &Client<M>,
        inode: u32,
        mode: Mode,
        word: u64,
    )
        requires left { self.old.count < self.old.turns }
        requires inode { HasWord inode }
        requires busy { ShowsOther client.now.pass.part.place word }
        ensures { self.new ≡ busy_turn self.old inode mode }
    {
        // For the proof: both stand in the contract alone: the word showed another client, so a turn counts only if a lease was busy.
        let _ = client;
        let _ = word;
        self.count += 1;
        match mode {
            Mode::Write => self.add_inode(inode),
            Mode::Read => {}
        }
    }

    // Adds an inode to those that the call waited to write.
    fn add_inode(&mut self, inode: u32)
        ensures { self.new ≡ record self.old { to_write = with_inode self.old.to_write inode } }
    {
        if !self.is_to_write(inode) {
            let [last, before, _] = self.to_write;
            self.to_write = [inode, last, before];
        }
    }

    // Whether the call waited to write an inode.
    fn is_to_write(&self, inode: u32) -> bool
        ensures { result ≡ is_to_write self.now.to_write inode }
    {
        let [last, before, first] = self.to_write;
        last == inode || before == inode || first == inode
    }

    // Counts a turn in which the region that a client sealed was not back.
    pub(crate) fn count_away<M: Media>(&mut self, client: &Client<M>)
        requires left { self.old.count < self.old.turns }
        requires away { client.now.log.other ≡ None }
        ensures { self.new ≡ away_turn self.old }
    {
        // For the proof: it stands in the contract alone: a turn counts only if the client's other region was away.
        let _ = client;
        self.count += 1;
    }
}
