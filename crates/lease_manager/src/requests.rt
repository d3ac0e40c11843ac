// A client asks another to give an inode back.
ghost use Rattle.std.specs.Prelude.{◌≡◌, ◌+◌, ◌-◌, ◌/◌, ◌<◌};
ghost use Rattle.lease_manager.specs.declared.view.Event.TheVariants.{Asked, Heard, Looked};
ghost use Rattle.lease_manager.specs.Words.{HasWord, IsClient, asked_word, asked_bit};
ghost use Rattle.lease_manager.specs.Parts.{Continues, FindsUnheard};
ghost use Rattle.lease_manager.specs.Passes.{steps_of, with_event, client_of};

use crate::layout::{bit_of_asking, word_of_asking, word_of_row};
use crate::pass::Pass;
use crate::rule::{Asks, Hears, Listens};
use crate::table::Leases;

impl Leases {
    /// Asks a client to give an inode back, by one `fetch_or` of the inode's bit in the client's word: the bit is set until
    /// that client hears it. It is a hint: nothing is promised of what that client does.
    pub fn ask_back(&self, pass: &mut Pass, ino: u32, client: u32)
        requires table { pass.old.table ≡ self.now }
        requires inode { HasWord ino }
        requires client { IsClient client }
        ensures asked { pass.new ≡ with_event pass.old (Asked (asked_word client ((ino - 1) / 64)) (asked_bit ino)) }
        ensures history { Continues pass.old.part (Asked (asked_word client ((ino - 1) / 64)) (asked_bit ino)) }
        ensures step { steps_of pass.new ≡ steps_of pass.old + 1 }
    {
        let word = word_of_asking(client, ino);
        let bit = bit_of_asking(ino);
        self.words().fetch_or::<Asks>(&mut pass.seat, word, bit);
    }

    /// What this client was asked for since it last heard this row of 64 inodes, 0 to 15: bit b of row r is inode
    /// 64 r + b + 1. The row is emptied, by one swap of its word with 0, so that no question is heard twice.
    pub fn asked_back(&self, pass: &mut Pass, row: u32) -> u64
        requires table { pass.old.table ≡ self.now }
        requires row { row < 16 }
        ensures heard { pass.new ≡ with_event pass.old (Heard (asked_word (client_of pass.old) row) result) }
        ensures history { Continues pass.old.part (Heard (asked_word (client_of pass.old) row) result) }
        ensures step { steps_of pass.new ≡ steps_of pass.old + 1 }
    {
        let word = word_of_row(pass.place, row);
        self.words().swap::<Hears>(&mut pass.seat, word, 0)
    }

    /// What this client was asked for since it last heard this row of 64 inodes, 0 to 15, by one load: bit b of row r is inode
    /// 64 r + b + 1. The row keeps it, to be heard later.
    pub fn unheard_questions(&self, pass: &mut Pass, row: u32) -> u64
        requires table { pass.old.table ≡ self.now }
        requires row { row < 16 }
        ensures found { pass.new ≡ with_event pass.old (Looked (asked_word (client_of pass.old) row) result) }
        ensures unheard { FindsUnheard pass.old.part (asked_word (client_of pass.old) row) result }
        ensures step { steps_of pass.new ≡ steps_of pass.old + 1 }
    {
        let word = word_of_row(pass.place, row);
        self.words().load::<Listens>(&mut pass.seat, word)
    }
}
