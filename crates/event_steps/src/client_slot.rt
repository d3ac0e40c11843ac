ghost use Rattle.std.specs.Prelude.{◌≡◌, ◌≤◌, drop, length, true, None, is_some, IfErr, IfOk, OnErr, OnOk};
ghost use Rattle.event_steps.specs.Sound.{fresh_seat, number_of};
ghost use Rattle.event_steps.specs.Stops.{SeatLeaves};
ghost use Rattle.event_steps.specs.View.{done_of, undigested_on};

use crate::refusals::Refusals;
use libfs::in_log_record::Record;
use libfs::{Client, Life, SealedRegion};
use std::marker::Model;
use tier_device::Media;

/// A client, the region that it sealed and handed over, until it takes that back, what the kernel refused it since its last reply, and how far its life has come.
#[derive(Drop)]
pub struct ClientSlot<M: Media> {
    pub(crate) client: Client<M>,
    pub(crate) away: Option<SealedRegion<M>>,
    pub(crate) refused: Refusals,
    pub(crate) life: Life,
}

impl<M: Media> Model for ClientSlot<M> {
    ghost use Rattle.std.specs.Coded.{codes};
    ghost use Rattle.libfs.specs.client_view.KnowledgeTables.{held_code};
    ghost use Rattle.libfs.specs.contracts.begun_record.Begun as begun_call;
    ghost use Rattle.event_steps.specs.View.{SeatView};
    ghost use Rattle.event_steps.specs.Sound.{IsSeated};

    ghost Value = { SeatView M };

    ghost coded = { Prim.hlevel (codes, held_code, begun_call.the_row.coded) };

    ghost view = { λ s. record { client = s.client; away = s.away; refused = s.refused; life = s.life } };

    ghost invariant = { λ s. IsSeated M.Media s.client s.away };
}

impl<M: Media> ClientSlot<M> {
    /// The seat of a client that has both of its regions; any other client is given back.
    pub fn new(client: Client<M>) -> Result<Self, Client<M>>
        ensures seat { IfOk result (λ s. s ≡ fresh_seat client) }
        ensures here { OnOk result (is_some client.log.other ≡ true) }
        ensures away { OnErr result (client.log.other ≡ None) }
        ensures back { IfErr result (λ c. c ≡ client) }
    {
        if client.is_region_away() {
            return Err(client);
        }
        Ok(ClientSlot {
            client,
            away: None,
            refused: Refusals::none(),
            life: Life::Alive,
        })
    }

    /// The client, the region that it handed over, if that is not back, and how far its life has come.
    pub fn into_parts(self) -> (Client<M>, Option<SealedRegion<M>>, Life)
        ensures client { result.0 ≡ self.client }
        ensures away { result.1 ≡ self.away }
        ensures life { result.2 ≡ self.life }
    {
        (self.client, self.away, self.life)
    }

    /// States what a stop leaves of the client's regions now.
    pub fn left_now(&self)
        ensures { SeatLeaves M.Media self.now }
    {
        self.client.left_now();
        match &self.away {
            Some(away) => away.left_now(),
            None => {}
        }
    }

    // The client's number.
    pub(crate) fn number(&self) -> u32
        ensures { result ≡ number_of self.now }
    {
        self.client.client()
    }

    /// The records of the region that is away that are not digested, in their order; none where none is away.
    pub fn sealed_records(&self) -> &[Record]
        ensures { result.now ≡ drop (done_of self.now.away) self.now.client.sealed }
    {
        let done = self.digested_count();
        &self.client.sealed_records()[done..]
    }

    /// How many records of the client are not digested, of the region that it writes and of the one that is away.
    pub fn undigested(&self) -> usize
        ensures { result ≡ undigested_on M.Media self.now }
    {
        let done = self.digested_count();
        self.client.undigested() - done
    }

    // How many records of the region that is away are digested.
    fn digested_count(&self) -> usize
        ensures done { result ≡ done_of self.now.away }
        ensures within { result ≤ length self.now.client.sealed }
    {
        match &self.away {
            Some(away) => away.digested_count() as usize,
            None => 0,
        }
    }
}
