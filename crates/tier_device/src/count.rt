// What counts the calls of a medium that is to stop or to fail.
ghost use Rattle.std.specs.Prelude.{◌≡◌, ◌≤◌, ◌-◌, Some, None};
ghost use Rattle.tier_device.specs.declared.trip.Turn.TheVariants.{Passes};
ghost use Rattle.tier_device.specs.Turn.{turn_of, one_less};

use crate::trip::{Trip, Turn};

/// A number of its own, or a trip that it shares with other media; and what was said of the last call.
#[derive(Drop)]
pub(crate) struct Count {
    more: Option<u64>,
    trip: Option<Trip>,
    turn: Turn,
}

impl Count {
    ghost use Rattle.tier_device.specs.Count.{IsAlone, HasCounted};

    /// A count of its own that is not armed.
    pub fn without_limit() -> Self
        ensures alone { IsAlone result }
        ensures more { result.more ≡ None }
    {
        Count {
            more: None,
            trip: None,
            turn: Turn::Passes,
        }
    }

    /// A count of its own that runs out at this call.
    pub fn at(call: u64) -> Self
        requires { 1 ≤ call }
        ensures alone { IsAlone result }
        ensures more { result.more ≡ Some (call - 1) }
    {
        Count {
            more: Some(call - 1),
            trip: None,
            turn: Turn::Passes,
        }
    }

    /// A count by a shared trip.
    pub fn by_trip(trip: Trip) -> Self
        ensures trip { result.trip ≡ Some trip }
        ensures more { result.more ≡ None }
    {
        Count {
            more: None,
            trip: Some(trip),
            turn: Turn::Passes,
        }
    }

    /// Counts one call.
    pub fn next(&mut self, for_good: bool) -> Turn
        ensures turn { result ≡ self.new.turn }
        ensures counted { HasCounted self.old self.new }
    {
        let turn = match &self.trip {
            Some(trip) => trip.count(for_good),
            None => turn_of(self.more),
        };
        self.more = one_less(self.more);
        self.turn = turn;
        turn
    }
}

fn turn_of(more: Option<u64>) -> Turn
    ensures { result ≡ turn_of more }
{
    match more {
        None => Turn::Passes,
        Some(n) => { if n == 0 { Turn::IsTheOne } else { Turn::Passes } }
    }
}

fn one_less(more: Option<u64>) -> Option<u64>
    ensures { result ≡ one_less more }
{
    match more {
        None => None,
        Some(n) => n.checked_sub(1),
    }
}
