use posix_calls::MAX_DESCRIPTORS;

/// Which node has each of the client's descriptors, of which there are fewer than a mount has files open.
#[derive(Drop)]
pub struct Descriptors {
    owners: [Option<u64>; 32],
    next: u32,
}

impl Descriptors {
    /// Nothing is open.
    pub(crate) fn new() -> Descriptors {
        Descriptors {
            owners: [None; 32],
            next: 0,
        }
    }

    /// The node that has a descriptor.
    pub(crate) fn owner(&self, number: u32) -> Option<u64> {
        self.owners.get(number as usize).copied().flatten()
    }

    /// Sets which node has a descriptor.
    pub(crate) fn set_owner(&mut self, number: u32, owner: Option<u64>) {
        if let Some(place) = self.owners.get_mut(number as usize) {
            *place = owner;
        }
    }

    /// The descriptor that is to be looked at next, each in its turn.
    pub(crate) fn take_turn(&mut self) -> u32 {
        let number = self.next;
        self.next = number.wrapping_add(1) % MAX_DESCRIPTORS;
        number
    }
}
