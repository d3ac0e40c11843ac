/// Numbers that look as if they were drawn, from a start on.
#[derive(Drop)]
pub struct Draws {
    last: u64,
}

impl Draws {
    /// The draws of a client.
    pub(crate) fn new(start: u64, client: u32) -> Draws {
        Draws {
            last: start.wrapping_add(client as u64),
        }
    }

    /// The next one, of 31 bits.
    pub(crate) fn draw(&mut self) -> u64 {
        self.last = self
            .last
            .wrapping_mul(6_364_136_223_846_793_005)
            .wrapping_add(1_442_695_040_888_963_407);
        self.last >> 33
    }
}
