ghost use Rattle.std.specs.Prelude.{◌≡◌};
ghost use Rattle.event_steps.specs.Refusals.{has_refusal, no_refusals, with_refusal};

use libfs::Denied;

/// What the kernel refused a client since its last reply.
#[derive(Clone, Copy, PartialEq, Eq)]
pub struct Refusals {
    pub units: bool,
    pub inode: bool,
    pub device: bool,
    pub failed: bool,
    pub memory: bool,
}

impl Refusals {
    /// Nothing was refused.
    pub fn none() -> Refusals
        ensures { result ≡ no_refusals }
    {
        Refusals {
            units: false,
            inode: false,
            device: false,
            failed: false,
            memory: false,
        }
    }

    /// With one more. Turns are nothing that the kernel refuses.
    pub fn with(self, why: Denied) -> Refusals
        ensures { result ≡ with_refusal self why }
    {
        match why {
            Denied::NoUnits => Refusals {
                units: true,
                ..self
            },
            Denied::NoInode => Refusals {
                inode: true,
                ..self
            },
            Denied::Device => Refusals {
                device: true,
                ..self
            },
            Denied::KernelFailed => Refusals {
                failed: true,
                ..self
            },
            Denied::Memory => Refusals {
                memory: true,
                ..self
            },
            Denied::Turns => self,
        }
    }

    /// Whether this was refused.
    pub fn has(self, why: Denied) -> bool
        ensures { result ≡ has_refusal self why }
    {
        match why {
            Denied::NoUnits => self.units,
            Denied::NoInode => self.inode,
            Denied::Device => self.device,
            Denied::KernelFailed => self.failed,
            Denied::Memory => self.memory,
            Denied::Turns => false,
        }
    }
}
