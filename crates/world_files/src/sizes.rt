// How large a world is made.
ghost use Rattle.std.specs.Prelude.{◌≡◌, ◌↔◌, IfErr, IsErrOf, IfOk, None, Some};
ghost use Rattle.world_files.specs.FileErrors.{IsOfSizes};
ghost use Rattle.world_files.specs.PartSizes.{broken_rule, sizes_asked};
ghost use Rattle.world_files.specs.declared.error.WorldFileError.TheVariants.{Sizes};
ghost use Rattle.world_files.specs.declared.sizes.SizeRule.{SizeRule};

use crate::error::WorldFileError;
use recovery::in_layout::Geometry;
use thiserror::Error;

/// The most units, and the most data blocks of one tier.
const MOST: u32 = 65_536;

/// The rule that sizes break of which no media are.
#[derive(Clone, Copy, Debug, PartialEq, Eq, Error)]
pub enum SizeRule {
    #[error("a world has 2 to 65536 units")]
    Units,
    #[error("a tier has at most 65536 data blocks")]
    Tier,
    #[error("the tiers have together a data block for each unit, and 512 more")]
    Room,
}

/// How large a world is made: the units that its tree may cost, and the data blocks, of 4,096 bytes, of each tier.
#[derive(Clone, Copy, PartialEq, Eq)]
pub struct WorldSizes {
    pub units: u32,
    pub fast: u32,
    pub block: u32,
    pub slow: u32,
}

impl WorldSizes {
    /// The geometry of these sizes; refused, with the first rule that they break, where no media have them.
    pub fn geometry(&self) -> Result<Geometry, WorldFileError>
        ensures geometry { IfOk result (λ g. sizes_asked self.now ≡ Some g) }
        ensures none { IfErr result (λ _. sizes_asked self.now ≡ None) }
        ensures only { IfErr result IsOfSizes }
        ensures rule { (rule : SizeRule) → IsErrOf result (Sizes rule) ↔ (broken_rule self.now ≡ Some rule) }
    {
        match Geometry::new(self.units, self.fast, self.block, self.slow) {
            Some(geometry) => Ok(geometry),
            None => Err(WorldFileError::Sizes(self.broken_rule())),
        }
    }

    // The first rule that they break.
    fn broken_rule(&self) -> SizeRule
        requires { sizes_asked self.now ≡ None }
        ensures { broken_rule self.now ≡ Some result }
    {
        if self.units < 2 || MOST < self.units {
            SizeRule::Units
        } else if MOST < self.fast || MOST < self.block || MOST < self.slow {
            SizeRule::Tier
        } else {
            SizeRule::Room
        }
    }
}
