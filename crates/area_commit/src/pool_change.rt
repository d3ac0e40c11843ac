//! Which blocks are free where some inodes are rewritten.

ghost use Rattle.std.specs.Prelude.{ℕ, List, Bool};
ghost use Rattle.std.specs.List.{Contains};
ghost use Rattle.tier_device.specs.declared.media.Tier.{Tier};
ghost use Rattle.tier_device.specs.declared.media.Tier.TheVariants.{Fast};
ghost use Rattle.area_reader.specs.layout.Places.{Sizes};
ghost use Rattle.area_reader.specs.Store.{Store};
ghost use Rattle.area_reader.specs.Reads.{IsRoom, Free};
ghost use Rattle.area_reader.specs.Format.{IsSpelled};
ghost use Rattle.area_commit.specs.Value.{PoolsView, data_pool, AreInOrder, AreFree};
ghost use Rattle.area_commit.specs.declared.allocation.Allocation.{Allocation};
ghost use Rattle.area_commit.specs.Allocations.{WereTaken};
ghost use Rattle.area_commit.specs.BlockExchange.{Exchanges, BlockIsGivenUp, BlockIsTaken, HaveExchanged, WereGiven};

/// Where inodes are rewritten over blocks of their own and blocks that were taken, and what they use no more is given back, the pools have exactly the free blocks of the
/// new store, as they had those of the old one.
pub fn pools_after_change()
    ensures lists { (g : Sizes) (rewritten : ℕ → Bool) (old new : Store) (before after : PoolsView) (taken : Tier → List ℕ) → IsSpelled g old → Exchanges g rewritten old new (λ t. Contains (taken t)) → ((t : Tier) (k : ℕ) → Contains (taken t) k → Free g old t k) → AreFree g old before → HaveExchanged g before after (λ t. Contains (taken t)) (BlockIsGivenUp g rewritten old new) → AreFree g new after }
    ensures runs { (g : Sizes) (rewritten : ℕ → Bool) (old new : Store) (before left after : PoolsView) (taken : Allocation) → IsSpelled g old → AreInOrder before → AreFree g old before → WereTaken before left taken → Exchanges g rewritten old new (BlockIsTaken taken) → WereGiven g left after (BlockIsGivenUp g rewritten old new) → AreFree g new after }
{}

/// No block that is given up was free before the change, so it is in no pool.
pub fn given_blocks_are_used()
    ensures free { (g : Sizes) (rewritten : ℕ → Bool) (old new : Store) (t : Tier) (k : ℕ) → BlockIsGivenUp g rewritten old new t k → Free g old t k → ⊥ }
    ensures room { (g : Sizes) (rewritten : ℕ → Bool) (old new : Store) (t : Tier) (k : ℕ) → BlockIsGivenUp g rewritten old new t k → IsRoom g t k }
    ensures nodes { (g : Sizes) (rewritten : ℕ → Bool) (old new : Store) (pools : PoolsView) → AreFree g old pools → (k : ℕ) → BlockIsGivenUp g rewritten old new Fast k → Contains pools.nodes.free k → ⊥ }
    ensures per_tier { (g : Sizes) (rewritten : ℕ → Bool) (old new : Store) (pools : PoolsView) → AreFree g old pools → (t : Tier) (k : ℕ) → BlockIsGivenUp g rewritten old new t k → Contains (data_pool pools t).free k → ⊥ }
{}
