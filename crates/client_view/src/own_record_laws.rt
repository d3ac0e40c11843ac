//! That a block that a client fetches agrees with the whole, once its own records are laid over it.

ghost use Rattle.std.specs.Prelude.{◌≡◌, ◌-◌, ◌*◌, ℕ, min, length, List, Some};
ghost use Rattle.posix_calls.specs.Tree.{Descriptors};
ghost use Rattle.posix_calls.specs.declared.limits.TheConstants.{UNIT_BYTES};
ghost use Rattle.client_plan.specs.file_graph.Graph.{Graph, file_bytes};
ghost use Rattle.client_plan.specs.log_record.declared.format.Record.{Record};
ghost use Rattle.client_plan.specs.call_effects.Blocks.{block_of};
ghost use Rattle.client_plan.specs.call_effects.Knowledge.{Knowledge, Agrees, IsForgetful, with_blocks};
ghost use Rattle.client_plan.specs.call_effects.NodeView.{FileView};
ghost use Rattle.world_invariant.specs.Logs.{after_records};
ghost use Rattle.client_view.specs.After.{block_laid, bytes_at};

/// Records laid over a block of a graph's file come to the block that it has after them; where no file stands none has bytes. Of what is no file after them a block tells nothing.
pub fn records_are_laid_as_the_graph_has_them()
    ensures { (g : Graph) (rs : List Record) (i b : ℕ) (bytes : List ℕ) → file_bytes (after_records g rs i) ≡ Some bytes → block_laid rs i b (Some (block_of b (bytes_at g i))) ≡ Some (block_of b bytes) }
{}

/// Where the whole has at an inode what a client's records make of the shared graph there, a shared block with these records laid over it may be the client's, where the whole has a file there: it is as long as the client's copy of the file tells, and what the client knows with it agrees with the whole, also less of it.
pub fn laid_block_agrees()
    ensures long { (k : Knowledge) (g whole : Graph) (held : Descriptors) (rs : List Record) (i b names size : ℕ) (bytes block : List ℕ) → Agrees k whole held → whole i ≡ after_records g rs i → file_bytes (whole i) ≡ Some bytes → k.copies i ≡ Some (Some (FileView names size)) → block_laid rs i b (Some (block_of b (bytes_at g i))) ≡ Some block → length block ≡ min UNIT_BYTES (size - UNIT_BYTES * b) }
    ensures agrees { (k less : Knowledge) (g whole : Graph) (held : Descriptors) (rs : List Record) (i b : ℕ) (bytes block : List ℕ) → Agrees k whole held → whole i ≡ after_records g rs i → file_bytes (whole i) ≡ Some bytes → block_laid rs i b (Some (block_of b (bytes_at g i))) ≡ Some block → IsForgetful (with_blocks k i b 1 (λ n. block)) less → Agrees less whole held }
{}
