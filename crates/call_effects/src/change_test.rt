ghost use Rattle.std.specs.Prelude.{◌≡◌, ℕ, nat_lt, length};
ghost use Rattle.call_effects.specs.ChangeTest.{changes};
ghost use Rattle.call_effects.specs.Effects.{effects_by};

use posix_calls::Operation;

/// Whether an operation changes the graph: an answer alone, a file that is opened as it is, and one that is closed change nothing.
pub fn has_effects(operation: &Operation) -> bool
    ensures exact { result ≡ changes operation.now }
    ensures effects { (names new : ℕ) → result ≡ nat_lt 0 (length (effects_by names new operation.now)) }
{
    match operation {
        Operation::Tell { .. } => false,
        Operation::OpenFile { empties, .. } => *empties,
        Operation::CloseFile { .. } => false,
        _ => true,
    }
}
