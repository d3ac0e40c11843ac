//! What holds of every line of a script.
ghost use Rattle.std.specs.Prelude.{◌≡◌, ℕ, ◌<◌, List, take, length};
ghost use Rattle.posix_calls.specs.Tree.{Own};
ghost use Rattle.posix_calls.specs.Decide.{decide};
ghost use Rattle.posix_calls.specs.declared.limits.TheConstants.{MAX_TRANSFER};
ghost use Rattle.posix_calls.specs.declared.call.Call.TheVariants.{Pwrite};
ghost use Rattle.script.specs.declared.runs.TheConstants.{MAX_DATA};

/// The bytes that a line writes are cut to `MAX_DATA`, and no call is answered otherwise for it: what is cut is too much to write
/// before and after.
pub fn cut_data_are_answered_alike()
    ensures limit { MAX_TRANSFER ≡ 65536 }
    ensures data { MAX_DATA ≡ 65537 }
    ensures over { (bytes : List ℕ) → MAX_TRANSFER < length bytes → MAX_TRANSFER < length (take MAX_DATA bytes) }
    ensures alike { (own : Own) (number at : ℕ) (bytes : List ℕ) → decide own (Pwrite number at (take MAX_DATA bytes)) ≡ decide own (Pwrite number at bytes) }
{}
