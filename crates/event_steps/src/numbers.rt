ghost use Rattle.std.specs.Prelude.{◌≡◌, true, false};
ghost use Rattle.libfs.specs.lease_manager.Words.{IsClient};

/// How many clients there are.
pub const CLIENTS: usize = libfs::in_lease_manager::CLIENTS as usize;

/// Whether it is a client's number: they count from 1.
pub fn is_client(number: u32) -> bool
    ensures yes { result ≡ true → IsClient number }
    ensures no { result ≡ false → IsClient number → ⊥ }
{
    1 <= number && number <= CLIENTS as u32
}
