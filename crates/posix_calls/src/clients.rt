//! The place of a client in a table of all clients.

ghost use Rattle.std.specs.Prelude.{◌≡◌, ◌-◌, ◌<◌, true};
ghost use Rattle.posix_calls.specs.Operations.{is_client};
ghost use Rattle.posix_calls.specs.declared.limits.TheConstants.{MAX_CLIENTS};

/// The index of a client in a table of all clients: numbers count from 1, indices from 0.
pub fn client_index(client: u32) -> usize
    requires { is_client client ≡ true }
    ensures is { result ≡ client - 1 }
    ensures within { result < MAX_CLIENTS }
{
    (client - 1) as usize
}
