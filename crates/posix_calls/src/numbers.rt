//! The limits of the profile, each stated once as a number.

ghost use Rattle.std.specs.Prelude.{◌≡◌};

use crate::limits::{
    MAX_CLIENTS, MAX_DESCRIPTORS, MAX_ENTRIES, MAX_FILE, MAX_INODE, MAX_NAME, MAX_NAMES, MAX_PATH,
    MAX_TRANSFER, ROOT, UNIT_BYTES, UNIT_ENTRIES,
};

/// The limits of names, paths, transfers, files and tables, the root's number, and what a unit holds.
pub fn profile_has_its_limits()
    ensures longest_name { MAX_NAME ≡ 64 }
    ensures longest_path { MAX_PATH ≡ 1024 }
    ensures longest_transfer { MAX_TRANSFER ≡ 65536 }
    ensures greatest_file { MAX_FILE ≡ 1048576 }
    ensures most_names { MAX_NAMES ≡ 1000 }
    ensures most_entries { MAX_ENTRIES ≡ 3584 }
    ensures root { ROOT ≡ 1 }
    ensures last_inode { MAX_INODE ≡ 1024 }
    ensures most_descriptors { MAX_DESCRIPTORS ≡ 32 }
    ensures most_clients { MAX_CLIENTS ≡ 8 }
    ensures bytes_of_a_unit { UNIT_BYTES ≡ 4096 }
    ensures entries_of_a_unit { UNIT_ENTRIES ≡ 56 }
{}
