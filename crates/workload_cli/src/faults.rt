//! The lines that explain why there is no world.

use script::RunError;
use world_files::WorldFileError;
use world_files::in_area_recovery::RecoveryError;
use world_files::in_host_media::FileProblem;

/// The fault of a run whose world can't be opened or kept.
pub fn world_fault(error: &WorldFileError) -> RunError {
    match error {
        WorldFileError::Memory | WorldFileError::File(FileProblem::Memory) => RunError::Memory,
        WorldFileError::Recovery(error) => recovery_fault(*error),
        WorldFileError::Sizes(_) | WorldFileError::NoWorld => RunError::Damaged,
        WorldFileError::File(_) | WorldFileError::DraftName => RunError::Device,
    }
}

/// The fault of a run of which nothing is recovered.
pub fn recovery_fault(error: RecoveryError) -> RunError {
    match error {
        RecoveryError::DeviceFault => RunError::Device,
        RecoveryError::BadLog { .. } => RunError::BadLog,
        RecoveryError::Memory => RunError::Memory,
        RecoveryError::Damaged { .. } | RecoveryError::AreaSize | RecoveryError::RegionSize => {
            RunError::Damaged
        }
    }
}
