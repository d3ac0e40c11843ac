// What is damaged, in words.
use script::Text;
use world_files::in_area_recovery::RecoveryError;
use world_files::in_layout::What;
use world_files::structure_name;

/// Prints why nothing is recovered. Media in memory whose lengths are those of their geometry fail for want of memory alone.
pub fn describe_refusal(error: RecoveryError, text: &mut Text) {
    match error {
        RecoveryError::Damaged { structure, block } => describe_damage(structure, block, text),
        RecoveryError::BadLog { client, place } => {
            text.field("bad record ", &place);
            text.field(" of client ", &client);
            text.put("\n");
        }
        RecoveryError::DeviceFault
        | RecoveryError::AreaSize
        | RecoveryError::RegionSize
        | RecoveryError::Memory => text.cut(),
    }
}

/// Prints a structure, and its block.
pub fn describe_damage(structure: What, block: u32, text: &mut Text) {
    text.put("damaged ");
    text.put(structure_name(structure));
    text.field(" in block ", &block);
    text.put("\n");
}
