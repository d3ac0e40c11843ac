// What the structures of the shared medium are called.
use recovery::in_layout::What;

/// What a structure of `docs/FORMAT.md` is called where it is damaged.
pub fn structure_name(structure: What) -> &'static str {
    match structure {
        What::Super => "superblock",
        What::Slot => "slot",
        What::Marks => "marks",
        What::JournalGate => "journal gate",
        What::JournalHead => "journal head",
        What::ExtentBlock => "extent block",
        What::DirBlock => "directory block",
        What::FileData => "file data",
    }
}
