// The name that a file has until it is whole.
use crate::error::WorldFileError;
use std::alloc::Global;

/// What stands behind the path of a file until it is whole.
const SUFFIX: &str = ".strata-draft";

/// The name that a file of this path has until it is whole. Refused is a path that is such a name itself, so that no world of a user has one.
pub(crate) fn draft_path(alloc: Global, path: &str) -> Result<String, WorldFileError> {
    if path.ends_with(SUFFIX) {
        return Err(WorldFileError::DraftName);
    }
    let mut draft = String::new(alloc);
    draft.push_str(path)?;
    draft.push_str(SUFFIX)?;
    Ok(draft)
}
