//! Which effects of records are kept beside their change.

ghost use Rattle.std.specs.Prelude.{◌≡◌, ◌<◌, ◌++◌, ◌∷◌, [], Some, None, IfErr, IfOk, OnErr, OnOk, if◌then◌else◌, length};
ghost use Rattle.std.specs.List.{list_any};
ghost use Rattle.graph_change.specs.file_graph.Plain.{is_swap};
ghost use Rattle.graph_change.specs.Swaps.{is_on_names, kept_names, on_names};
ghost use Rattle.coalescer.specs.Records.{effects_in};

use graph_change::in_file_graph::{Effect, Effects};
use log_record::Record;
use std::alloc::{AllocError, Global};

/// Copies of the effects on names of these records, in their order, where a Swap is among their effects; else none. An error is want of
/// memory, which is asked for only where there is a Swap.
pub fn kept_names(alloc: Global, records: &[Record]) -> Result<Effects, AllocError>
    ensures exact { IfOk result (λ names. names ≡ kept_names (effects_in records.now)) }
    ensures memory { IfErr result (λ _. 0 < length (effects_in records.now)) }
{
    if !is_swap_among(records) {
        return Ok(Effects::from_vec(Vec::new(alloc)));
    }
    names_in(alloc, records)
}

// Whether a Swap is among the effects of records.
fn is_swap_among(records: &[Record]) -> bool
    ensures { result ≡ list_any is_swap (effects_in records.now) }
{
    for logged in records {
        if has_swap(logged.effects.as_slice()) {
            return true;
        }
    }
    false
}

fn has_swap(effects: &[Effect]) -> bool
    ensures { result ≡ list_any is_swap effects.now }
{
    for effect in effects {
        if is_swap(effect) {
            return true;
        }
    }
    false
}

fn is_swap(effect: &Effect) -> bool
    ensures { result ≡ is_swap effect.now }
{
    matches!(effect, Effect::Swap { .. })
}

// Copies of the effects on names of records.
fn names_in(alloc: Global, records: &[Record]) -> Result<Effects, AllocError>
    ensures exact { IfOk result (λ names. names ≡ on_names (effects_in records.now)) }
    ensures memory { IfErr result (λ _. 0 < length (effects_in records.now)) }
{
    let mut names = Vec::new(alloc);
    for logged in records {
        add_names(alloc, &mut names, logged)?;
    }
    Ok(Effects::from_vec(names))
}

fn add_names(alloc: Global, names: &mut Vec<Effect>, logged: &Record) -> Result<(), AllocError>
    ensures exact { OnOk result (names.new.items ≡ names.old.items ++ on_names logged.now.effects) }
    ensures memory { OnErr result (0 < length logged.now.effects) }
{
    for effect in logged.effects.as_slice() {
        add_name(alloc, names, effect)?;
    }
    Ok(())
}

fn add_name(alloc: Global, names: &mut Vec<Effect>, effect: &Effect) -> Result<(), AllocError>
    ensures { OnOk result (names.new.items ≡ names.old.items ++ on_names (effect.now ∷ [])) }
{
    let kept = copy_on_names(alloc, effect)?;
    match kept {
        Some(copy) => {
            names.push(copy)?;
            Ok(())
        }
        None => Ok(()),
    }
}

// A copy of an effect that makes or drops a node, or changes what a name leads to; of another none.
fn copy_on_names(alloc: Global, effect: &Effect) -> Result<Option<Effect>, AllocError>
    ensures { IfOk result (λ copy. copy ≡ (if is_on_names effect.now then Some effect.now else None)) }
{
    match effect {
        Effect::Make { inode, kind } => Ok(Some(Effect::Make {
            inode: *inode,
            kind: *kind,
        })),
        Effect::Enter {
            directory,
            inode,
            kind,
            name,
        } => Ok(Some(Effect::Enter {
            directory: *directory,
            inode: *inode,
            kind: *kind,
            name: name.copy(alloc)?,
        })),
        Effect::Leave { directory, name } => Ok(Some(Effect::Leave {
            directory: *directory,
            name: name.copy(alloc)?,
        })),
        Effect::Drop { inode } => Ok(Some(Effect::Drop { inode: *inode })),
        Effect::Swap {
            directory,
            name,
            other,
            other_name,
        } => Ok(Some(Effect::Swap {
            directory: *directory,
            name: name.copy(alloc)?,
            other: *other,
            other_name: other_name.copy(alloc)?,
        })),
        Effect::Names { .. } | Effect::Size { .. } | Effect::Bytes { .. } => Ok(None),
    }
}
