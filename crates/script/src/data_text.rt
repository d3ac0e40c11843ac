// Bytes as a script has them.
ghost use Rattle.std.specs.Prelude.{◌≡◌, IfOk, true, is_some, option_map, take};
ghost use Rattle.script.specs.Script.{repeated_bytes, is_dash};

use crate::runs::{MAX_DATA, are_runs, first_run, push_run};
use posix_calls::Bytes;
use std::alloc::{AllocError, Global};

/// Runs `hhxN` joined by `+`: a byte by two lower case hexadecimal digits, N times, N from 1 on. A `-` is no bytes.
#[derive(Clone, Copy)]
pub struct DataText<'a> {
    text: &'a [u8],
    ghost readable: { is_some (repeated_bytes text.now) ≡ true },
}

impl<'a> DataText<'a> {
    ghost use Rattle.script.specs.LineValues.{data_of};

    /// None where a run is of another form.
    pub fn read(text: &'a [u8]) -> Option<Self>
        ensures { option_map data_of result ≡ repeated_bytes text.now }
    {
        if !is_dash(text) && !are_runs(text) {
            return None;
        }
        Some(DataText { text })
    }

    /// The bytes, `MAX_DATA` at the most.
    pub fn to_bytes(&self, alloc: Global) -> Result<Bytes, AllocError>
        ensures { IfOk result (λ bytes. bytes ≡ take MAX_DATA (data_of self.now)) }
    {
        let mut bytes = Vec::new(alloc);
        if is_dash(self.text) {
            return Ok(Bytes::from_vec(bytes));
        }
        let mut rest = Some(self.text);
        while let Some(text) = rest {
            let Some((run, behind)) = first_run(text) else {
                return Ok(Bytes::from_vec(bytes));
            };
            push_run(&mut bytes, run)?;
            rest = behind;
        }
        Ok(Bytes::from_vec(bytes))
    }
}

// `-`
fn is_dash(text: &[u8]) -> bool
    ensures { result ≡ is_dash text.now }
{
    match text {
        [b'-'] => true,
        _ => false,
    }
}
