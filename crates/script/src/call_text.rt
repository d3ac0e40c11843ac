// What a line asks, as it stands there.
ghost use Rattle.std.specs.Prelude.{◌≡◌, IfOk, option_map};
ghost use Rattle.script.specs.Script.{parts};
ghost use Rattle.script.specs.LineValues.{path_of, asked_call, line_seen};
ghost use Rattle.script.specs.Lines.{verb, one_decoded, two_decoded, call_for, line_request};
ghost use Rattle.script.specs.declared.call_text.Verb.TheVariants as verbs;

use crate::data_text::DataText;
use crate::flags::flags_of;
use crate::number::{client_of, descriptor_of, number_of};
use crate::path_text::PathText;
use crate::words::{cut, one_word, three_words, two_words};
use posix_calls::{Call, Flags, SharedBytes};
use std::alloc::{AllocError, Global};

/// What a line of a script is.
#[derive(Clone, Copy)]
pub enum Line<'a> {
    /// An empty line or a comment, which prints nothing.
    Silent,
    /// A client's call.
    Asks { client: u32, call: CallText<'a> },
}

/// The word that names a call.
#[derive(Clone, Copy)]
pub enum Verb {
    Open,
    Close,
    Pread,
    Pwrite,
    Truncate,
    Mkdir,
    Rmdir,
    Link,
    Unlink,
    Rename,
    Exchange,
    List,
    Stat,
}

/// A call whose paths and bytes stand in a line.
#[derive(Clone, Copy)]
pub enum CallText<'a> {
    Open {
        path: PathText<'a>,
        flags: Flags,
    },
    Close {
        descriptor: u32,
    },
    Pread {
        descriptor: u32,
        at: u64,
        count: u64,
    },
    Pwrite {
        descriptor: u32,
        at: u64,
        data: DataText<'a>,
    },
    Truncate {
        path: PathText<'a>,
        len: u64,
    },
    Mkdir {
        path: PathText<'a>,
    },
    Rmdir {
        path: PathText<'a>,
    },
    Link {
        old: PathText<'a>,
        new: PathText<'a>,
    },
    Unlink {
        path: PathText<'a>,
    },
    Rename {
        old: PathText<'a>,
        new: PathText<'a>,
    },
    Exchange {
        first: PathText<'a>,
        second: PathText<'a>,
    },
    List {
        path: PathText<'a>,
    },
    Stat {
        path: PathText<'a>,
    },
}

/// What a line is; none where it can't be read.
pub fn read_line(line: &[u8]) -> Option<Line<'_>>
    ensures { option_map line_seen result ≡ line_request line.now }
{
    match line {
        [] => Some(Line::Silent),
        [b'#', ..] => Some(Line::Silent),
        _ => {
            let (client, rest) = cut(line, b' ')?;
            let client = client_of(client)?;
            let (verb, words) = cut(rest, b' ')?;
            let call = call_of(verb_of(verb)?, words)?;
            Some(Line::Asks { client, call })
        }
    }
}

/// Returns the verb that a word is; `None` if it is none.
pub fn verb_of(word: &[u8]) -> Option<Verb>
    ensures { result ≡ verb word.now }
{
    let Ok(name) = str::from_utf8(word) else {
        return None;
    };
    match name {
        "open" => Some(Verb::Open),
        "close" => Some(Verb::Close),
        "pread" => Some(Verb::Pread),
        "pwrite" => Some(Verb::Pwrite),
        "truncate" => Some(Verb::Truncate),
        "mkdir" => Some(Verb::Mkdir),
        "rmdir" => Some(Verb::Rmdir),
        "link" => Some(Verb::Link),
        "unlink" => Some(Verb::Unlink),
        "rename" => Some(Verb::Rename),
        "exchange" => Some(Verb::Exchange),
        "list" => Some(Verb::List),
        "stat" => Some(Verb::Stat),
        _ => None,
    }
}

/// Reads the words of a call behind its verb. `None` if they are not such a call's. Takes no memory.
pub fn call_of(verb: Verb, words: &[u8]) -> Option<CallText<'_>>
    ensures { option_map asked_call result ≡ call_for verb (parts 32 words.now) }
{
    match verb {
        Verb::Open => open_of(words),
        Verb::Close => close_of(words),
        Verb::Pread => pread_of(words),
        Verb::Pwrite => pwrite_of(words),
        Verb::Truncate => truncate_of(words),
        Verb::Mkdir => Some(CallText::Mkdir {
            path: one_path(words)?,
        }),
        Verb::Rmdir => Some(CallText::Rmdir {
            path: one_path(words)?,
        }),
        Verb::Unlink => Some(CallText::Unlink {
            path: one_path(words)?,
        }),
        Verb::List => Some(CallText::List {
            path: one_path(words)?,
        }),
        Verb::Stat => Some(CallText::Stat {
            path: one_path(words)?,
        }),
        Verb::Link => {
            let (old, new) = two_paths(words)?;
            Some(CallText::Link { old, new })
        }
        Verb::Rename => {
            let (old, new) = two_paths(words)?;
            Some(CallText::Rename { old, new })
        }
        Verb::Exchange => {
            let (first, second) = two_paths(words)?;
            Some(CallText::Exchange { first, second })
        }
    }
}

fn close_of(words: &[u8]) -> Option<CallText<'_>>
    ensures { option_map asked_call result ≡ call_for verbs.Close (parts 32 words.now) }
{
    let descriptor = descriptor_of(one_word(words)?)?;
    Some(CallText::Close { descriptor })
}

fn open_of(words: &[u8]) -> Option<CallText<'_>>
    ensures { option_map asked_call result ≡ call_for verbs.Open (parts 32 words.now) }
{
    let (path, flags) = two_words(words)?;
    let path = PathText::read(path)?;
    let flags = flags_of(flags)?;
    Some(CallText::Open { path, flags })
}

fn pread_of(words: &[u8]) -> Option<CallText<'_>>
    ensures { option_map asked_call result ≡ call_for verbs.Pread (parts 32 words.now) }
{
    let (descriptor, at, count) = three_words(words)?;
    let descriptor = descriptor_of(descriptor)?;
    let at = number_of(at)?;
    let count = number_of(count)?;
    Some(CallText::Pread {
        descriptor,
        at,
        count,
    })
}

fn pwrite_of(words: &[u8]) -> Option<CallText<'_>>
    ensures { option_map asked_call result ≡ call_for verbs.Pwrite (parts 32 words.now) }
{
    let (descriptor, at, data) = three_words(words)?;
    let descriptor = descriptor_of(descriptor)?;
    let at = number_of(at)?;
    let data = DataText::read(data)?;
    Some(CallText::Pwrite {
        descriptor,
        at,
        data,
    })
}

fn truncate_of(words: &[u8]) -> Option<CallText<'_>>
    ensures { option_map asked_call result ≡ call_for verbs.Truncate (parts 32 words.now) }
{
    let (path, len) = two_words(words)?;
    let path = PathText::read(path)?;
    let len = number_of(len)?;
    Some(CallText::Truncate { path, len })
}

fn one_path(words: &[u8]) -> Option<PathText<'_>>
    ensures { option_map path_of result ≡ one_decoded (parts 32 words.now) }
{
    PathText::read(one_word(words)?)
}

fn two_paths(words: &[u8]) -> Option<(PathText<'_>, PathText<'_>)>
    ensures { option_map (λ r. (path_of r.0, path_of r.1)) result ≡ two_decoded (parts 32 words.now) }
{
    let (first, second) = two_words(words)?;
    Some((PathText::read(first)?, PathText::read(second)?))
}

impl CallText<'_> {
    /// The call, with paths and bytes of its own.
    pub fn to_call(&self, alloc: Global) -> Result<Call, AllocError>
        ensures { IfOk result (λ call. call ≡ asked_call self.now) }
    {
        match *self {
            CallText::Open { path, flags } => {
                let path = path.to_bytes(alloc)?;
                Ok(Call::Open { path, flags })
            }
            CallText::Close { descriptor } => Ok(Call::Close { descriptor }),
            CallText::Pread {
                descriptor,
                at,
                count,
            } => Ok(Call::Pread {
                descriptor,
                at,
                count,
            }),
            CallText::Pwrite {
                descriptor,
                at,
                data,
            } => {
                let bytes = SharedBytes::from_vec(data.to_bytes(alloc)?.into_vec())?;
                Ok(Call::Pwrite {
                    descriptor,
                    at,
                    bytes,
                })
            }
            CallText::Truncate { path, len } => {
                let path = path.to_bytes(alloc)?;
                Ok(Call::Truncate { path, len })
            }
            other => other.to_name_call(alloc),
        }
    }

    // The same of a call that makes, removes or exchanges names, or describes a node.
    fn to_name_call(&self, alloc: Global) -> Result<Call, AllocError>
        ensures { IfOk result (λ call. call ≡ asked_call self.now) }
    {
        match *self {
            CallText::Link { old, new } => {
                let old = old.to_bytes(alloc)?;
                let new = new.to_bytes(alloc)?;
                Ok(Call::Link { old, new })
            }
            CallText::Rename { old, new } => {
                let old = old.to_bytes(alloc)?;
                let new = new.to_bytes(alloc)?;
                Ok(Call::Rename { old, new })
            }
            CallText::Exchange { first, second } => {
                let first = first.to_bytes(alloc)?;
                let second = second.to_bytes(alloc)?;
                Ok(Call::Exchange { first, second })
            }
            CallText::Mkdir { path } => Ok(Call::Mkdir {
                path: path.to_bytes(alloc)?,
            }),
            CallText::Rmdir { path } => Ok(Call::Rmdir {
                path: path.to_bytes(alloc)?,
            }),
            CallText::Unlink { path } => Ok(Call::Unlink {
                path: path.to_bytes(alloc)?,
            }),
            CallText::List { path } => Ok(Call::List {
                path: path.to_bytes(alloc)?,
            }),
            CallText::Stat { path } => Ok(Call::Stat {
                path: path.to_bytes(alloc)?,
            }),
            _ => Err(AllocError),
        }
    }
}
