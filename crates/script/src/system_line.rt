// What a line asks of a running system.
ghost use Rattle.std.specs.Prelude.{◌≡◌, [], ◌∷◌, Some, option_map};
ghost use Rattle.script.specs.Script.{parts};
ghost use Rattle.script.specs.SystemLines.{manner, event, lower_tier, asks, asks_event, asks_call, asks_in, asks_numbered, system_line};
ghost use Rattle.script.specs.LineValues.{system_line_seen};
ghost use Rattle.script.specs.declared.system_line.EventWord.TheVariants as events;

use crate::call_text::{CallText, call_of, verb_of};
use crate::fills::{MEDIA, fill_of, fills_of, medium_of};
use crate::number::{client_of, number_of, ordinal_of};
use crate::path_text::PathText;
use crate::words::{cut, four_words, one_word, two_words};
use tier_device::Fill;

/// How a client's call is asked.
#[derive(Clone, Copy)]
pub enum Manner {
    /// Its needs are served, and other clients hand over what they hold.
    Served,
    /// Its needs are served, but no other client hands anything over.
    Tried,
    /// Its needs are served until its record is begun.
    Begun,
}

/// The tiers that blocks go down to.
#[derive(Clone, Copy)]
pub enum LowerTier {
    Block,
    Slow,
}

/// What a line of a script over a running system is. Clients are 1 to 8.
#[derive(Clone, Copy)]
pub enum SystemLine<'a> {
    /// An empty line or a comment, which prints nothing.
    Silent,
    /// A client's call.
    Call {
        client: u32,
        manner: Manner,
        call: CallText<'a>,
    },
    /// One device call of the call that a client has begun.
    Step {
        client: u32,
    },
    /// All that a client logged is digested.
    Digest {
        client: u32,
    },
    /// What a client has to wipe is wiped.
    Wipe {
        client: u32,
    },
    /// A client dies.
    Die {
        client: u32,
    },
    /// A client that died is buried, and a new one takes its seat.
    Bury {
        client: u32,
    },
    /// `count` blocks of a file, from logical block `first` on, go down to a tier.
    Migrate {
        path: PathText<'a>,
        first: u64,
        count: u64,
        to: LowerTier,
    },
    /// Prints the tier of a logical block of a file.
    Where {
        path: PathText<'a>,
        block: u64,
    },
    /// Prints what the tree costs, what the clients were given, and how many units there are.
    Book,
    /// The world stops within the write or fence of this number, counted over all media from here on, the first being 1. The fill
    /// is what every byte holds then that was written and not fenced.
    Stop {
        call: u64,
        fill: Fill,
    },
    /// The world stops between two calls of its media. The fill of the shared medium stands at 0, that of a client's regions at the
    /// client's number.
    Halt {
        fills: [Fill; MEDIA],
    },
    /// The write or fence of this number fails, counted over one medium from here on, the first being 1. The medium is 0 for the
    /// shared one, else that of the client of this number.
    Fail {
        call: u64,
        medium: u32,
    },
    /// The world is recovered.
    Recover,
}

/// The word that names an event which is no call.
#[derive(Clone, Copy)]
pub enum EventWord {
    Step,
    Digest,
    Wipe,
    Die,
    Bury,
    Migrate,
    Where,
    Stop,
    Halt,
    Fail,
}

/// What a line is; none where it can't be read.
pub fn read_system_line(line: &[u8]) -> Option<SystemLine<'_>>
    ensures { option_map system_line_seen result ≡ system_line line.now }
{
    match line {
        [] => Some(SystemLine::Silent),
        [b'#', ..] => Some(SystemLine::Silent),
        _ => read_asked(line),
    }
}

fn read_asked(line: &[u8]) -> Option<SystemLine<'_>>
    ensures { option_map system_line_seen result ≡ option_map Some (asks (parts 32 line.now)) }
{
    let Some((word, words)) = cut(line, b' ') else {
        return single_of(line);
    };
    match event_of(word) {
        Some(event) => asked_event(event, words),
        None => call_line(word, words),
    }
}

// The call of the client that a word numbers.
fn call_line<'a>(word: &[u8], words: &'a [u8]) -> Option<SystemLine<'a>>
    ensures { option_map system_line_seen result ≡ option_map Some (asks_numbered word.now (parts 32 words.now)) }
{
    let client = client_of(word)?;
    asked_call(client, words)
}

// What a line of one word asks.
fn single_of(word: &[u8]) -> Option<SystemLine<'_>>
    ensures { option_map system_line_seen result ≡ option_map Some (asks (word.now ∷ [])) }
{
    match word {
        b"book" => Some(SystemLine::Book),
        b"halt" => Some(SystemLine::Halt {
            fills: [Fill::New; MEDIA],
        }),
        b"recover" => Some(SystemLine::Recover),
        _ => None,
    }
}

fn event_of(word: &[u8]) -> Option<EventWord>
    ensures { result ≡ event word.now }
{
    let Ok(name) = str::from_utf8(word) else {
        return None;
    };
    match name {
        "step" => Some(EventWord::Step),
        "digest" => Some(EventWord::Digest),
        "wipe" => Some(EventWord::Wipe),
        "die" => Some(EventWord::Die),
        "bury" => Some(EventWord::Bury),
        "migrate" => Some(EventWord::Migrate),
        "where" => Some(EventWord::Where),
        "stop" => Some(EventWord::Stop),
        "halt" => Some(EventWord::Halt),
        "fail" => Some(EventWord::Fail),
        _ => None,
    }
}

fn asked_event(event: EventWord, words: &[u8]) -> Option<SystemLine<'_>>
    ensures { option_map system_line_seen result ≡ option_map Some (asks_event event (parts 32 words.now)) }
{
    match event {
        EventWord::Step => Some(SystemLine::Step {
            client: client_of(one_word(words)?)?,
        }),
        EventWord::Digest => Some(SystemLine::Digest {
            client: client_of(one_word(words)?)?,
        }),
        EventWord::Wipe => Some(SystemLine::Wipe {
            client: client_of(one_word(words)?)?,
        }),
        EventWord::Die => Some(SystemLine::Die {
            client: client_of(one_word(words)?)?,
        }),
        EventWord::Bury => Some(SystemLine::Bury {
            client: client_of(one_word(words)?)?,
        }),
        EventWord::Migrate => migrate_of(words),
        EventWord::Where => where_of(words),
        EventWord::Stop => stop_of(words),
        EventWord::Halt => halt_of(words),
        EventWord::Fail => fail_of(words),
    }
}

fn migrate_of(words: &[u8]) -> Option<SystemLine<'_>>
    ensures { option_map system_line_seen result ≡ option_map Some (asks_event events.Migrate (parts 32 words.now)) }
{
    let (path, first, count, to) = four_words(words)?;
    let path = PathText::read(path)?;
    let first = number_of(first)?;
    let count = number_of(count)?;
    let to = lower_tier_of(to)?;
    Some(SystemLine::Migrate {
        path,
        first,
        count,
        to,
    })
}

fn lower_tier_of(word: &[u8]) -> Option<LowerTier>
    ensures { result ≡ lower_tier word.now }
{
    match word {
        b"block" => Some(LowerTier::Block),
        b"slow" => Some(LowerTier::Slow),
        _ => None,
    }
}

fn where_of(words: &[u8]) -> Option<SystemLine<'_>>
    ensures { option_map system_line_seen result ≡ option_map Some (asks_event events.Where (parts 32 words.now)) }
{
    let (path, block) = two_words(words)?;
    let path = PathText::read(path)?;
    let block = number_of(block)?;
    Some(SystemLine::Where { path, block })
}

fn stop_of(words: &[u8]) -> Option<SystemLine<'_>>
    ensures { option_map system_line_seen result ≡ option_map Some (asks_event events.Stop (parts 32 words.now)) }
{
    let (call, fill) = two_words(words)?;
    let call = ordinal_of(call)?;
    let fill = fill_of(fill)?;
    Some(SystemLine::Stop { call, fill })
}

fn halt_of(words: &[u8]) -> Option<SystemLine<'_>>
    ensures { option_map system_line_seen result ≡ option_map Some (asks_event events.Halt (parts 32 words.now)) }
{
    let fills = fills_of(words)?;
    Some(SystemLine::Halt { fills })
}

fn fail_of(words: &[u8]) -> Option<SystemLine<'_>>
    ensures { option_map system_line_seen result ≡ option_map Some (asks_event events.Fail (parts 32 words.now)) }
{
    let (call, medium) = two_words(words)?;
    let call = ordinal_of(call)?;
    let medium = medium_of(medium)?;
    Some(SystemLine::Fail { call, medium })
}

// A client's call, with the manner before it, if one is given.
fn asked_call(client: u32, words: &[u8]) -> Option<SystemLine<'_>>
    ensures { option_map system_line_seen result ≡ option_map Some (asks_call client (parts 32 words.now)) }
{
    let (word, rest) = cut(words, b' ')?;
    match manner_of(word) {
        Some(manner) => line_by(client, manner, rest),
        None => line_by(client, Manner::Served, words),
    }
}

fn manner_of(word: &[u8]) -> Option<Manner>
    ensures { result ≡ manner word.now }
{
    match word {
        b"try" => Some(Manner::Tried),
        b"begin" => Some(Manner::Begun),
        _ => None,
    }
}

fn line_by(client: u32, manner: Manner, words: &[u8]) -> Option<SystemLine<'_>>
    ensures { option_map system_line_seen result ≡ option_map Some (asks_in client manner (parts 32 words.now)) }
{
    let (verb, words) = cut(words, b' ')?;
    let call = call_of(verb_of(verb)?, words)?;
    Some(SystemLine::Call {
        client,
        manner,
        call,
    })
}
