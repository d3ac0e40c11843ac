use thiserror::Error;

/// Why bytes spell no request.
#[derive(Clone, Copy, Debug, Error)]
pub enum WireError {
    /// They are fewer than the 40 of a header.
    #[error("the message is shorter than its header")]
    ShortHeader,
    /// The length that the header names is not their number, or none that a message may have.
    #[error("the length field is not the length of the message")]
    WrongLength,
    /// Behind the header are fewer bytes than the fields of its opcode take.
    #[error("the body is shorter than its fields")]
    ShortBody,
    /// Bytes stand behind the last field or name.
    #[error("the body goes on behind its last field")]
    LongBody,
    /// A name has no zero byte at its end.
    #[error("a name has no zero byte at its end")]
    UnclosedName,
    /// The bytes to be written, or the nodes to be forgotten, are not as many as their count says.
    #[error("the count is not that of the data")]
    WrongCount,
}
