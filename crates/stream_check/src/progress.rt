//! The result of a call of `Checker::feed`.

/// How many bytes of a piece a call of `Checker::feed` used, and with what result.
#[derive(Clone, Copy, Debug, PartialEq, Eq)]
pub struct Progress {
    /// How many bytes of the piece were used.
    pub used: usize,
    /// The result for these bytes.
    pub status: CheckStatus,
}

/// The result for the bytes that a call of `Checker::feed` used.
#[derive(Clone, Copy, Debug, PartialEq, Eq)]
pub enum CheckStatus {
    /// The bytes end a good line. The rest of the piece is still to be fed.
    Line,
    /// All bytes of the piece were used, and none of them ended a line.
    More,
    /// These bytes finished the checker, or it was finished before. It takes no more bytes.
    Over,
}
