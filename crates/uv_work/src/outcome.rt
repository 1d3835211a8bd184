//! What became of a request.

/// What became of a request.
#[derive(Clone, Copy, PartialEq, Eq)]
pub enum Outcome {
    /// It waits for a worker, or one runs it.
    Open,
    /// A worker finished it with this digest.
    Finished([u8; 32]),
    /// It was cancelled while it waited (uv_cancel).
    Cancelled,
}
