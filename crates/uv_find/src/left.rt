//! What is left of what may come.

/// What is left of an offer, or of what came from one source in a recording: for one name, of one worker, or of the clock.
#[derive(Clone, Copy)]
pub enum Left {
    /// The offer may be taken as often as one likes.
    AtWill,
    /// The offer may be taken so many times.
    Times(u32),
    /// The recorded event of this number is the next of its source. It is ahead.
    Ahead(usize),
    /// The recorded event of this number is the next of its source. It was held back.
    Held(usize),
    /// All that came from the source has come.
    Over,
}
