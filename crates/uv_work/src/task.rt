//! What a work request asks for.
ghost use Rattle.std.specs.Prelude.{◌≡◌, ◌≤◌, length};
ghost use Rattle.uv_work.specs.Limits.{LONGEST_TEXT, MOST_ROUNDS};
ghost use Rattle.uv_work.specs.TaskFields.{IsRoundCount, IsPadded, padded};

use uv_ids::{LONGEST_TEXT, MOST_ROUNDS};

/// How often a worker hashes, and the text that it begins with: 1 to 1000 rounds, and a text of at most 64 bytes (own).
#[derive(Clone, Copy, PartialEq, Eq)]
pub struct Task {
    rounds: u16,
    len: u8,
    bytes: [u8; LONGEST_TEXT],
    pub ghost rounds_fit: { IsRoundCount rounds },
    // So equal tasks are equal values.
    pub ghost padded: { IsPadded len bytes },
}

impl Task {
    ghost use Rattle.std.specs.Prelude.{◌<◌, ◌⊎◌, IfSome, IfNone};
    ghost use Rattle.uv_work.specs.Tasks.{IsTask, text_of};
    ghost use Rattle.uv_work.specs.TaskReading.{task_of};

    /// A task. None exactly outside the limits.
    #[tactic(auto, using(crate::proofs::TaskLemmas::tasks))]
    pub fn new(rounds: u16, text: &[u8]) -> Option<Task>
        ensures some { IfSome result (IsTask rounds text.now) }
        ensures none { IfNone result ((rounds ≡ 0) ⊎ (MOST_ROUNDS < rounds) ⊎ (LONGEST_TEXT < length text.now)) }
        // The same, as the readers of lines compute it.
        ensures value { result ≡ task_of rounds text.now }
    {
        if rounds == 0 || rounds > MOST_ROUNDS || text.len() > LONGEST_TEXT {
            return None;
        }
        Some(Task {
            rounds,
            len: text.len() as u8,
            bytes: padded(text),
        })
    }

    /// How often the worker hashes.
    pub fn rounds(&self) -> u16
        ensures value { result ≡ self.now.rounds }
        ensures within { (1 ≤ result) × (result ≤ MOST_ROUNDS) }
    {
        self.rounds
    }

    /// The text that the first round hashes.
    pub fn text(&self) -> &[u8]
        ensures value { result.now ≡ text_of self.now }
        ensures within { length result.now ≤ LONGEST_TEXT }
    {
        &self.bytes[..self.len as usize]
    }
}

/// The text, and then zeros.
fn padded(text: &[u8]) -> [u8; LONGEST_TEXT]
    requires { length text.now ≤ LONGEST_TEXT }
    ensures { result ≡ padded text.now }
{
    let mut bytes = [0; LONGEST_TEXT];
    bytes[..text.len()].copy_from_slice(text);
    bytes
}
