//! The result of a job.
ghost use Rattle.std.specs.Prelude.{◌≡◌};
ghost use Rattle.sha2.specs.Sha256.{sha256};
ghost use Rattle.uv_work.specs.Digests.{digest_of};
ghost use Rattle.uv_work.specs.Tasks.{text_of};

use crate::job::Job;
use sha2::{Digest, Sha256};

// SHA-256 of no bytes.
const OF_NOTHING: [u8; 32] = [
    0xe3, 0xb0, 0xc4, 0x42, 0x98, 0xfc, 0x1c, 0x14, 0x9a, 0xfb, 0xf4, 0xc8, 0x99, 0x6f, 0xb9, 0x24,
    0x27, 0xae, 0x41, 0xe4, 0x64, 0x9b, 0x93, 0x4c, 0xa4, 0x95, 0x99, 0x1b, 0x78, 0x52, 0xb8, 0x55,
];

/// A job that was done, with its digest: SHA-256 (FIPS 180-4) of the text, and in each further round of the 32 bytes
/// before it. No other digest can stand beside a job.
#[derive(Clone, Copy, PartialEq, Eq)]
pub struct WorkResult {
    job: Job,
    digest: [u8; 32],
    pub ghost is_digest: { digest ≡ digest_of job.task.rounds (text_of job.task) },
}

impl WorkResult {
    /// Does the job. Takes no memory.
    #[tactic(auto, using(crate::proofs::Rounds::first_round, crate::proofs::Rounds::one_round_more))]
    pub fn compute(job: Job) -> WorkResult
        ensures { result.job ≡ job }
    {
        let mut digest = hashed(job.task.text());
        for round in 1..job.task.rounds() {
            let next = hashed(&digest);
            digest = next;
        }
        WorkResult { job, digest }
    }

    /// The job that was done.
    pub fn job(&self) -> Job
        ensures { result ≡ self.now.job }
    {
        self.job
    }

    /// The digest of the last round.
    pub fn digest(&self) -> [u8; 32]
        ensures value { result ≡ self.now.digest }
        ensures rounds { result ≡ digest_of self.now.job.task.rounds (text_of self.now.job.task) }
    {
        self.digest
    }
}

// A text of nothing is what most requests have, and its digest is known.
#[tactic(auto, using(crate::proofs::DigestBytes::of_nothing))]
fn hashed(bytes: &[u8]) -> [u8; 32]
    ensures { result ≡ sha256 bytes.now }
{
    if bytes.is_empty() {
        OF_NOTHING
    } else {
        Sha256::digest(bytes)
    }
}
