//! What takes one step back, as it is kept.

use crate::large::Large;
use crate::medium::Medium;
use crate::record::Naming;
use crate::small::Small;

/// What takes one step back: where the loop stood, what became of a name, and the change of the rest in the form in which it is kept.
/// It holds no collection.
#[derive(Clone, Copy)]
pub struct KeptRecord<P: Copy> {
    pub place: P,
    pub naming: Naming,
    pub form: Form,
}

/// A change, by how large it is.
#[derive(Clone, Copy)]
pub enum Form {
    Small(Small),
    Medium(Medium),
    Large(Large),
}

// A record has at most 32 words of 64 bits where a place has at most 10.
const _: () = prove!(std::mem::size_of::<KeptRecord<[u64; 10]>>() <= 256);
