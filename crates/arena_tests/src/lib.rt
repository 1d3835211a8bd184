//! Tests of the arena, of its parts and of what stands on it, by their public calls: each once with ample memory, and worked examples.
//! Handles, watchers, timers and requests are tested by sessions (`loop_tests`, `examples`).
#![tactic(auto)]

#[cfg(test)]
mod arena;
#[cfg(test)]
mod heap;
#[cfg(test)]
mod raw;
#[cfg(test)]
mod trail;
#[cfg(test)]
mod work;
