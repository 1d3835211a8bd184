//! Tests of the wake board, the thread pool and live runs by their public calls: worked examples, and runs on real threads that come to their end.
#![tactic(auto)]

#[cfg(test)]
mod cases;
#[cfg(test)]
mod gates;
#[cfg(test)]
mod given;
#[cfg(test)]
mod hashing;
#[cfg(test)]
mod live_examples;
#[cfg(test)]
mod pool_examples;
#[cfg(test)]
mod pool_threads;
#[cfg(test)]
mod scripts;
#[cfg(test)]
mod wake;
