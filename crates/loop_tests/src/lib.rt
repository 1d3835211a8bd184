//! Tests of the loop's layers by their public calls: sessions, texts, the loop over one memory, and the program's own call, `run`.
#![tactic(auto)]

#[cfg(test)]
mod arena_loop;
#[cfg(test)]
mod calls;
#[cfg(test)]
mod given;
#[cfg(test)]
mod runs;
#[cfg(test)]
mod scripts;
#[cfg(test)]
mod session;
#[cfg(test)]
mod text;
#[cfg(test)]
mod walks;
