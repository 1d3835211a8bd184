//! What the calls of timers change.

use crate::change::Times;
use uv_arena::Slots;
use uv_handle::Handles;
use uv_heap::TimerHeap;
use uv_records::Pends;

/// What the calls of timers change: the handles in their slots, the heap and the times.
#[derive(Drop)]
pub struct TimerParts<'a, T: Pends> {
    pub handles: &'a mut Handles,
    pub slots: &'a mut Slots<T>,
    pub heap: &'a mut TimerHeap,
    pub times: &'a mut Times,
}
