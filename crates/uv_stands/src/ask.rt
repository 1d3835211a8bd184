//! What an op asks of the handle of its name.
ghost use Rattle.std.specs.Prelude.{◌≡◌};
ghost use Rattle.uv_stands.specs.Asking.{refusal_of};

use uv_ids::Code;
use uv_records::HandleRecord;

/// What an op asks of the handle of its name, which may refuse it.
#[derive(Clone, Copy)]
pub enum Ask {
    /// That it is a handle (uv_ref, uv_unref, and what is asked of any handle).
    Handle,
    /// That it is a timer (uv_timer_set_repeat, uv_timer_get_due_in).
    Timer,
    StartTimer,
    StartWatcher,
    Stop,
    Again,
    Close,
    Send,
}

impl Ask {
    /// Why a handle refuses it.
    pub(crate) fn refusal(self, handle: HandleRecord) -> Option<Code>
        ensures { result ≡ refusal_of self handle }
    {
        match self {
            Ask::Handle => None,
            Ask::Timer => handle.timer_refusal(),
            Ask::StartTimer => handle.start_timer_refusal(),
            Ask::StartWatcher => handle.start_watcher_refusal(),
            Ask::Stop => handle.stop_refusal(),
            Ask::Again => handle.again_refusal(),
            Ask::Close => handle.close_refusal(),
            Ask::Send => handle.send_refusal(),
        }
    }
}
