//! The lists that a slot can be on, and the kinds of handle that a section walks.
ghost use Rattle.std.specs.Prelude.{◌≡◌, ◌<◌};
ghost use Rattle.uv_records.specs.declared.lists.TheConstants.{LIST_COUNT};
ghost use Rattle.uv_records.specs.Lists.{number, all_lists, watcher_kind, list_of, yet_of, phase_of};

use uv_ids::{Kind, Phase};

/// How many lists there are.
pub const LIST_COUNT: usize = 14;

/// A list of slots. A slot is on one of them, or on none.
#[derive(Clone, Copy, PartialEq, Eq)]
pub enum ListName {
    /// The timers that a section collected and will call.
    Ready,
    Idle,
    IdleYet,
    Prepare,
    PrepareYet,
    Check,
    CheckYet,
    Async,
    AsyncYet,
    Closing,
    ClosingYet,
    /// The requests that no worker took yet.
    Waiting,
    /// The requests that are finished or cancelled.
    Done,
    DoneYet,
}

impl ListName {
    /// All of them, by number.
    pub fn all() -> [ListName; LIST_COUNT]
        ensures { result ≡ all_lists }
    {
        [
            ListName::Ready,
            ListName::Idle,
            ListName::IdleYet,
            ListName::Prepare,
            ListName::PrepareYet,
            ListName::Check,
            ListName::CheckYet,
            ListName::Async,
            ListName::AsyncYet,
            ListName::Closing,
            ListName::ClosingYet,
            ListName::Waiting,
            ListName::Done,
            ListName::DoneYet,
        ]
    }

    /// The list's number, from 0.
    pub fn number(self) -> u8
        ensures number { result ≡ number self }
        ensures below { result < LIST_COUNT }
    {
        match self {
            ListName::Ready => 0,
            ListName::Idle => 1,
            ListName::IdleYet => 2,
            ListName::Prepare => 3,
            ListName::PrepareYet => 4,
            ListName::Check => 5,
            ListName::CheckYet => 6,
            ListName::Async => 7,
            ListName::AsyncYet => 8,
            ListName::Closing => 9,
            ListName::ClosingYet => 10,
            ListName::Waiting => 11,
            ListName::Done => 12,
            ListName::DoneYet => 13,
        }
    }
}

/// The first and the last slot of a list.
#[derive(Clone, Copy, PartialEq, Eq)]
pub struct Ends {
    pub head: Option<u32>,
    pub tail: Option<u32>,
}

/// The kinds of handle that a section of each iteration walks.
#[derive(Clone, Copy, PartialEq, Eq)]
pub enum WatcherKind {
    /// uv_idle_t
    Idle,
    /// uv_prepare_t
    Prepare,
    /// uv_check_t
    Check,
    /// uv_async_t
    Async,
}

impl WatcherKind {
    /// The kind as one of these, unless it is a timer or a handle of I/O.
    pub fn from_kind(kind: Kind) -> Option<WatcherKind>
        ensures { result ≡ watcher_kind kind }
    {
        match kind {
            Kind::Timer | Kind::Io => None,
            Kind::Idle => Some(WatcherKind::Idle),
            Kind::Prepare => Some(WatcherKind::Prepare),
            Kind::Check => Some(WatcherKind::Check),
            Kind::Async => Some(WatcherKind::Async),
        }
    }

    /// The list of them.
    pub fn list(self) -> ListName
        ensures { result ≡ list_of self }
    {
        match self {
            WatcherKind::Idle => ListName::Idle,
            WatcherKind::Prepare => ListName::Prepare,
            WatcherKind::Check => ListName::Check,
            WatcherKind::Async => ListName::Async,
        }
    }

    /// The list of those that the section under way has yet to run.
    pub fn yet(self) -> ListName
        ensures { result ≡ yet_of self }
    {
        match self {
            WatcherKind::Idle => ListName::IdleYet,
            WatcherKind::Prepare => ListName::PrepareYet,
            WatcherKind::Check => ListName::CheckYet,
            WatcherKind::Async => ListName::AsyncYet,
        }
    }

    /// The section that calls them.
    pub fn phase(self) -> Phase
        ensures { result ≡ phase_of self }
    {
        match self {
            WatcherKind::Idle => Phase::Idle,
            WatcherKind::Prepare => Phase::Prepare,
            WatcherKind::Check => Phase::Check,
            WatcherKind::Async => Phase::Async,
        }
    }
}
