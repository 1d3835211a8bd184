//! The versions of recordings.
ghost use Rattle.std.specs.Prelude.{◌≡◌, ◌≢◌, IfSome, IfNone};
ghost use Rattle.uv_script.specs.Grammar.{ParsesFrom};
ghost use Rattle.uv_engine.specs.declared.version.Version.{Version};
ghost use Rattle.uv_engine.specs.Recordings.{version_line, unread_in};

use std::alloc::Global;
use uv_ids::{Fault, is};
use uv_script::Script;

/// Of which version a recording is.
#[derive(Clone, Copy)]
pub(crate) enum Version {
    /// Its script says no order: it is of a time when there was but that of libuv from 1.45 on.
    V1,
    /// Its script may say the order, and has no handle of I/O.
    V2,
    /// Its script may have handles of I/O, or say that due timers are called from their heap.
    V3,
}

impl Version {
    /// The version that a recording's first line names.
    pub(crate) fn of_line(line: &[u8]) -> Option<Version>
        ensures some { IfSome result (λ version. line.now ≡ version_line version) }
        ensures none { IfNone result ((version : Version) → line.now ≢ version_line version) }
    {
        if is(line, b"uvt 1") {
            Some(Version::V1)
        } else if is(line, b"uvt 2") {
            Some(Version::V2)
        } else if is(line, b"uvt 3") {
            Some(Version::V3)
        } else {
            None
        }
    }

    /// The script of a text, as this version has it.
    pub(crate) fn parse(self, alloc: Global, text: &[u8]) -> Result<Script, Fault>
        ensures { ParsesFrom (unread_in self) text.now result }
    {
        match self {
            Version::V1 => Script::parse_without_order(alloc, text),
            Version::V2 => Script::parse_without_io(alloc, text),
            Version::V3 => Script::parse(alloc, text),
        }
    }
}
