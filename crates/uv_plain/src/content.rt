//! What is asked of what a slot of the arena holds.
ghost use Rattle.std.specs.Prelude.{◌≡◌};
ghost use Rattle.uv_model.specs.Content.{handle_in, request_in, content_keeps, content_pends, is_used};

use uv_records::HandleRecord;
use uv_work::{Content, Request};

/// The handle that a slot holds, if it holds one.
pub fn handle_in(content: Option<Content>) -> Option<HandleRecord>
    ensures { result ≡ handle_in content }
{
    match content {
        Some(Content::Handle(handle)) => Some(handle),
        None | Some(Content::Request(_)) => None,
    }
}

/// The request that a slot holds, if it holds one.
pub fn request_in(content: Option<Content>) -> Option<Request>
    ensures { result ≡ request_in content }
{
    match content {
        Some(Content::Request(request)) => Some(request),
        None | Some(Content::Handle(_)) => None,
    }
}

/// Whether what a slot holds keeps the loop alive.
pub fn content_keeps(content: Option<Content>) -> bool
    ensures { result ≡ content_keeps content }
{
    match content {
        None => false,
        Some(Content::Handle(handle)) => handle.keeps_alive(),
        Some(Content::Request(_)) => true,
    }
}

/// Whether a slot holds an async handle that was sent to.
pub fn content_pends(content: Option<Content>) -> bool
    ensures { result ≡ content_pends content }
{
    match content {
        Some(Content::Handle(handle)) => handle.pending,
        None | Some(Content::Request(_)) => false,
    }
}

/// Whether a slot holds something.
pub fn is_used(content: Option<Content>) -> bool
    ensures { result ≡ is_used content }
{
    content.is_some()
}
