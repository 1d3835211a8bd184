//! What a slot of the loop holds.

use crate::request::Request;
use uv_records::{HandleRecord, HoldsHandle, Pends};

/// What a slot holds: a handle's record, or a request's.
#[derive(Clone, Copy, PartialEq, Eq)]
pub enum Content {
    Handle(HandleRecord),
    Request(Request),
}

impl Pends for Content {
    ghost use Rattle.uv_work.specs.Content.{is_sent_to};

    ghost is_pending = { is_sent_to };

    fn pends(&self) -> bool {
        match self {
            Content::Handle(handle) => handle.pending,
            Content::Request(_) => false,
        }
    }
}

impl HoldsHandle for Content {
    ghost use Rattle.std.specs.Prelude.{refl};
    ghost use Rattle.uv_work.specs.declared.content.Content.TheVariants.{Handle as handle};
    ghost use Rattle.uv_work.specs.Content.{handle_of, only_handle};

    ghost of_record = { λ r. handle r };

    ghost held_record = { handle_of };

    fn of(handle: HandleRecord) -> Content {
        Content::Handle(handle)
    }

    fn held(&self) -> Option<HandleRecord> {
        match self {
            Content::Handle(handle) => Some(*handle),
            Content::Request(_) => None,
        }
    }

    ghost gives_back = { λ r. refl };

    ghost only_that = { only_handle };
}

/// A content of slots that may be a request's record.
pub trait HoldsWork: Pends {
    ghost use Rattle.std.specs.Prelude.{◌≡◌, Option, Some};
    ghost use Rattle.uv_work.specs.declared.request.Request.{Request};

    ghost of_request: { Request → Self };

    ghost held_request: { Self → Option Request };

    /// The content with this record.
    fn of(request: Request) -> Self
        ensures { result ≡ of_request request };

    /// The record, if it is a request's.
    fn held(&self) -> Option<Request>
        ensures { result ≡ held_request self.now };

    ghost gives_back: { (r : Request) → held_request (of_request r) ≡ Some r };

    /// What holds a request's record holds nothing else.
    ghost only_that: { (t : Self) (r : Request) → held_request t ≡ Some r → t ≡ of_request r };
}

impl HoldsWork for Content {
    ghost use Rattle.std.specs.Prelude.{refl};
    ghost use Rattle.uv_work.specs.declared.content.Content.TheVariants.{Request as request};
    ghost use Rattle.uv_work.specs.Content.{request_of, only_request};

    ghost of_request = { λ r. request r };

    ghost held_request = { request_of };

    fn of(request: Request) -> Content {
        Content::Request(request)
    }

    fn held(&self) -> Option<Request> {
        match self {
            Content::Handle(_) => None,
            Content::Request(request) => Some(*request),
        }
    }

    ghost gives_back = { λ r. refl };

    ghost only_that = { only_request };
}

// Each slot has so much room for it.
const _: () = prove!(std::mem::size_of::<Content>() <= 112);
