//! What the bytes of a connection ask for.
ghost use Rattle.std.specs.Prelude.{◌≡◌};

use std::marker::Model;

/// Why a request is refused before its target is looked at.
#[derive(Clone, Copy, Debug, PartialEq, Eq)]
pub enum Refusal {
    /// The head does not end within its limit.
    Head,
    /// The head is no request head, or says of the request what it may not.
    Request,
    /// The body has a coding.
    Coding,
    /// The body is longer than its limit.
    Size,
}

/// A whole request.
#[derive(Drop)]
pub struct Request {
    pub(crate) method: Vec<u8>,
    pub(crate) target: Vec<u8>,
    pub(crate) body: Vec<u8>,
    pub(crate) closes: bool,
}

impl Request {
    /// Its method, byte for byte.
    pub fn method(&self) -> &[u8]
        ensures { result.now ≡ self.now.method }
    {
        &self.method
    }

    /// What it is for, byte for byte.
    pub fn target(&self) -> &[u8]
        ensures { result.now ≡ self.now.target }
    {
        &self.target
    }

    /// Its body.
    pub fn body(&self) -> &[u8]
        ensures { result.now ≡ self.now.body }
    {
        &self.body
    }

    /// Whether the connection closes behind the reply.
    pub fn closes(&self) -> bool
        ensures { result ≡ self.now.closes }
    {
        self.closes
    }
}

impl Model for Request {
    ghost use Rattle.ml_request.specs.Request.{RequestParts};

    ghost Value = { RequestParts };

    ghost view = { λ a. record {
      method = a.method.items;
      target = a.target.items;
      body = a.body.items;
      closes = a.closes;
    } };
}

/// What comes next on a connection.
#[derive(Drop)]
pub enum Event {
    /// A request, whole.
    Whole(Request),
    /// Bytes that are refused.
    Refused(Refusal),
}

/// How a request goes on behind its head.
#[derive(Clone, Copy, Debug)]
pub struct Framing {
    /// The length of its body.
    pub length: usize,
    /// Whether it asks to close.
    pub closes: bool,
}

/// What a head says of its request.
#[derive(Drop)]
pub(crate) struct Head {
    pub(crate) method: Vec<u8>,
    pub(crate) target: Vec<u8>,
    pub(crate) framing: Framing,
}

impl Model for Head {
    ghost use Rattle.ml_request.specs.Request.{HeadParts};

    ghost Value = { HeadParts };

    ghost view = { λ a. record {
      method = a.method.items;
      target = a.target.items;
      length = a.framing.length;
      closes = a.framing.closes;
    } };
}

/// Where the search for the end of a head stopped.
#[derive(Clone, Copy, Debug, PartialEq, Eq)]
pub(crate) enum HeadEnd {
    /// The head has so many bytes.
    Found(usize),
    /// It has more bytes than a head may have.
    TooLong,
    /// The input has ended.
    InputEnded,
}

/// Why nothing more was read.
#[derive(Clone, Copy, Debug, PartialEq, Eq)]
pub enum ReadFault {
    /// The source failed.
    Failed,
    /// Out of memory.
    Memory,
}
