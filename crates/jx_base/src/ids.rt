//! Numbers of things. None is used again once it was given.

/// A domain. Domain Zero is 0; the others are numbered from 1 in the order in which they were made.
#[derive(Clone, Copy, PartialEq, Eq)]
pub struct DomainId(pub u32);

/// A thread of a domain: 0 runs `main`, the threads of exported services follow.
#[derive(Clone, Copy, PartialEq, Eq)]
pub struct ThreadId(pub u32);

/// A service, from 1 in the order of the exports.
#[derive(Clone, Copy, PartialEq, Eq)]
pub struct ServiceId(pub u32);

/// A call, from 1 in the order in which calls were queued.
#[derive(Clone, Copy, PartialEq, Eq)]
pub struct CallId(pub u32);

/// A memory object, from 1 in the order in which they were made.
#[derive(Clone, Copy, PartialEq, Eq)]
pub struct ObjectId(pub u32);

/// A class, by its place in `Program::classes`.
#[derive(Clone, Copy, PartialEq, Eq)]
pub struct ClassId(pub u32);

/// A selector, by its place in `Program::selectors`.
#[derive(Clone, Copy, PartialEq, Eq)]
pub struct MethodId(pub u32);
