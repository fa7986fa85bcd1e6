//! Why a trial stopped.
use reference::Unread;
use sheet::fault::Fault;
use std::alloc::AllocError;
use std::fmt;

/// Why a trial stopped. It is not `Drop`, since tokens may be in what it keeps.
pub enum Trouble<T> {
    /// Something is not as it must be.
    Differs(&'static str),
    /// No board accepted these tokens.
    Kept(T),
    /// There is no memory.
    Memory,
}

impl<T> fmt::Display for Trouble<T> {
    fn fmt<W: fmt::Write>(&self, f: &mut fmt::Formatter<W>) -> fmt::Result {
        f.write_str(match self {
            Trouble::Differs(what) => *what,
            Trouble::Kept(_) => "no board accepts a token",
            Trouble::Memory => "no memory",
        })
    }
}

impl<T> From<AllocError> for Trouble<T> {
    fn from(_error: AllocError) -> Trouble<T> {
        Trouble::Memory
    }
}

impl<T> From<Fault> for Trouble<T> {
    fn from(_fault: Fault) -> Trouble<T> {
        Trouble::Differs("the library finds a fault in a sheet")
    }
}

impl<T> From<Unread> for Trouble<T> {
    fn from(error: Unread) -> Trouble<T> {
        match error {
            Unread::Fault(_) => Trouble::Differs("a random sheet has a fault"),
            Unread::Memory(_) => Trouble::Memory,
        }
    }
}
