//! Single changes of a packet's head.

ghost use Rattle.std.specs.Prelude.{◌≡◌, ◌↔◌, IsTrue};
ghost use Rattle.hq_explain.specs.Changes.{IsRaise, changed, is_wider};

use hq_packet::{Head, Scope};

/// The fences of a packet.
#[derive(Clone, Copy, Debug, PartialEq, Eq)]
pub enum Fence {
    Acquire,
    Release,
}

/// A single change of a packet's head: its barrier bit is set, or a fence gets a scope.
#[derive(Clone, Copy, Debug, PartialEq, Eq)]
pub enum Change {
    Bit,
    Scope(Fence, Scope),
}

/// The head with this change.
pub fn changed(head: Head, change: Change) -> Head
    ensures { result ≡ changed change head }
{
    match change {
        Change::Bit => Head {
            barrier: true,
            ..head
        },
        Change::Scope(Fence::Acquire, scope) => Head {
            acquire: scope,
            ..head
        },
        Change::Scope(Fence::Release, scope) => Head {
            release: scope,
            ..head
        },
    }
}

/// Whether a scope reaches farther than another.
fn is_wider(scope: Scope, than: Scope) -> bool
    ensures { result ≡ is_wider scope than }
{
    match scope {
        Scope::None => false,
        Scope::Agent => than == Scope::None,
        Scope::System => than != Scope::System,
    }
}

/// Whether the change raises the head: the bit isn't set yet, or the scope reaches farther than the one that is there.
pub fn is_raise(head: Head, change: Change) -> bool
    ensures { IsTrue result ↔ IsRaise change head }
{
    match change {
        Change::Bit => !head.barrier,
        Change::Scope(Fence::Acquire, scope) => is_wider(scope, head.acquire),
        Change::Scope(Fence::Release, scope) => is_wider(scope, head.release),
    }
}
