//! What is kept of each domain.

ghost use Rattle.std.specs.Prelude.{◌≡◌, ◌<◌, map, length};
ghost use Rattle.yp_binding.specs.inside.Standings.{fresh, bound_by, rested, bound_to};

use yp_io::Peer;

/// The quiet turns that end a binding.
const QUIET_MAX: u32 = 3;

/// How a domain is bound.
#[derive(Clone, Copy)]
pub(crate) struct BindingState {
    /// The server of the last SETDOM that was let, or offer that was taken.
    pub(crate) latest: Option<Peer>,
    /// The quiet turns since then, up to those that end it.
    pub(crate) quiet: u32,
    /// The server that it was bound to when the round began.
    pub(crate) asked: Option<Peer>,
}

impl BindingState {
    pub(crate) fn new() -> BindingState
        ensures { result ≡ fresh }
    {
        BindingState {
            latest: None,
            quiet: 0,
            asked: None,
        }
    }

    /// The server that the domain is bound to.
    pub(crate) fn bound(&self) -> Option<Peer>
        ensures { result ≡ bound_by self.now }
    {
        if self.quiet < QUIET_MAX {
            self.latest
        } else {
            None
        }
    }

    /// Binds it.
    pub(crate) fn bind(&mut self, server: Peer)
        ensures { self.new ≡ bound_to self.old server }
    {
        self.latest = Some(server);
        self.quiet = 0;
    }

    /// A quiet turn passes, and a round begins.
    fn rest(&mut self)
        ensures { self.new ≡ rested self.old }
    {
        self.quiet = if self.quiet < QUIET_MAX {
            self.quiet + 1
        } else {
            QUIET_MAX
        };
        self.asked = self.bound();
    }
}

/// A quiet turn passes for each domain.
pub(crate) fn rest_all(standings: &mut [BindingState])
    ensures { standings.new ≡ map rested standings.old }
{
    for standing in standings {
        standing.rest();
    }
}
