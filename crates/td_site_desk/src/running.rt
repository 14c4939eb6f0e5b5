//! A run of the event loop over a site.

ghost use Rattle.td_event_loop.specs.Chains.{Chain};
ghost use Rattle.td_site_desk.specs.Runs.{GuardedStep};

use crate::server::SiteServer;
use std::io;
use std::net::Net;
use std::random::RandomSource;
use std::rt::Runtime;
use std::time::Clock;
use td_changes::Changes;
use td_digested_sites::Digested;
use td_event_loop::EventLoop;
use td_replica::Catalogued;
use td_trials::Trials;

/// Answers requests and meets other sites until the desk stops or leaves. It returns the error of the event loop.
pub fn serve<
    R: Changes + Catalogued + Trials + Digested + Drop,
    H: Runtime + AllocGlobal,
    N: Net + Clock + RandomSource,
>(event_loop: &mut EventLoop, net: &N, server: &mut SiteServer<'_, R, H>) -> io::Result<()>
    ensures { Chain GuardedStep (server.old.api.guard, R.seen server.old.api.desk.site)
        (server.new.api.guard, R.seen server.new.api.desk.site) }
{
    event_loop.run(net, server)
}
