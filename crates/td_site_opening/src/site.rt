//! The site that a script opens, and that comes back from its journal.

ghost use Rattle.std.specs.Prelude.{IfOk};
ghost use Rattle.td_journal.specs.Reopening.{IsNew};

use crate::options::SiteOptions;
use std::alloc::Global;
use td_io::Device;
use td_journal::{ReopenError, Reopened, take_journal};
use td_journal_files::Contents;
use td_replica::{OpenError, Opens};
use td_semantics::Meter;

/// A site of this script, number and limit that holds nothing, as one must that is to come back from a journal.
pub fn open_new<R: Opens>(
    alloc: Global,
    options: &SiteOptions<'_>,
    script: &str,
) -> Result<R, OpenError>
    ensures { IfOk result (λ s. IsNew (R.seen s)) }
{
    R::open_script(alloc, script, options.site, options.limit)
}

/// Has a new site take what its journal has, which is left as it is.
pub fn take_contents<R: Opens + Drop>(
    alloc: Global,
    contents: &Contents,
    site: R,
    meter: &mut Meter,
) -> Result<Reopened<R>, ReopenError>
    requires { IsNew (R.seen site) }
{
    take_journal(
        alloc,
        site,
        &mut Device::new(contents.bytes.as_slice()),
        meter,
    )
}
