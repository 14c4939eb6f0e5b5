//! Why a script opens no site.

use std::alloc::AllocError;
use td_check::report_of;
use td_replica::OpenError;
use td_semantics::BrokenTest;
use td_site_messages::push_raise;
use td_values::Raise;

/// What is said of a script for which there is too little memory.
pub(crate) const SCRIPT_MEMORY: &str = "fault script memory: there is not enough memory\n";

// Appends each mistake of a script, as the check of scripts says it, or these words if that finds none.
fn push_mistakes(
    out: &mut String,
    file: &str,
    script: &str,
    words: &str,
) -> Result<(), AllocError> {
    let (report, is_refused) = report_of(*out.allocator(), file, script.as_bytes())?;
    if is_refused {
        out.push_str(report.as_str())
    } else {
        out.push_str(words)
    }
}

// Appends that the evaluation of an opening value raised an error.
fn push_raised(out: &mut String, raise: Raise) -> Result<(), AllocError> {
    out.push_str("fault script raised: what a relvar is to hold at first ")?;
    push_raise(out, raise)?;
    out.push_str("\n")
}

// Appends which key or constraint the opening values break.
fn push_broken(out: &mut String, broken: &BrokenTest) -> Result<(), AllocError> {
    match broken {
        BrokenTest::Key(relvar) => {
            let relvar = relvar.as_str();
            writeln!(
                out,
                "fault script broken key {relvar}: what {relvar} is to hold at first breaks its key"
            )
        }
        BrokenTest::Constraint(name) => {
            let name = name.as_str();
            writeln!(
                out,
                "fault script broken constraint {name}: it is not true of what the relvars hold at first"
            )
        }
    }
}

/// Appends why the script of this file opens no site, in lines.
pub(crate) fn push_unopened(
    out: &mut String,
    file: &str,
    script: &str,
    error: &OpenError,
) -> Result<(), AllocError> {
    match error {
        OpenError::Syntax => {
            let words = "fault script syntax: the script is no list of definitions\n";
            push_mistakes(out, file, script, words)
        }
        OpenError::IllTyped => {
            let words = "fault script type: a definition has no type\n";
            push_mistakes(out, file, script, words)
        }
        OpenError::OpeningRaised(raise) => push_raised(out, *raise),
        OpenError::OpeningBroken(broken) => push_broken(out, broken),
        OpenError::BadSite => out.push_str("fault site: a site's number is 1 to 65535\n"),
        OpenError::BadLimit => out.push_str("fault limit: a site's limit is 1 to 100000\n"),
        OpenError::OutOfMemory => out.push_str(SCRIPT_MEMORY),
    }
}
