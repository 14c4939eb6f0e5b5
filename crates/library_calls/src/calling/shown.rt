//! What sites show, and what calls gave, on standard output.

use anyhow::{Result, bail};
use td_io::Device;
use td_listings::{listing, log_text, show_outcome};
use td_meeting::Met;
use td_relations::Relation;
use td_replica::{Catalogued, Issued, Taken};
use td_semantics::{Answer, Outcome};
use td_stamps::Stamp;
use td_values::{Kind, Value, show};

/// Tells a site: its number, whether it is open, its listing and its log.
pub fn tell_site<R: Catalogued>(rt: &HostRuntime, site: &R) -> Result<()> {
    let openness = if site.is_open() { "open" } else { "closed" };
    println!(rt; "site {} {openness}", site.site())?;
    let Ok(log) = log_text(rt.alloc(), site) else {
        bail!("the site has no log");
    };
    print!(rt; "{log}")?;
    if listing(rt.alloc(), site, &mut Device::new(rt.stdout())).is_err() {
        bail!("the site has no listing");
    }
    Ok(())
}

/// Tells how long a site's journal is.
pub fn tell_journal(rt: &HostRuntime, number: u16, journal: &[u8]) -> Result<()> {
    println!(rt; "journal {number} {}", journal.len())?;
    Ok(())
}

fn tell_outcome(rt: &HostRuntime, stamp: Stamp, outcome: &Outcome) -> Result<()> {
    let mut text = String::new(rt.alloc());
    show_outcome(&mut text, outcome)?;
    println!(rt; "{}.{} {text}", stamp.clock, stamp.site)?;
    Ok(())
}

/// What a call gives.
pub trait Told {
    fn tell(self, rt: &HostRuntime) -> Result<()>;
}

impl Told for () {
    fn tell(self, _rt: &HostRuntime) -> Result<()> {
        Ok(())
    }
}

impl Told for Issued {
    fn tell(self, rt: &HostRuntime) -> Result<()> {
        tell_outcome(rt, self.stamp, &self.outcome)
    }
}

impl Told for Taken {
    fn tell(self, rt: &HostRuntime) -> Result<()> {
        println!(rt; "fresh {} known {}", self.fresh, self.known)?;
        Ok(())
    }
}

impl Told for Met {
    fn tell(self, rt: &HostRuntime) -> Result<()> {
        println!(rt; "fresh {} {}", self.fresh_a, self.fresh_b)?;
        Ok(())
    }
}

impl Told for Vec<(Stamp, Outcome)> {
    fn tell(self, rt: &HostRuntime) -> Result<()> {
        for (stamp, outcome) in &self {
            tell_outcome(rt, *stamp, outcome)?;
        }
        Ok(())
    }
}

impl Told for Answer<Value> {
    fn tell(self, rt: &HostRuntime) -> Result<()> {
        match self {
            Answer::Value(value) => println!(rt; "{}", show(rt.alloc(), &value)?)?,
            Answer::Raised(raise) => println!(rt; "raised {raise}")?,
        }
        Ok(())
    }
}

impl Told for Answer<Relation> {
    fn tell(self, rt: &HostRuntime) -> Result<()> {
        match self {
            Answer::Value(relation) => {
                let kind = Kind::Relation(relation.into_rows());
                Answer::Value(Value { kind }).tell(rt)
            }
            Answer::Raised(raise) => Answer::<Value>::Raised(raise).tell(rt),
        }
    }
}
