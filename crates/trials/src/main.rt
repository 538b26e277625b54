// Every call on given cases: the texts of the data folder, C1 besides its plan, the clock, the cost figures and the bid curves.

#![tactic(auto)]

mod bids;
mod clock;
mod figures;
mod files;
mod others;

use std::io;

fn main(rt: HostRuntime) -> io::Result<()> {
    files::try_texts(&rt)?;
    others::try_others(&rt)?;
    clock::try_clock(&rt)?;
    figures::try_figures(&rt)?;
    bids::try_bids(&rt)
}
