// Settles every ticket of small grids, has the marker mark what was settled, and judges it by the plain search too. Where there are no
// tariff deals its worth is compared with the greatest of all feasible settlements. For the smallest grids the plain search also judges
// every settlement within a ticket's limits.
#![tactic(auto)]

mod every;
mod grids;
mod printed;
mod settled;
mod tally;
mod worths;

fn main(rt: HostRuntime) {
    grids::all(&rt);
}
