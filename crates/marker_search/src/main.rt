// Compares the marker with a plain search: over every ticket of two small grids, and for each that is not refused over every
// settlement within its limits and some beyond them. The last line says how many of the marker's answers differ.
#![tactic(auto)]

mod beyond;
mod compare;
mod grids;
mod printed;

fn main(rt: HostRuntime) {
    grids::all(&rt);
}
