// Opens a market from every ticket of small grids, and makes on it every list of some calls, up to three, refused ones among them. After
// each call the ticket held is compared with what the words of the paper make of it, the answer with theirs, and the marker and the plain
// search judge the settlement held, and the free hours held are compared with sums over its deals. The same calls are given to `replay` as
// one list, whole and cut short.
#![tactic(auto)]

mod calls;
mod files;
mod free;
mod grids;
mod held;
mod judged;
mod lists;
mod opened;
mod paper;
mod printed;
mod replayed;
mod tally;
mod terms;

fn main() {
    grids::all();
}
