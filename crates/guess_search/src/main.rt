// Guesses a settlement of every ticket of small grids, and has the test of certificates and the plain search judge the guess and every
// settlement that differs from it in one number by one. Then one of the two pilots is left out of the market, but not out of the squares:
// such guesses are not all certified, and what the settler writes in their place is judged by the plain search.
#![tactic(auto)]

mod altered;
mod files;
mod grids;
mod judged;
mod one_pilot;
mod printed;
mod squares;
mod tally;

fn main() {
    grids::all();
}
