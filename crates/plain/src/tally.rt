// Counts of what a search met, at places that the program names.

pub fn no_counts() -> [usize; 17] {
    [0; 17]
}

pub fn count(tally: &mut [usize; 17], place: usize) {
    if let Some(counted) = tally.get_mut(place) {
        *counted = counted.saturating_add(1);
    }
}
