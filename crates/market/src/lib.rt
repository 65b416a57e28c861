// The market of flying hours is mathematics only: its definitions stand in specs/, its theorems in proofs/.
#![tactic(auto)]

// The two deals of a grower and a pilot. An hour by the tariff has a fixed gain for each of them; an hour of the free deal
// has a joint gain, which they split as they agree.
#[derive(Clone, Copy, Debug, PartialEq, Eq)]
pub enum Deal {
    Tariff,
    Free,
}
