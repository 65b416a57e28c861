// The hours of a week as rows of marks, one for each hour: which hours stretches cover, and how many two rows have in common. Each function
// answers on every input; hours past the week are not looked at.
#![tactic(auto)]

ghost use Rattle.std.specs.Prelude.{false, ◌&&◌, ◌||◌, ◌≡◌, ◌<◌, get_or};
ghost use Rattle.week.specs.Week.{stretch, in_week, has, hours_with, Marks};

// The latest closing hour, since a week has 168 hours.
const LATEST: u16 = 168;

// Whether a stretch has any hours, and none past the week.
pub fn is_in_week(first: u16, closing: u16) -> bool
    ensures { result ≡ in_week (stretch first closing) }
{
    (first < closing) & (closing <= LATEST)
}

// A week of which no hour is marked.
pub fn no_hours() -> [bool; 168]
    ensures { Marks (λ h. false) result }
{
    [false; 168]
}

// A week with the hours of a stretch marked, beside those that are marked in another.
pub fn with_stretch(week: [bool; 168], first: u16, closing: u16) -> [bool; 168]
    ensures { Marks (λ h. get_or week h false || has (stretch first closing) h) result }
{
    let mut marked = week;
    for h in first..closing.min(LATEST) {
        marked[usize::from(h)] = true;
    }
    marked
}

// How many hours are marked in both of two weeks.
pub fn common(a: &[bool; 168], b: &[bool; 168]) -> u16
    ensures { result ≡ hours_with (λ h. get_or a.now h false && get_or b.now h false) }
{
    let mut count: u16 = 0;
    for (&one, &other) in a.iter().zip(b) {
        count += u16::from(one & other);
    }
    count
}
