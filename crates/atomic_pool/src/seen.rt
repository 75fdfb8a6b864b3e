/// What a seat last read of one word, and how often. No value of it is made.
pub struct Seen {
    /// What its last load gave.
    pub loaded: Option<u64>,
    /// How many loads it made.
    pub loads: u64,
    /// What its last fetch or exchange found.
    pub fetched: Option<u64>,
    /// How many fetches and exchanges it made.
    pub fetches: u64,
}
