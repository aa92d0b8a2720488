// What each query answers.
// Kept: an answer beside the figures, and a flag beside a symbol, since "Each refusal returns its number with zero figures".
use answer::Answer;

// Not present, with symbol 0, where each holding has a price.
#[derive(Clone, Copy)]
pub struct Unpriced {
    pub answer: Answer,
    pub present: bool,
    pub symbol: u64,
}

// Symbols and their weights in the first places; the others are 0.
// Kept: two arrays and a count, since "weights come back by value" without a heap, and `weighed` states the unused places of both.
#[derive(Clone, Copy)]
pub struct Weighed {
    pub count: usize,
    pub symbol: [u64; 64],
    pub weight: [f64; 64],
}

// Money in cents.
#[derive(Clone, Copy)]
pub struct Snapshot {
    pub answer: Answer,
    pub cash: i64,
    pub equity: i64,
    // How many positions are open.
    pub num_positions: u64,
    pub total_realized_pnl: i64,
    pub weights: Weighed,
}

// Weights with an answer.
#[derive(Clone, Copy)]
pub struct Weights {
    pub answer: Answer,
    pub weights: Weighed,
}
