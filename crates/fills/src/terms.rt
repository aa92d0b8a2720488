// What a fill is made of.
use crate::record::ExecutionKind;
use cost_model::CostModel;
use position::{Shares, Symbol};

// A planned order: signed micro-shares at the listed price.
#[derive(Clone, Copy)]
pub struct Order {
    pub symbol: Symbol,
    pub quantity: Shares,
    pub price: i64,
}

// What every fill of one call shares.
#[derive(Clone, Copy)]
pub struct Terms {
    pub costs: CostModel,
    pub quantity_step: i64,
    pub recording: bool,
    pub period_index: u64,
    pub kind: ExecutionKind,
}

// The scalars that a run of fills carries beside the lent columns.
#[derive(Clone, Copy)]
pub struct Book {
    pub cash: i64,
    pub count: usize,
    pub trimmed: u64,
    pub shortfall: i64,
    pub sequence: u64,
    pub written: usize,
    // Where the next symbol is looked for first; no answer depends on it.
    pub hint: usize,
}
