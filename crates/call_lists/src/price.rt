// What a lookup in a list of prices answers.

// A price, 0 where the list gives none, and the place at which the next lookup may look first.
// Kept: no `Option`, by the definition `price_of`, which gives 0 where the list gives none.
#[derive(Clone, Copy)]
pub struct Quote {
    pub price: i64,
    pub next: usize,
}
