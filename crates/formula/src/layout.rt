// How long the parts of a lent row are.

// A token: its kind and four more numbers.
pub const TOKEN_LEN: usize = 5;

pub const MAX_TOKENS: usize = 12;

// The longest formula.
pub const FORMULA_LEN: usize = TOKEN_LEN * MAX_TOKENS;

// A cell: how many tokens its formula has, and room for the longest.
pub const CELL_LEN: usize = 1 + FORMULA_LEN;
