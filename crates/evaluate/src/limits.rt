// How large a sheet may be.
pub const MAX_ROWS: u64 = 40;

pub const MAX_COLUMNS: u64 = 12;
