// How deep mirrors and values may be nested.

/// How deep mirrors and values may be nested in a frame, counted together.
pub const MOST_NESTED: u16 = 256;
