/// The most bytes of a byte string or of a text.
pub const LONGEST_STRING: u64 = 4_198_400;

/// The most items of an array, and the most pairs of a map.
pub const MOST_PARTS: u64 = 4096;

/// The most arrays, maps and tags that are open at once, each inside the one before.
pub const MOST_CONTAINERS: u8 = 16;
