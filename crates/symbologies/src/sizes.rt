// The sizes, by name, each said once here and once in specs/Sizes.antt.

// The places of a row.
pub const PLACES: usize = 34;

// The elements of the longest strip: Code 39, 32 characters.
pub const LONGEST: usize = 339;
