// The bytes of the longest line, by name, said once here and once in specs/Sizes.antt: five numbers of at most 20 digits, five blanks, the
// widths of the longest strip and the newline.
use symbologies::sizes::LONGEST;

pub const LONGEST_LINE: usize = LONGEST + 106;
