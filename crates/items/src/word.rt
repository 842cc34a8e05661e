// The words of the work area, 64 bits each, from the lowest on: the offset of a record in its file
// (23), the mark (1), and the record's name: RCID (32) and the rank of its class (2). What one of each
// part counts:
pub const MARK_WEIGHT: u64 = 8388608;

pub const NAME_WEIGHT: u64 = 16777216;

pub const RANK_WEIGHT: u64 = 72057594037927936;

// In a name alone, what a rank counts: RCID is below it.
pub const CLASS_WEIGHT: u64 = 4294967296;

// The least word of a feature, of rank 3.
pub const FEATURE_WORD: u64 = 216172782113783808;

// In the note of an edge, what the node counts at which it begins; that at which it ends stands below.
pub const BEGIN_WEIGHT: u64 = 4294967296;
