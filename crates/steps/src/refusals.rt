// The numbers of refusal, by name.
pub const WRONG_SIZE: u32 = 1;

pub const FILE_TOO_LONG: u32 = 2;

pub const UNENDED: u32 = 3;

pub const ILLEGAL_BYTE: u32 = 4;

pub const LINE_TOO_LONG: u32 = 5;

pub const CANNOT_STAND: u32 = 6;

pub const WRONG_COLUMNS: u32 = 7;

pub const BAD_NUMBER: u32 = 8;

pub const WRONG_FORMAT: u32 = 9;

pub const BAD_TEXT: u32 = 10;

pub const ROW_OUT_OF_PLACE: u32 = 11;

pub const TABLE_FULL: u32 = 12;

pub const TABLE_MISSING: u32 = 13;

pub const NUMBER_USED: u32 = 14;

pub const UNKNOWN_CITED: u32 = 15;

pub const SENTENCE_FULL: u32 = 16;

pub const PHRASE_TWICE: u32 = 17;

pub const UNKNOWN_TAG: u32 = 18;

pub const WRONG_PARENT: u32 = 19;

pub const OTHER_NUMBER: u32 = 20;

pub const PHRASE_GAP: u32 = 21;

pub const PARENT_ABSENT: u32 = 22;

pub const ENDS_INSIDE: u32 = 23;

pub const NOT_HANDED_OUT: u32 = 24;

pub const NO_ROOM: u32 = 25;

pub const UNEXPLAINED: u32 = 26;
