// What a table and an output hold before they are lent.
pub const UNCLEARED_NUMBER: u64 = 0xA5A5A5A5A5A5A5A5;

pub const UNCLEARED_BYTE: u8 = 0xA5;
