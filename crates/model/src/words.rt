// The words of an image. The top two bits are the kind: 0 head, 1 register, 2 direct cell, 3 number.
pub const REGISTER: u32 = 1;

pub const DIRECT: u32 = 2;

pub const NUMBER: u32 = 3;

// The words of one kind, and the words of R0, DM0 and 0.
pub const KIND: u32 = 0x4000_0000;

pub const FIRST_REGISTER: u32 = REGISTER * KIND;

pub const FIRST_DIRECT: u32 = DIRECT * KIND;

pub const FIRST_NUMBER: u32 = NUMBER * KIND;

// The special registers.
pub const IAR: u32 = 256;

pub const IRCR: u32 = 257;

pub const SHR: u32 = 258;
