// What a host keeps and hands in, as plain numbers.
// Kept: flags, kinds and numbers that may be absent are plain octets here, since C hands in any octet and knows no enum.

// A number that may be absent: `given` is 0 where it is, and any other octet says that `value` counts.
#[repr(C)]
#[derive(Clone, Copy, Default)]
pub struct OwacOptional {
    pub value: u64,
    pub given: u8,
}

// What lasts from call to call beside an image. `on` is 0 without power, and any other octet is power; `leaves` says what a
// cut leaves in the cell that was being written: 0 the old cell, 1 the new one, any other octet a torn one.
#[repr(C)]
#[derive(Clone, Copy)]
pub struct OwacSupply {
    pub charge: u64,
    pub last: OwacOptional,
    pub floor: OwacOptional,
    pub on: u8,
    pub leaves: u8,
}

// How a burst is listened to. `suspect` is 0 where the demodulator does not doubt it, and any other octet where it does.
#[repr(C)]
#[derive(Clone, Copy)]
pub struct OwacListening {
    pub count: usize,
    pub start: usize,
    pub clock: u64,
    pub suspect: u8,
}

#[repr(C)]
#[derive(Clone, Copy, Default)]
pub struct OwacPair {
    pub sid: [u8; 16],
    pub kid: [u8; 16],
}

#[repr(C)]
#[derive(Clone, Copy, Default)]
pub struct OwacMark {
    pub epoch: u64,
    pub counter: u64,
    pub hash: [u8; 32],
}
