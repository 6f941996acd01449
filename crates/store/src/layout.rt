// Every number of the store's layout, by its name.

// The header: the latest clock, and bytes that are zero.
pub const HEADER_SIZE: usize = 16;

pub const CLOCK_SIZE: usize = 8;

// A slot, and how many there may be.
pub const SLOT_SIZE: usize = 128;

pub const SLOTS_MOST: usize = 500;

// A slot's state: empty, held, held with expiry.
pub const EMPTY_STATE: u8 = 0;

pub const HELD_STATE: u8 = 1;

pub const EXPIRING_STATE: u8 = 2;

// Where the parts of a slot stand, and the most bytes of a key, a field and a value.
pub const STATE_AT: usize = 0;

pub const KEY_LENGTH_AT: usize = 1;

pub const FIELD_LENGTH_AT: usize = 2;

pub const VALUE_LENGTH_AT: usize = 3;

pub const VERSION_AT: usize = 4;

pub const EXPIRY_AT: usize = 8;

pub const KEY_AT: usize = 16;

pub const FIELD_AT: usize = 32;

pub const VALUE_AT: usize = 64;

pub const KEY_MOST: usize = 16;

pub const FIELD_MOST: usize = 32;

pub const VALUE_MOST: usize = 64;

// No instant lies above this, and every clock lies below it.
pub const TIME_LIMIT: u64 = 4102444800000;

pub const VERSION_MOST: u64 = 4294967295;
