// Where the control words stand: specs/Control has the same numbers.

// The connection, the counts of the tables, and the queue's ring.
pub const CONNECTION_ID: usize = 0;

pub const LAST_SERIAL: usize = 1;

pub const NEXT_ID: usize = 2;

pub const SEAT_COUNT: usize = 3;

pub const DEVICE_COUNT: usize = 4;

pub const QUEUE_HEAD: usize = 5;

pub const QUEUE_LENGTH: usize = 6;

// The last id that the client gave to an object of its own.
pub const LAST_PEER_ID: usize = 7;

// The twelve versions, each one more than it is, 0 for none.
pub const VERSIONS: usize = 8;

// The rows of the seats: the id, and behind it the capabilities.
pub const SEATS: usize = 20;

pub const SEAT_WORDS: usize = 2;

pub const SEAT_CAPABILITIES: usize = 1;

// Whether the connection's own object is destroyed: 0 for no.
pub const GONE: usize = 28;

// The rows of the devices: the id, and behind it these. The words behind the sixteen touches are free.
pub const DEVICES: usize = 32;

pub const DEVICE_WORDS: usize = 24;

pub const SEAT: usize = 1;

pub const CAPABILITIES: usize = 2;

pub const LISTED: usize = 3;

pub const PENDING: usize = 4;

pub const HELD: usize = 5;

pub const TOUCHES: usize = 6;
