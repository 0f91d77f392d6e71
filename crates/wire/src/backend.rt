// Object ids, as `Backend` of src/wire/backend.rs gives them. (The ids' table, the sockets and the debug output stay behind.)
ghost use Rattle.std.specs.Prelude.{◌≡◌};
ghost use Rattle.wire.specs.Ids.{new_objects};

// The first id that a server gives; a client's start at 1.
pub const FIRST_SERVER_ID: u64 = 0xff00_0000_0000_0000;

// The handshake's own object.
pub const HANDSHAKE_ID: u64 = 0;

// Gives `count` ids, from `next` on: the next id after them, or `None` where there are not so many left. The next id stays a u64, so the last of them all, 2^64 - 1, is never given.
pub fn new_objects(next: u64, count: u64) -> Option<u64>
    ensures { result ≡ new_objects next count }
{
    next.checked_add(count)
}
