// Positions in a record: sums and products that stop, and whether a stretch is inside a room.

#![tactic(auto)]

ghost use Rattle.std.specs.Prelude.{◌≡◌, ◌+◌, ◌*◌, leb};
ghost use Rattle.positions.specs.Positions.{sat};

// Where positions stop: 2^63, far behind the end of every record.
pub const STOP: u64 = 9223372036854775808;

// A sum that stops.
pub fn sat_add(a: u64, b: u64) -> u64
    ensures { result ≡ sat (a + b) }
{
    a.saturating_add(b).min(STOP)
}

// A product that stops.
pub fn sat_mul(a: u64, b: u64) -> u64
    ensures { result ≡ sat (a * b) }
{
    a.saturating_mul(b).min(STOP)
}

// Whether so many bytes from a position on are inside a room.
pub fn inside(room: u64, at: u64, width: u64) -> bool
    ensures { result ≡ leb (at + width) room }
{
    at <= room && width <= room - at
}
