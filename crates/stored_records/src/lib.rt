// Are these stored records? A record's fields, its width on a connection of given flags, and stores of at most so many.
#![tactic(auto)]

ghost use Rattle.std.specs.Prelude.{◌≡◌, ◌+◌, ◌*◌, ◌≤◌, length, drop};
ghost use Rattle.codec.specs.Code.{up_to};
ghost use Rattle.machine.specs.Limits.{record_size, data_in};
ghost use Rattle.layout.specs.Record.{rec36, width_fits};
ghost use Rattle.layout.specs.Record.{outgoing as is_outgoing, incoming as is_incoming};
ghost use Rattle.stored_records.specs.Held.{fields_of};
ghost use Rattle.stored_records.specs.Held.{cell as cell_of};

use can::{id_limit, listens, takes_width};
use integers::{id_at, word_at};
use octets::all_zero;
use zeros::eight_end;

// The data: an identifier of four bytes and at most eight of a frame, which begin behind it.
const LEAST_DATA: u32 = places::NUMBER as u32;

const MOST_DATA: u32 = places::ROW as u32;

const BEHIND_ID: usize = places::DATA_IN + places::NUMBER;

// The 36 bytes of a record, whatever it waits for: protocol, size, extra index, zeros after the data.
fn plain_record(s: &[u8]) -> bool
    requires { length s.now ≡ record_size }
    ensures { result ≡ rec36.valid s.now }
{
    let size = word_at(s, places::SIZE_IN);
    if size < LEAST_DATA {
        return false;
    }
    if size > MOST_DATA {
        return false;
    }
    let data = size as usize - places::NUMBER;
    (word_at(s, places::EXTRA_INDEX_IN) == size)
        & (word_at(s, 0) == can::PROTOCOL)
        & eight_end(s, BEHIND_ID, data)
}

// Is a record's identifier in the range of its width, and does the connection take that width? Of a record with any number of data bytes.
pub fn width_fits(s: &[u8], flags: u32, wide: bool) -> bool
    requires { data_in + 4 ≤ length s.now }
    ensures { result ≡ width_fits flags wide (drop data_in s.now) }
{
    (id_at(s, places::DATA_IN) <= id_limit(wide)) & takes_width(flags, wide)
}

// The fields of a record held for sending, on a connection of these flags; a listener holds none.
fn outgoing(s: &[u8], flags: u32) -> bool
    requires { length s.now ≡ record_size }
    ensures { result ≡ is_outgoing flags (fields_of s.now) }
{
    let tx = word_at(s, places::TX_FLAGS_IN);
    (word_at(s, places::RX_STATUS_IN) == 0)
        & ((tx == 0) | (tx == 0x100))
        & (word_at(s, places::TIMESTAMP_IN) == 0)
        & width_fits(s, flags, tx / 0x100 % 2 == 1)
        & !listens(flags)
}

// The fields of a record held for reading.
fn incoming(s: &[u8], flags: u32) -> bool
    requires { length s.now ≡ record_size }
    ensures { result ≡ is_incoming flags (fields_of s.now) }
{
    let rx = word_at(s, places::RX_STATUS_IN);
    ((rx == 0) | ((rx == 1) | ((rx == 0x100) | (rx == 0x101))))
        & (word_at(s, places::TX_FLAGS_IN) == 0)
        & width_fits(s, flags, rx / 0x100 % 2 == 1)
}

// A record held for sending, or for reading.
pub fn cell(s: &[u8], flags: u32, sending: bool) -> bool
    requires { length s.now ≡ record_size }
    ensures { result ≡ (cell_of sending flags).valid s.now }
{
    if sending {
        return plain_record(s) & outgoing(s, flags);
    }
    plain_record(s) & incoming(s, flags)
}

// A store of so many records, for sending or for reading: the held ones are records, zeros behind them.
pub fn store(s: &[u8], capacity: usize, flags: u32, sending: bool) -> bool
    requires { length s.now ≡ 1 + capacity * record_size }
    ensures { result ≡ (up_to capacity (cell_of sending flags)).valid s.now }
{
    let n = s[0] as usize;
    if n > capacity {
        return false;
    }
    let mut good = true;
    for i in 0..n {
        let a = 1 + i * places::RECORD;
        let e = a + places::RECORD;
        good = good & cell(&s[a..e], flags, sending);
    }
    let z = 1 + n * places::RECORD;
    good & all_zero(&s[z..])
}
