// Are these stored records of an ISO 15765 channel? A record's fields, what may wait to be sent, be in flight or wait to be read, and stores.
#![tactic(auto)]

ghost use Rattle.std.specs.Prelude.{◌≡◌, ◌+◌, ◌*◌, length};
ghost use Rattle.codec.specs.Code.{up_to};
ghost use Rattle.iso.specs.Limits.{iso_record_size};
ghost use Rattle.iso_layout.specs.Record.{rec536, iso_outgoing, iso_incoming, frame_cell, extra_is};
ghost use Rattle.iso_layout.specs.Record.{indication as is_indication};
ghost use Rattle.iso_stored.specs.Held.{IsRecord, held};

use integers::word_at;
use octets::all_zero;
use stored_records::width_fits;

// The protocol of ISO 15765.
const PROTOCOL: u32 = 6;
// The data: an identifier of four bytes alone, or with one byte or more behind it; at most 512 bytes, in a frame at most twelve.
const ID_SIZE: u32 = places::NUMBER as u32;

const LEAST_MESSAGE: u32 = ID_SIZE + 1;

const MOST_DATA: u32 = iso_places::DATA as u32;

const MOST_FRAME: u32 = places::ROW as u32;

// RxStart and TxDone are indications.
fn indication(rx: u32) -> bool
    ensures { result ≡ is_indication rx }
{
    (rx / 0x02 % 2 == 1) | (rx / 0x08 % 2 == 1)
}

// The extra index of a record: 0 for an indication, else its size.
fn extra(rx: u32, size: u32) -> u32
    ensures { result ≡ extra_is rx size }
{
    if indication(rx) { 0 } else { size }
}

// The 536 bytes of a record, whatever it waits for: protocol, size, extra index, zeros after the data.
fn plain_record(s: &[u8]) -> bool
    requires { length s.now ≡ iso_record_size }
    ensures { result ≡ rec536.valid s.now }
{
    let size = word_at(s, places::SIZE_IN);
    if size < ID_SIZE {
        return false;
    }
    if size > MOST_DATA {
        return false;
    }
    let z = places::DATA_IN + size as usize;
    (word_at(s, 0) == PROTOCOL)
        & (word_at(s, places::EXTRA_INDEX_IN) == extra(word_at(s, places::RX_STATUS_IN), size))
        & all_zero(&s[z..])
}

// The fields of a record held for sending, of at most so many bytes, on a connection of these flags.
fn outgoing(s: &[u8], flags: u32, most: u32) -> bool
    requires { IsRecord s.now }
    ensures { result ≡ iso_outgoing flags most (rec536.get s.now) }
{
    let tx = word_at(s, places::TX_FLAGS_IN);
    let size = word_at(s, places::SIZE_IN);
    (word_at(s, places::RX_STATUS_IN) == 0)
        & ((tx == 0) | (tx == 0x100))
        & (word_at(s, places::TIMESTAMP_IN) == 0)
        & ((LEAST_MESSAGE <= size) & (size <= most))
        & width_fits(s, flags, tx / 0x100 % 2 == 1)
}

// The fields of a record held for reading: a message, a loopback, RxStart, TxDone; the last two are the identifier alone.
fn incoming(s: &[u8], flags: u32) -> bool
    requires { IsRecord s.now }
    ensures { result ≡ iso_incoming flags (rec536.get s.now) }
{
    let rx = word_at(s, places::RX_STATUS_IN);
    let size = word_at(s, places::SIZE_IN);
    let alone = indication(rx);
    let wide = (rx == 0x100) | ((rx == 0x101) | ((rx == 0x102) | (rx == 0x109)));
    ((rx == 0) | ((rx == 1) | ((rx == 2) | ((rx == 9) | wide))))
        & (word_at(s, places::TX_FLAGS_IN) == 0)
        & ((alone & (size == ID_SIZE)) | (!alone & (LEAST_MESSAGE <= size)))
        & width_fits(s, flags, rx / 0x100 % 2 == 1)
}

// A frame in flight.
pub fn frame(s: &[u8], flags: u32) -> bool
    requires { length s.now ≡ iso_record_size }
    ensures { result ≡ (frame_cell flags).valid s.now }
{
    if !plain_record(s) {
        return false;
    }
    outgoing(s, flags, MOST_FRAME)
}

// A written message, or a record held for reading.
pub fn cell(s: &[u8], flags: u32, sending: bool) -> bool
    requires { length s.now ≡ iso_record_size }
    ensures { result ≡ (held sending flags).valid s.now }
{
    if !plain_record(s) {
        return false;
    }
    if sending {
        return outgoing(s, flags, MOST_DATA);
    }
    incoming(s, flags)
}

// A store of so many, of written messages or of records to read: the held ones are records, zeros behind them.
pub fn store(s: &[u8], capacity: usize, flags: u32, sending: bool) -> bool
    requires { length s.now ≡ 1 + capacity * iso_record_size }
    ensures { result ≡ (up_to capacity (held sending flags)).valid s.now }
{
    let n = s[0] as usize;
    if n > capacity {
        return false;
    }
    let mut good = true;
    for i in 0..n {
        let a = 1 + i * iso_places::RECORD;
        let e = a + iso_places::RECORD;
        good = good & cell(&s[a..e], flags, sending);
    }
    let z = 1 + n * iso_places::RECORD;
    good & all_zero(&s[z..])
}
