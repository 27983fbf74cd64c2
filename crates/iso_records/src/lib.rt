// Records of 536 bytes of an ISO 15765 channel as code writes them: what is received, a frame to send, a written message with its check.
#![tactic(auto)]

ghost use Rattle.std.specs.Prelude.{◌≡◌, ◌++◌, ◌≤◌, length};
ghost use Rattle.codes.specs.Code.{code_of};
ghost use Rattle.machine.specs.Message.{id_bytes, received, size_of, clean};
ghost use Rattle.iso.specs.Limits.{iso_data, iso_record_size, most_payload};
ghost use Rattle.iso.specs.Iso.{framed, iso_message_code};
ghost use Rattle.iso_layout.specs.Record.{extra_is, rec536};
ghost use Rattle.iso_records.specs.Told.{told};

use codes::Refusal;
use iso_places::{DATA, RECORD};
use places::{DATA_IN, NUMBER};

// The protocol of ISO 15765.
pub const PROTOCOL: u32 = 6;

// The bytes of an identifier, the first of the data; the sizes of a message: an identifier and at least one byte, to all of the data.
const ID_SIZE: u32 = NUMBER as u32;

const LEAST: u32 = ID_SIZE + 1;

const MOST: u32 = DATA as u32;

// The extra index of a record: 0 for RxStart and TxDone, else its size.
fn extra_index(rx: u32, size: u32) -> u32
    ensures { result ≡ extra_is rx size }
{
    if (rx / 0x02 % 2 == 1) | (rx / 0x08 % 2 == 1) {
        0
    } else {
        size
    }
}

// The record of an identifier and bytes, into a cell.
fn put(cell: &mut [u8], rx: u32, tx: u32, time: u32, id: u32, bytes: &[u8])
    requires { (length cell.old ≡ iso_record_size) × (length bytes.now ≤ most_payload) }
    ensures { cell.new ≡ rec536.put (told rx tx time (id_bytes id ++ bytes.now)) }
{
    let size = ID_SIZE + bytes.len() as u32;
    let extra = extra_index(rx, size);
    records::put_numbers(&mut cell[0..DATA_IN], PROTOCOL, rx, tx, time, size, extra);
    records::put_frame(&mut cell[DATA_IN..RECORD], id, bytes);
}

// What is received at a clock, with its RxStatus: a message, RxStart, TxDone, a loopback.
pub fn put_received(cell: &mut [u8], clock: u32, rx: u32, id: u32, payload: &[u8])
    requires { (length cell.old ≡ iso_record_size) × (length payload.now ≤ most_payload) }
    ensures { cell.new ≡ rec536.put (received clock rx (id_bytes id ++ payload.now)) }
{
    put(cell, rx, 0, clock, id, payload);
}

// A frame to send.
pub fn put_framed(cell: &mut [u8], wide: bool, id: u32, bytes: &[u8])
    requires { (length cell.old ≡ iso_record_size) × (length bytes.now ≤ most_payload) }
    ensures { cell.new ≡ rec536.put (framed wide id bytes.now) }
{
    put(cell, 0, can::width_flag(wide), 0, id, bytes);
}

// The checks of a message to send on a connection of these flags.
pub fn message_code(m: &[u8], flags: u32) -> Result<(), Refusal>
    requires { iso_record_size ≤ length m.now }
    ensures { code_of result ≡ iso_message_code flags m.now }
{
    message::code_within(m, flags, PROTOCOL, LEAST, MOST)
}

// The clean record of a message whose size is good, into a cell.
pub fn put_clean(cell: &mut [u8], m: &[u8])
    requires { (length cell.old ≡ iso_record_size) × (iso_record_size ≤ length m.now) × (size_of m.now ≤ iso_data) }
    ensures { cell.new ≡ rec536.put (clean m.now) }
{
    message::put_bytes(cell, m, PROTOCOL);
}
