// Records as code writes them, of any size: six numbers, then data and zeros; and the record of 36 bytes of a frame.
#![tactic(auto)]

ghost use Rattle.std.specs.Prelude.{◌≡◌, ◌++◌, ◌+◌, ◌≤◌, length};
ghost use Rattle.machine.specs.Limits.{record_size, data_in, most_bytes};
ghost use Rattle.machine.specs.Message.{id_bytes, received};
ghost use Rattle.layout.specs.Sizes.{number_size};
ghost use Rattle.layout.specs.Record.{rec36};
ghost use Rattle.records.specs.Cell.{numbers, padded};

use places::{
    DATA_IN, EXTRA_INDEX_IN, NUMBER, RECORD, RX_STATUS_IN, SIZE_IN, TIMESTAMP_IN, TX_FLAGS_IN,
};

// The bytes of an identifier, the first of the data.
const ID_SIZE: u32 = NUMBER as u32;

// The six numbers of a record, over the bytes in front of its data.
pub fn put_numbers(h: &mut [u8], protocol: u32, rx: u32, tx: u32, time: u32, size: u32, extra: u32)
    requires { length h.old ≡ data_in }
    ensures { h.new ≡ numbers protocol rx tx time size extra }
{
    integers::put_word(&mut h[0..RX_STATUS_IN], protocol);
    integers::put_word(&mut h[RX_STATUS_IN..TX_FLAGS_IN], rx);
    integers::put_word(&mut h[TX_FLAGS_IN..TIMESTAMP_IN], tx);
    integers::put_word(&mut h[TIMESTAMP_IN..SIZE_IN], time);
    integers::put_word(&mut h[SIZE_IN..EXTRA_INDEX_IN], size);
    integers::put_word(&mut h[EXTRA_INDEX_IN..DATA_IN], extra);
}

// Bytes to the front of a slice, and zeros over the rest of it.
pub fn put_padded(d: &mut [u8], b: &[u8])
    requires { length b.now ≤ length d.old }
    ensures { d.new ≡ padded (length d.old) b.now }
{
    let n = b.len();
    octets::copy(&mut d[0..n], b);
    octets::zero(&mut d[n..]);
}

// An identifier and bytes, and zeros behind them, over the data of a record.
pub fn put_frame(d: &mut [u8], id: u32, bytes: &[u8])
    requires { number_size + length bytes.now ≤ length d.old }
    ensures { d.new ≡ padded (length d.old) (id_bytes id ++ bytes.now) }
{
    integers::put_id(&mut d[0..NUMBER], id);
    put_padded(&mut d[NUMBER..], bytes);
}

// The record of a frame received at a clock, with its RxStatus, into a cell.
pub fn put_received(cell: &mut [u8], clock: u32, rx: u32, id: u32, bytes: &[u8])
    requires { (length cell.old ≡ record_size) × (length bytes.now ≤ most_bytes) }
    ensures { cell.new ≡ rec36.put (received clock rx (id_bytes id ++ bytes.now)) }
{
    let size = ID_SIZE + bytes.len() as u32;
    put_numbers(
        &mut cell[0..DATA_IN],
        can::PROTOCOL,
        rx,
        0,
        clock,
        size,
        size,
    );
    put_frame(&mut cell[DATA_IN..RECORD], id, bytes);
}
