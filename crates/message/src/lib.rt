// A message to send: its check, and its clean record; on any channel, and on one of raw CAN.
#![tactic(auto)]

ghost use Rattle.std.specs.Prelude.{◌≡◌, ◌+◌, ◌-◌, ◌≤◌, length};
ghost use Rattle.codes.specs.Code.{code_of};
ghost use Rattle.machine.specs.Limits.{record_size, least_data, most_data, data_in};
ghost use Rattle.machine.specs.Message.{message_code, wide_of, size_of, clean};
ghost use Rattle.layout.specs.Record.{rec36};
ghost use Rattle.message.specs.Check.{code_within, clean_bytes};

use codes::Refusal;
use places::{DATA_IN, NUMBER, ROW, SIZE_IN, TX_FLAGS_IN};

// The sizes of a message of raw CAN: from its identifier alone to a row.
const LEAST: u32 = NUMBER as u32;

const MOST: u32 = ROW as u32;

// Is the message's width flag set?
pub fn is_wide(m: &[u8]) -> bool
    requires { data_in ≤ length m.now }
    ensures { result ≡ wide_of m.now }
{
    integers::word_at(m, TX_FLAGS_IN) / 0x100 % 2 == 1
}

// The checks of a message of a protocol and of a size within limits, to send on a connection of these flags.
pub fn code_within(
    m: &[u8],
    flags: u32,
    protocol: u32,
    least: u32,
    most: u32,
) -> Result<(), Refusal>
    requires { (record_size ≤ length m.now) × (least_data ≤ least) }
    ensures { code_of result ≡ code_within protocol least most flags m.now }
{
    if integers::word_at(m, 0) != protocol {
        return Err(Refusal::MsgProtocolId);
    }
    let size = integers::word_at(m, SIZE_IN);
    if size < least {
        return Err(Refusal::InvalidMsg);
    }
    if size > most {
        return Err(Refusal::InvalidMsg);
    }
    let wide = is_wide(m);
    if !can::takes_width(flags, wide) {
        return Err(Refusal::InvalidMsg);
    }
    if can::id_limit(wide) < integers::id_at(m, DATA_IN) {
        return Err(Refusal::InvalidMsg);
    }
    Ok(())
}

// The clean record of a message whose size is good, with a protocol, over the whole of a cell.
pub fn put_bytes(cell: &mut [u8], m: &[u8], protocol: u32)
    requires { (length cell.old ≤ length m.now) × (data_in + size_of m.now ≤ length cell.old) }
    ensures { cell.new ≡ clean_bytes protocol (length cell.old - data_in) m.now }
{
    let size = integers::word_at(m, SIZE_IN);
    let tx = can::width_flag(is_wide(m));
    records::put_numbers(&mut cell[0..DATA_IN], protocol, 0, tx, 0, size, size);
    let e = DATA_IN + size as usize;
    records::put_padded(&mut cell[DATA_IN..], &m[DATA_IN..e]);
}

// The checks of a message of raw CAN.
pub fn message_code(m: &[u8], flags: u32) -> Result<(), Refusal>
    requires { record_size ≤ length m.now }
    ensures { code_of result ≡ message_code flags m.now }
{
    code_within(m, flags, can::PROTOCOL, LEAST, MOST)
}

// The clean record of a message of raw CAN whose size is good, into a cell.
pub fn put_clean(cell: &mut [u8], m: &[u8])
    requires { (length cell.old ≡ record_size) × (record_size ≤ length m.now) × (size_of m.now ≤ most_data) }
    ensures { cell.new ≡ rec36.put (clean m.now) }
{
    put_bytes(cell, m, can::PROTOCOL);
}
