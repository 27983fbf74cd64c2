// Is this the region of a raw channel? Each function decides what one part of the layout calls valid, and the cost grows with what is held.
#![tactic(auto)]

ghost use Rattle.std.specs.Prelude.{◌≡◌, length, drop};
ghost use Rattle.layout.specs.Sizes.{config_size, mapped_size, sending_size, receiving_size, flags_at, region_size};
ghost use Rattle.layout.specs.Memory.{config, mapped, sending_part, receiving_part, link_part, open_part, region};
ghost use Rattle.link_layout.specs.Sizes.{link_size};

use can::{is_known_rate, is_raw_flags, listens, takes_width};
use integers::{wide, word_at};
use noting::is_kept;
use octets::all_zero;
use stored_records::store;

// In the configuration, behind the flags; in the sending part, behind the periodics.
const RATE_IN: usize = places::RATE - places::FLAGS;

const LOOPBACK_IN: usize = places::LOOPBACK - places::FLAGS;

const WRITTEN_IN: usize = places::WRITTEN - places::PERIODICS;

const FLIGHT_IN: usize = places::FLIGHT - places::PERIODICS;

// Flags, rate and loopback mark.
pub fn configuration(s: &[u8]) -> bool
    requires { length s.now ≡ config_size }
    ensures { result ≡ config.valid s.now }
{
    (s[LOOPBACK_IN] <= 1) & (is_raw_flags(word_at(s, 0)) & is_known_rate(word_at(s, RATE_IN)))
}

// Ten filters, and behind them the maps that follow from them.
fn filters(s: &[u8], flags: u32) -> bool
    requires { length s.now ≡ mapped_size }
    ensures { result ≡ (mapped flags).valid s.now }
{
    if !ten_places::valid(&s[0..places::FILTERS_SIZE], flags, false) {
        return false;
    }
    maps::fit(
        &s[0..places::FILTERS_SIZE],
        &s[places::FILTERS_SIZE..places::MAPPED_SIZE],
    )
}

// Periodics, at most 16 written records, at most one in flight.
fn sending(s: &[u8], flags: u32) -> bool
    requires { length s.now ≡ sending_size }
    ensures { result ≡ (sending_part flags).valid s.now }
{
    ten_places::valid(&s[0..WRITTEN_IN], flags, true)
        & (store(&s[WRITTEN_IN..FLIGHT_IN], places::MOST_WRITTEN, flags, true)
            & store(&s[FLIGHT_IN..places::SENDING_SIZE], 1, flags, true))
}

// At most 32 records to read, and the lost mark.
fn receiving(s: &[u8], flags: u32) -> bool
    requires { length s.now ≡ receiving_size }
    ensures { result ≡ (receiving_part flags).valid s.now }
{
    store(
        &s[0..places::QUEUE_SIZE],
        places::MOST_TO_READ,
        flags,
        false,
    ) & (s[places::QUEUE_SIZE] <= 1)
}

// No connection, or one on a channel that takes narrow frames and is no listener.
fn link(s: &[u8], flags: u32) -> bool
    requires { length s.now ≡ link_size }
    ensures { result ≡ (link_part flags).valid s.now }
{
    link_validity::valid(s) & ((s[0] == 0) | (takes_width(flags, false) & !listens(flags)))
}

// The region of an open channel, behind its open mark: every width there is one that its flags take, and the last code one that is kept.
fn opened(s: &[u8]) -> bool
    requires { length s.now ≡ region_size }
    ensures { result ≡ open_part.valid (drop flags_at s.now) }
{
    let flags = word_at(s, places::FLAGS);
    configuration(&s[places::FLAGS..places::FILTERS])
        & (filters(&s[places::FILTERS..places::PERIODICS], flags)
            & (sending(&s[places::PERIODICS..places::RECEIVING], flags)
                & (receiving(&s[places::RECEIVING..places::RECEIVING_END], flags)
                    & (is_kept(wide(s[places::LAST]))
                        & link(&s[places::LINK..places::REGION], flags)))))
}

// A channel's region: closed and zeros, or open.
pub fn region_valid(s: &[u8]) -> bool
    requires { length s.now ≡ region_size }
    ensures { result ≡ region.valid s.now }
{
    let k = s[0];
    if k == 0 {
        return all_zero(&s[places::FLAGS..places::REGION]);
    }
    if k == 1 {
        return opened(s);
    }
    false
}
