// How a good bus frame meets an open channel: the connection of its line, and the filters.
#![tactic(auto)]

ghost use Rattle.std.specs.Prelude.{◌≡◌, ◌++◌, ◌≤◌, length, drop};
ghost use Rattle.machine.specs.Limits.{most_bytes};
ghost use Rattle.machine.specs.Message.{id_bytes, id_limit};
ghost use Rattle.machine.specs.Channel.{heard_by, offered};
ghost use Rattle.layout.specs.Memory.{open_part, region};
ghost use Rattle.layout.specs.Promise.{Opened};

use places::{FILTERS, FLAGS, NUMBER, PERIODICS, ROW};

// Offers a good frame to an open channel: queued exactly if the connection takes its width and the filters let it in.
pub fn offer(r: &mut [u8], clock: u32, wide: bool, id: u32, bytes: &[u8])
    requires { Opened r.old × (length bytes.now ≤ most_bytes) × (id ≤ id_limit wide) }
    ensures { r.new ≡ region.put (offered clock (open_part.get (drop 1 r.old)) wide (id_bytes id ++ bytes.now)) }
{
    if !can::takes_width(integers::word_at(r, FLAGS), wide) {
        return;
    }
    let mut frame = [0u8; ROW];
    records::put_frame(&mut frame, id, bytes);
    let len = NUMBER + bytes.len();
    if !verdict::lets_in(&r[FILTERS..PERIODICS], wide, id, &frame, len) {
        return;
    }
    receiving::receive(r, clock, wide, id, bytes);
}

// A good frame meets an open channel: a narrow one its connection, and each the filters.
pub fn meet(r: &mut [u8], clock: u32, wide: bool, id: u32, bytes: &[u8])
    requires { Opened r.old × (length bytes.now ≤ most_bytes) × (id ≤ id_limit wide) }
    ensures { r.new ≡ region.put (offered clock (heard_by (open_part.get (drop 1 r.old)) wide id bytes.now) wide (id_bytes id ++ bytes.now)) }
{
    if wide {
        offer(r, clock, wide, id, bytes);
        return;
    }
    link_hearing::hears(&mut r[places::LINK..places::REGION], id, bytes);
    offer(r, clock, wide, id, bytes);
}
