// The telegram that the TP2.0 connection of a channel gives to be sent, as a record of 36 bytes.
#![tactic(auto)]

ghost use Rattle.std.specs.Prelude.{◌≡◌, length, drop};
ghost use Rattle.machine.specs.Limits.{record_size};
ghost use Rattle.link_layout.specs.Turned.{LinkPart};
ghost use Rattle.layout.specs.Memory.{open_part};
ghost use Rattle.layout.specs.Promise.{Opened};
ghost use Rattle.pending.specs.Pending.{first_pending};
ghost use Rattle.offering.specs.Offering.{Given, Offered};

// A connection's telegram, as a record to 36 lent bytes; whether there is one.
fn telegram(part: &mut [u8], m: &mut [u8]) -> bool
    requires { LinkPart part.old × (length m.old ≡ record_size) }
    ensures { Given part.old m.old result part.new m.new }
{
    let g = link_giving::offer(part);
    if !g.there {
        return false;
    }
    let bytes = g.bytes;
    let n = g.len;
    records::put_received(m, 0, 0, g.id, &bytes[0..n]);
    true
}

// The telegram of a channel's connection, where no periodic is pending: i, the first place of a pending one, is none.
pub fn offer(r: &mut [u8], i: usize, m: &mut [u8]) -> bool
    requires { Opened r.old × (i ≡ first_pending (open_part.get (drop 1 r.old)).sending.periodics) × (length m.old ≡ record_size) }
    ensures { Offered r.old m.old result r.new m.new }
{
    if i < places::PLACES {
        return false;
    }
    telegram(&mut r[places::LINK..places::REGION], m)
}
