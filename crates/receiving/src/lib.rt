// What an open channel receives: a frame that was let in, and the echo of a record that was sent.
#![tactic(auto)]

ghost use Rattle.std.specs.Prelude.{◌≡◌, ◌++◌, ◌+◌, ◌≤◌, length};
ghost use Rattle.machine.specs.Limits.{most_bytes};
ghost use Rattle.machine.specs.Message.{width_flag, id_bytes, received};
ghost use Rattle.layout.specs.Record.{rec36};
ghost use Rattle.layout.specs.Memory.{region};
ghost use Rattle.layout.specs.Promise.{Opened};
ghost use Rattle.queue.specs.Queue.{arrived};
ghost use Rattle.receiving.specs.Outgoing.{Outgoing};

use places::{DATA_IN, NUMBER, SIZE_IN, TX_FLAGS_IN};

// In a record, behind the identifier.
const BYTES_IN: usize = DATA_IN + NUMBER;

// A frame that width and filters let in is received at a clock.
pub fn receive(r: &mut [u8], clock: u32, wide: bool, id: u32, bytes: &[u8])
    requires { Opened r.old × (length bytes.now ≤ most_bytes) }
    ensures { r.new ≡ region.put (arrived (received clock (width_flag wide) (id_bytes id ++ bytes.now)) (region.get r.old)) }
{
    queue::arrive(r, clock, can::width_flag(wide), id, bytes);
}

// A record that was sent, its 36 bytes, arrives at a clock as if received, but with RxStatus bit 0 set.
pub fn echo(r: &mut [u8], clock: u32, sent: &[u8])
    requires { Opened r.old × Outgoing sent.now }
    ensures { r.new ≡ region.put (arrived (received clock ((rec36.get sent.now).tx + 1) (rec36.get sent.now).bytes) (region.get r.old)) }
{
    let rx = integers::word_at(sent, TX_FLAGS_IN) + 1;
    let end = DATA_IN + integers::word_at(sent, SIZE_IN) as usize;
    queue::arrive(
        r,
        clock,
        rx,
        integers::id_at(sent, DATA_IN),
        &sent[BYTES_IN..end],
    );
}
