// Telegrams of our own connections.
#![tactic(auto)]

ghost use Rattle.std.specs.Prelude.{◌≡◌, List, ℕ};
ghost use Rattle.telegram.specs.Telegram.{own_connection};
ghost use Rattle.telegram_types.specs.Face.{channel_said};

use telegram_types::OnChannel;

// What we put in T2 and T4.
pub const UNUSED: u8 = 0xFF;

// A connection set-up or acknowledge of ours, whatever the other side has in T2 and T4.
pub fn connection(ack: bool, block_size: u8, t1: u8, t3: u8) -> OnChannel
    ensures { (bytes : List ℕ) → channel_said result bytes ≡ own_connection ack block_size t1 t3 }
{
    OnChannel::Connection {
        ack,
        block_size,
        t1,
        t2: UNUSED,
        t3,
        t4: UNUSED,
    }
}
