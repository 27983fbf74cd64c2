// What a conversation told of a frame, in the receive queue of its channel.
#![tactic(auto)]

ghost use Rattle.std.specs.Prelude.{◌≡◌, ℕ, ◌+◌, ◌≤◌, T, length, get_or};
ghost use Rattle.iso.specs.Limits.{most_heard, most_payload};
ghost use Rattle.iso.specs.Iso.{Talk, arrive_iso};
ghost use Rattle.iso_layout.specs.Sizes.{heard_size};
ghost use Rattle.iso_layout.specs.Region.{heard_part};
ghost use Rattle.talk_telling.specs.Telling.{told, Short};

use talk_telling::Told;

// The bit of RxStatus that says that a reception began.
const STARTED: u32 = 2;

// What the conversation of a width and an identifier told arrives in the receive queue.
pub fn pass(q: &mut [u8], clock: u32, wide: bool, id: u32, said: Told, scratch: &[u8])
    requires { (length q.old ≡ heard_size + 1) × (get_or q.old 0 0 ≤ most_heard) × Short said × (length scratch.now ≡ most_payload) }
    ensures { (flags : ℕ) → T ((heard_part flags).valid q.old) → (c : Talk) → c.wide ≡ wide → c.pattern ≡ id → q.new ≡ (heard_part flags).put (arrive_iso ((heard_part flags).get q.old) (told said clock c scratch.now)) }
{
    match said {
        Told::Silence => {}
        Told::Start => iso_queue::arrive(
            q,
            clock,
            can::width_flag(wide) + STARTED,
            id,
            &scratch[0..0],
        ),
        Told::Message(n) => iso_queue::arrive(q, clock, can::width_flag(wide), id, &scratch[0..n]),
    }
}
