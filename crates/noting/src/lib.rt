// What went wrong last on a channel: the codes that it can keep, noting one, and what it keeps.
#![tactic(auto)]

ghost use Rattle.std.specs.Prelude.{◌≡◌, List, [], ℕ, ◌+◌, ◌≤◌, ◌<◌, length};
ghost use Rattle.codec.specs.Plain.{member};
ghost use Rattle.machine.specs.Codes.{call_codes};
ghost use Rattle.layout.specs.Sizes.{region_size};
ghost use Rattle.machine.specs.Channel.{last_error};
ghost use Rattle.layout.specs.Promise.{gives, Opened, call_outcome, noted_in};

use codes::Refusal;

// What a call on an open channel can give.
const KEPT: [u32; 17] = [
    codes::STATUS_NOERROR,
    Refusal::NotSupported as u32,
    Refusal::NullParameter as u32,
    Refusal::InvalidIoctlValue as u32,
    Refusal::Failed as u32,
    Refusal::Timeout as u32,
    Refusal::InvalidMsg as u32,
    Refusal::InvalidTimeInterval as u32,
    Refusal::ExceededLimit as u32,
    Refusal::InvalidMsgId as u32,
    Refusal::InvalidIoctlId as u32,
    Refusal::BufferEmpty as u32,
    Refusal::BufferFull as u32,
    Refusal::BufferOverflow as u32,
    Refusal::ChannelInUse as u32,
    Refusal::MsgProtocolId as u32,
    Refusal::InvalidFilterId as u32,
];

// Is this 0x00 or a code that a call on an open channel can give?
pub fn is_kept(code: u32) -> bool
    ensures { result ≡ member code call_codes }
{
    KEPT.contains(&code)
}

// Notes a code as the last of the channel whose region begins at a place; 0x00 is not noted.
pub fn note(mem: &mut [u8], at: usize, code: u32)
    requires { (at + region_size ≤ length mem.old) × (code < 256) }
    ensures { mem.new ≡ noted_in at code mem.old }
{
    if code == codes::STATUS_NOERROR {
        return;
    }
    mem[at + places::LAST] = code as u8;
}

// The last code that an open channel keeps.
pub fn last_in(r: &[u8]) -> u32
    requires { Opened r.now }
    ensures { (rates : List ℕ) (t : ℕ) → gives 0 result [] r.now ≡ call_outcome rates t r.now last_error }
{
    integers::wide(r[places::LAST])
}
