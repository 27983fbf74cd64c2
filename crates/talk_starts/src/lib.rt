// A flow-control filter as it is started: what its three records say, the checks in their order, and its conversation's place.
#![tactic(auto)]

ghost use Rattle.std.specs.Prelude.{◌≡◌, [], ◌∷◌, ℕ, ◌≤◌, length};
ghost use Rattle.codes.specs.Code.{code_of as code};
ghost use Rattle.std.proofs.Math.Option.{some};
ghost use Rattle.codec.specs.Plain.{zeros};
ghost use Rattle.codec.specs.Code.{slot};
ghost use Rattle.machine.specs.Codes.{code_of};
ghost use Rattle.machine.specs.Limits.{record_size};
ghost use Rattle.machine.specs.Filter.{any_slot};
ghost use Rattle.iso.specs.Iso.{idle, knows};
ghost use Rattle.iso_layout.specs.Sizes.{talk_size};
ghost use Rattle.iso_layout.specs.Region.{talk_cell};
ghost use Rattle.talk_starts.specs.Starts.{naming_of, start_tests};

use codes::Refusal;
use iso_places::{FLOW_IN, PATTERN_IN, TRANSFER_IN};

// The one type of filter, the identifier size, and the mask that asks for the whole identifier.
const FLOW_CONTROL: u32 = 3;

const ID_SIZE: u32 = 4;

const WHOLE: u32 = 0xFFFF_FFFF;
// The width mark of a place.
const WIDTH: usize = 1;

// What a record says of an identifier: its protocol, data size, TxFlags, and the identifier.
#[derive(Drop)]
pub struct Naming {
    pub protocol: u32,
    pub size: u32,
    pub tx: u32,
    pub id: u32,
}

// What a record says.
pub fn names(m: &[u8]) -> Naming
    requires { record_size ≤ length m.now }
    ensures { result ≡ naming_of m.now }
{
    Naming {
        protocol: integers::word_at(m, 0),
        size: integers::word_at(m, places::SIZE_IN),
        tx: integers::word_at(m, places::TX_FLAGS_IN),
        id: integers::id_at(m, places::DATA_IN),
    }
}

// The checks of a start by what its mask, pattern and flow records say, on a connection of these flags.
pub fn start_code(flags: u32, kind: u32, m: Naming, p: Naming, f: Naming) -> Result<(), Refusal>
    ensures { code result ≡ code_of (start_tests flags kind m p f) }
{
    if kind != FLOW_CONTROL {
        return Err(Refusal::InvalidFilterId);
    }
    let other = (m.protocol != iso_records::PROTOCOL)
        | ((p.protocol != iso_records::PROTOCOL) | (f.protocol != iso_records::PROTOCOL));
    if other {
        return Err(Refusal::MsgProtocolId);
    }
    let wide = m.tx / 0x100 % 2 == 1;
    let limit = can::id_limit(wide);
    let out = (limit < p.id) | (limit < f.id);
    let strange = !((m.tx == p.tx) & (m.tx == f.tx)) | (!can::takes_width(flags, wide) | out);
    let sized = (m.size == ID_SIZE) & (p.size == ID_SIZE) & (f.size == ID_SIZE);
    if !sized | (!(m.id == WHOLE) | strange) {
        return Err(Refusal::InvalidMsg);
    }
    Ok(())
}

// Is the pattern or the flow an identifier of the conversation at a place, of the same width?
pub fn is_known(t: &[u8], wide: bool, pattern: u32, flow: u32) -> bool
    requires { length t.now ≡ talk_size }
    ensures { (flags : ℕ) → result ≡ any_slot (knows wide pattern flow) ((slot (talk_cell flags)).get t.now ∷ []) }
{
    if t[0] == 0 {
        return false;
    }
    let a = integers::word_at(t, PATTERN_IN);
    let b = integers::word_at(t, FLOW_IN);
    (wide == (1 == t[WIDTH])) & (((pattern == a) | (pattern == b)) | ((flow == a) | (flow == b)))
}

// A fresh conversation over a free place.
pub fn put_talk(t: &mut [u8], wide: bool, pattern: u32, flow: u32)
    requires { (length t.old ≡ talk_size) × (t.old ≡ zeros talk_size) }
    ensures { (flags : ℕ) → t.new ≡ (slot (talk_cell flags)).put (some (record { wide = wide; pattern = pattern; flow = flow; transfer = idle })) }
{
    integers::put_word(&mut t[PATTERN_IN..FLOW_IN], pattern);
    integers::put_word(&mut t[FLOW_IN..TRANSFER_IN], flow);
    t[0] = 1;
    t[WIDTH] = u8::from(wide);
}
