// A call on a channel, on a memory of the whole box that is known to be valid: its region is found, what the call does there is done, and a refusal is
// noted as the channel's last.
#![tactic(auto)]

ghost use Rattle.std.specs.Prelude.{◌≡◌, ◌≤◌, ◌+◌, ◌-◌, ◌&&◌, true, List, [], ℕ, T, Result, Err, length};
ghost use borrow.Rule.Slice.PartMut.{mid_of};
ghost use Rattle.codec.specs.Word.{word_at};
ghost use Rattle.std.specs.Fn.{FnOnceReturnsAtMut};
ghost use Rattle.codes.specs.Code.{code_of};
ghost use Rattle.codes.specs.declared.Refusal.{Refusal};
ghost use Rattle.machine.specs.Channel.{Call, lent, raw_only, listens};
ghost use Rattle.machine.specs.Step.{call};
ghost use Rattle.layout.specs.Sizes.{region_size, flags_at};
ghost use Rattle.layout.specs.Promise.{gives};
ghost use Rattle.iso_layout.specs.Promise.{IsoOpened};
ghost use Rattle.memory.specs.Memory.{valid, load};
ghost use Rattle.memory.specs.Promise.{outcome, RawSeat, IsoSeat};
ghost use Rattle.calling.specs.Calling.{speaks, Serves, Takes, DoesRaw, DoesIso};

use codes::Refusal;
use seats::Seat;

// What a listener does of a call: all, or nothing, since the call would speak out.
#[derive(Clone, Copy)]
pub enum Listeners {
    Serve,
    Refuse,
}

// Does the raw channel whose region begins at a place refuse it? A listener does what would speak out.
fn refuses(mem: &[u8], at: usize, listeners: Listeners) -> bool
    requires { at + region_size ≤ length mem.now }
    ensures { result ≡ (speaks listeners && listens (word_at flags_at (mid_of at (at + region_size - at) mem.now))) }
{
    match listeners {
        Listeners::Serve => false,
        Listeners::Refuse => seats::listens(mem, at),
    }
}

// A call on the raw channel whose region begins at a place.
fn on_raw_region<A, F>(
    mem: &mut [u8],
    at: usize,
    listeners: Listeners,
    does: F,
) -> Result<A, Refusal>
where
    A: Copy + Drop,
    F: FnOnce(&mut [u8]) -> Result<A, Refusal>,
    requires memory { T (valid mem.old) }
    requires seat { (k : ℕ) × RawSeat mem.old k at }
    requires does { Takes (λ r. F.pre does r) (Serves listeners) }
    ensures { (k : ℕ) (rates : List ℕ) (x : Call) (value : Result A Refusal → ℕ) → RawSeat mem.old k at → DoesRaw (FnOnceReturnsAtMut F.FnOnce does) listeners value rates (load mem.old).clock x → ((e : Refusal) → value (Err e) ≡ 0) → lent x ≡ [] → gives (code_of result) (value result) [] mem.new ≡ outcome rates mem.old (call k x) }
{
    if refuses(mem, at, listeners) {
        noting::note(mem, at, Refusal::NotSupported as u32);
        return Err(Refusal::NotSupported);
    }
    let end = at + places::REGION;
    let answer = does(&mut mem[at..end]);
    noting::note(mem, at, codes::code_of(answer));
    answer
}

// A call on a channel, by what it does on the region of a raw channel and on that of an ISO 15765 channel.
pub fn on_channel<A, R, I>(
    mem: &mut [u8],
    channel: u32,
    listeners: Listeners,
    raw: R,
    iso: I,
) -> Result<A, Refusal>
where
    A: Copy + Drop,
    R: FnOnce(&mut [u8]) -> Result<A, Refusal>,
    I: FnOnce(&mut [u8]) -> Result<A, Refusal>,
    requires memory { T (valid mem.old) }
    requires raw { Takes (λ r. R.pre raw r) (Serves listeners) }
    requires iso { Takes (λ r. I.pre iso r) IsoOpened }
    ensures { (rates : List ℕ) (x : Call) (value : Result A Refusal → ℕ) → DoesRaw (FnOnceReturnsAtMut R.FnOnce raw) listeners value rates (load mem.old).clock x → DoesIso (FnOnceReturnsAtMut I.FnOnce iso) value rates (load mem.old).clock x → ((e : Refusal) → value (Err e) ≡ 0) → lent x ≡ [] → gives (code_of result) (value result) [] mem.new ≡ outcome rates mem.old (call channel x) }
{
    match seats::seat_of(mem, channel) {
        None => Err(Refusal::InvalidChannelId),
        Some(Seat::Raw(at)) => on_raw_region(mem, at, listeners, raw),
        Some(Seat::Iso(at)) => {
            let end = at + iso_places::REGION;
            let answer = iso(&mut mem[at..end]);
            iso_settings::note(mem, at, codes::code_of(answer));
            answer
        }
    }
}

// The same for a call that takes the number of a raw channel.
pub fn on_raw_channel<A, R>(
    mem: &mut [u8],
    channel: u32,
    listeners: Listeners,
    raw: R,
) -> Result<A, Refusal>
where
    A: Copy + Drop,
    R: FnOnce(&mut [u8]) -> Result<A, Refusal>,
    requires memory { T (valid mem.old) }
    requires raw { Takes (λ r. R.pre raw r) (Serves listeners) }
    ensures { (rates : List ℕ) (x : Call) (value : Result A Refusal → ℕ) → DoesRaw (FnOnceReturnsAtMut R.FnOnce raw) listeners value rates (load mem.old).clock x → raw_only x ≡ true → ((e : Refusal) → value (Err e) ≡ 0) → lent x ≡ [] → gives (code_of result) (value result) [] mem.new ≡ outcome rates mem.old (call channel x) }
{
    match seats::raw_seat_of(mem, channel) {
        None => Err(Refusal::InvalidChannelId),
        Some(at) => on_raw_region(mem, at, listeners, raw),
    }
}
