// A bus frame on an ISO 15765 channel: it is heard by the conversation that it concerns.
#![tactic(auto)]

ghost use Rattle.std.specs.Prelude.{◌≡◌, true, ℕ, ◌≤◌, ◌<◌, T, length, get_or, drop};
ghost use Rattle.std.proofs.Math.Option.{none};
ghost use Rattle.codec.specs.Code.{slot};
ghost use Rattle.machine.specs.Limits.{most_bytes};
ghost use Rattle.machine.specs.Channel.{frame_code};
ghost use Rattle.iso.specs.Limits.{most_talks};
ghost use Rattle.iso.specs.Iso.{ready, on_iso_frame};
ghost use Rattle.iso_layout.specs.Sizes.{talk_size, iso_region_size};
ghost use Rattle.iso_layout.specs.Region.{talk_cell, ready_part, iso_region};
ghost use Rattle.iso_layout.specs.Promise.{IsoOpened};
ghost use Rattle.iso_frames.specs.Frame.{concerned, hears_at};

use iso_places::{HEARD, LAST, MESSAGES, MOST_PAYLOAD, PATTERN_IN, TALK_SIZE, TALKS_AT};

// Where in a conversation's place its width mark stands; where in a region the second conversation does.
const WIDTH_IN: usize = 1;

const SECOND: usize = TALKS_AT + TALK_SIZE;

// Is a frame of this width and identifier anything to the conversation at a place?
fn concerns(t: &[u8], wide: bool, id: u32) -> bool
    requires { length t.now ≡ talk_size }
    ensures { (flags : ℕ) → T ((slot (talk_cell flags)).valid t.now) → result ≡ concerned wide id ((slot (talk_cell flags)).get t.now) }
{
    (t[0] == 1) & ((wide == (t[WIDTH_IN] == 1)) & (id == integers::word_at(t, PATTERN_IN)))
}

// The conversation at place k hears a frame that concerns it.
fn listen(r: &mut [u8], k: usize, clock: u32, wide: bool, id: u32, bytes: &[u8])
    requires { IsoOpened r.old × (k < most_talks) × (concerned wide id (get_or (ready_part.get (drop 1 r.old)).talks k none) ≡ true) × (length bytes.now ≤ most_bytes) }
    ensures { r.new ≡ iso_region.put (ready (hears_at k clock bytes.now (ready_part.get (drop 1 r.old)))) }
{
    let at = TALKS_AT + k * TALK_SIZE;
    let end = at + TALK_SIZE;
    let mut scratch = [0u8; MOST_PAYLOAD];
    let said = talk_frames::hear(&mut r[at..end], bytes, &mut scratch);
    iso_telling::pass(&mut r[HEARD..LAST], clock, wide, id, said, &scratch);
    iso_flights::disown(r);
}

// A good frame at a clock, on the region of a channel, open or closed.
pub fn frame(r: &mut [u8], clock: u32, wide: u32, id: u32, bytes: &[u8])
    requires { (length r.old ≡ iso_region_size) × T (iso_region.valid r.old) × (frame_code wide id bytes.now ≡ 0x00) }
    ensures { r.new ≡ iso_region.put (on_iso_frame clock (iso_region.get r.old) wide id bytes.now) }
{
    if r[0] == 0 {
        return;
    }
    if concerns(&r[TALKS_AT..SECOND], wide == 1, id) {
        listen(r, 0, clock, wide == 1, id, bytes);
        return;
    }
    if concerns(&r[SECOND..MESSAGES], wide == 1, id) {
        listen(r, 1, clock, wide == 1, id, bytes);
    }
}
