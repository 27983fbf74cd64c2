// Starting a flow-control filter on the region of an ISO 15765 channel: its checks.
#![tactic(auto)]

ghost use Rattle.std.specs.Prelude.{◌≡◌, ℕ};
ghost use Rattle.codes.specs.Code.{code_of};
ghost use Rattle.iso.specs.Iso.{OpenIso, ready, talk_code};
ghost use Rattle.iso_layout.specs.Region.{iso_region};
ghost use Rattle.iso_layout.specs.Promise.{IsoOpened};

use codes::Refusal;
use iso_places::{MESSAGES, RECORD, TALKS_AT};

// Where the second conversation stands.
const SECOND: usize = TALKS_AT + iso_places::TALK_SIZE;

// The checks of a start: those of its records, then 0x18 where an identifier of one width is known, 0x0C where no place is free.
pub fn code_in(r: &[u8], kind: u32, mask: &[u8], pattern: &[u8], flow: &[u8]) -> Result<(), Refusal>
    requires { IsoOpened r.now }
    ensures { (o : OpenIso) → iso_region.get r.now ≡ ready o → code_of result ≡ talk_code o kind mask.now pattern.now flow.now }
{
    if (mask.len() < RECORD) | (pattern.len() < RECORD) | (flow.len() < RECORD) {
        return Err(Refusal::NullParameter);
    }
    let m = talk_starts::names(mask);
    let p = talk_starts::names(pattern);
    let f = talk_starts::names(flow);
    let wide = m.tx / 0x100 % 2 == 1;
    let a = p.id;
    let b = f.id;
    talk_starts::start_code(integers::word_at(r, places::FLAGS), kind, m, p, f)?;
    let first = talk_starts::is_known(&r[TALKS_AT..SECOND], wide, a, b);
    let second = talk_starts::is_known(&r[SECOND..MESSAGES], wide, a, b);
    if first | second {
        return Err(Refusal::NotUnique);
    }
    if (r[TALKS_AT] != 0) & (r[SECOND] != 0) {
        return Err(Refusal::ExceededLimit);
    }
    Ok(())
}
