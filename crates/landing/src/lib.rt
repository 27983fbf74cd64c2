// Landing: what was in flight is sent, and with loopback on comes back; the connection learns of it.
#![tactic(auto)]

ghost use Rattle.std.specs.Prelude.{◌≡◌, List, [], ℕ, drop};
ghost use Rattle.codes.specs.Code.{code_of};
ghost use Rattle.machine.specs.Channel.{opened, landed, sent as sent_of};
ghost use Rattle.layout.specs.Memory.{open_part, region};
ghost use Rattle.layout.specs.Promise.{gives, Opened, call_outcome};

use codes::Refusal;

// Where in a region the record in flight begins, behind its mark.
const FLYING: usize = places::FLIGHT + 1;

// Nothing is in flight any more, and the connection learns of it.
fn land(r: &mut [u8])
    requires { Opened r.old }
    ensures { r.new ≡ region.put (opened (landed (open_part.get (drop 1 r.old)))) }
{
    octets::zero(&mut r[places::FLIGHT..places::RECEIVING]);
    link_landing::sent(&mut r[places::LINK..places::REGION]);
}

// Sent: nothing is in flight any more. With loopback on, what was in flight comes back as if received.
pub fn sent(r: &mut [u8], clock: u32) -> Result<(), Refusal>
    requires { Opened r.old }
    ensures { (rates : List ℕ) → gives (code_of result) 0 [] r.new ≡ call_outcome rates clock r.old sent_of }
{
    if r[places::FLIGHT] == 0 {
        return Err(Refusal::Failed);
    }
    if r[places::LOOPBACK] == 0 {
        land(r);
        return Ok(());
    }
    let mut landed = [0u8; places::RECORD];
    octets::copy(&mut landed, &r[FLYING..places::RECEIVING]);
    land(r);
    receiving::echo(r, clock, &landed);
    Ok(())
}
