// Load: a channel's set-up out of a store.
#![tactic(auto)]

ghost use Rattle.std.specs.Prelude.{◌≡◌, [], ℕ};
ghost use Rattle.codes.specs.Code.{code_of};
ghost use Rattle.machine.specs.Channel.{load_setup};
ghost use Rattle.layout.specs.Promise.{gives, Opened, call_outcome};

use codes::Refusal;

// Load a store on an open channel's region: all of it is checked first, then all of it replaces what is there.
pub fn load_in(r: &mut [u8], rates: &[u32], store: &[u8]) -> Result<(), Refusal>
    requires { Opened r.old }
    ensures { (t : ℕ) → gives (code_of result) 0 [] r.new ≡ call_outcome rates.now t r.old (load_setup store.now) }
{
    if !store_check::good(store, rates, integers::word_at(r, places::FLAGS)) {
        return Err(Refusal::InvalidMsg);
    }
    replacing::replace(r, store);
    Ok(())
}
