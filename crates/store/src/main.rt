// Shows the saved set-up on standard input in words: its configuration, its filters and its periodics. A line on standard error says that it is bad
// and where, and then nothing is shown, why a good one cannot be loaded, or that the program could not read or write.
#![tactic(auto)]

use std::io;

// Shows a good store, or says why it could not.
fn show(out: &impl Print, store: &[u8]) -> io::Result<()> {
    store_words::words(out, store)?;
    out.write_all(b"\n")
}

// Says why no channel would load a good store: its flags are none that a channel has, or its rate is one of before.
fn warn(said: &impl Print, flags: u32, retired: bool) -> io::Result<()> {
    if !can::is_raw_flags(flags) {
        said.write_all(b"store: cannot be loaded: no channel has its flags\n")?;
    }
    if retired {
        said.write_all(b"store: cannot be loaded: set refuses its rate\n")?;
    }
    Ok(())
}

// Says that a store is bad, and the place of the first number, filter or periodic that is.
fn refuse(said: &impl Print, store: &[u8], flags: u32) -> io::Result<()> {
    let at = store_fault::bad_at(store, &can::OLD_RATES, flags);
    println!(said; "store: bad store: at byte {at}")
}

// Shows a store that was good in its time, or says that it is bad.
fn tell(out: &impl Print, said: &impl Print, store: &[u8]) -> io::Result<()> {
    let flags = store_words::flags_of(store);
    let loads = store_check::good(store, &can::RATES, flags);
    if loads | store_check::good(store, &can::OLD_RATES, flags) {
        if let Err(e) = show(out, store) {
            return println!(said; "store: standard output: {e}");
        }
        warn(said, flags, !loads)
    } else {
        refuse(said, store, flags)
    }
}

// Reads the store and shows it.
fn main(rt: HostRuntime) -> io::Result<()> {
    let mut buffer = [0u8; input::READ];
    let mut size = 0;
    if let Err(e) = input::read_all(&mut rt.stdin(), &mut buffer, &mut size) {
        return eprintln!(rt; "store: standard input: {e}");
    }
    tell(&rt, &rt.stderr(), input::first(&buffer, size))
}
