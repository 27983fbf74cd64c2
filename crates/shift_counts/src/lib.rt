// What one event adds to the 44 numbers of a shift report, found out on the memory before it. Each function adds what one kind of event counts.
#![tactic(auto)]

ghost use Rattle.std.specs.Prelude.{◌≡◌, List, ◌++◌, ℕ, ◌≤◌, ◌<◌, min, T, length, drop};
ghost use Rattle.machine.specs.Limits.{lines, most_bytes};
ghost use Rattle.machine.specs.Message.{id_bytes};
ghost use Rattle.machine.specs.Channel.{opened};
ghost use Rattle.machine.specs.Step.{frame};
ghost use Rattle.layout.specs.Memory.{open_part};
ghost use Rattle.layout.specs.Promise.{Opened};
ghost use Rattle.memory.specs.Memory.{valid, load};
ghost use Rattle.shift_places.specs.Places.{of_channel, at_read};
ghost use Rattle.shift.specs.Numbers.{held_in};
ghost use Rattle.shift_cells.specs.Sums.{plus, cell, on_line, Sums};
ghost use Rattle.shift_counts.specs.Adds.{adds, on_channel, on_each, held_at, losing, echo_adds, frame_adds};

use places::{LINES, REGION, REGIONS};

// Is a record that comes lost? It is where 32 are held.
fn lost(comes: bool, held: u32) -> u32
    ensures { (result ≡ losing comes held) × (result ≤ 1) }
{
    if !comes {
        return 0;
    }
    if held < places::MOST_TO_READ as u32 {
        return 0;
    }
    1
}

// What the raw channel of a number holds for reading counts for one of its numbers.
pub fn count_held(mem: &[u8], channel: u32, which: usize, numbers: &mut [u32])
    requires { T (valid mem.now) × (which < of_channel) × Sums numbers.old }
    ensures { numbers.new ≡ plus numbers.old (on_channel channel (held_at which) (load mem.now)) }
{
    let line = shift_looks::line_of(channel);
    if line >= LINES {
        return;
    }
    let a = REGIONS + line * REGION;
    let held = shift_looks::held(&mem[a..a + REGION]);
    shift_cells::add(numbers, line, which, held);
}

// What each raw channel holds for reading counts for one of its numbers.
pub fn count_each_held(mem: &[u8], which: usize, numbers: &mut [u32])
    requires { T (valid mem.now) × (which < of_channel) × Sums numbers.old }
    ensures { numbers.new ≡ plus numbers.old (on_each (held_at which) (load mem.now)) }
{
    for line in 0..LINES {
        let a = REGIONS + line * REGION;
        let held = shift_looks::held(&mem[a..a + REGION]);
        shift_cells::add(numbers, line, which, held);
    }
}

// A read of n records counts those that it gives.
pub fn count_read(mem: &[u8], channel: u32, n: u32, numbers: &mut [u32])
    requires { T (valid mem.now) × Sums numbers.old }
    ensures { numbers.new ≡ plus numbers.old (on_channel channel (λ c. cell at_read (min n (held_in c))) (load mem.now)) }
{
    let line = shift_looks::line_of(channel);
    if line >= LINES {
        return;
    }
    let a = REGIONS + line * REGION;
    let held = shift_looks::held(&mem[a..a + REGION]);
    let given = reading::fewest(n, held);
    shift_cells::add(numbers, line, shift_places::READ, given);
}

// A sent counts its echo, which may be lost.
pub fn count_sent(mem: &[u8], channel: u32, numbers: &mut [u32])
    requires { T (valid mem.now) × Sums numbers.old }
    ensures { numbers.new ≡ plus numbers.old (on_channel channel echo_adds (load mem.now)) }
{
    let line = shift_looks::line_of(channel);
    if line >= LINES {
        return;
    }
    let a = REGIONS + line * REGION;
    if !shift_looks::would_echo(&mem[a..a + REGION]) {
        return;
    }
    let held = shift_looks::held(&mem[a..a + REGION]);
    let gone = lost(true, held);
    shift_cells::add(numbers, line, shift_places::ECHOED, 1);
    shift_cells::add(numbers, line, shift_places::LOST, gone);
}

// A good frame on the region of an open channel counts as offered, by what becomes of it, and as lost where it is.
fn count_offered(r: &[u8], line: usize, wide: bool, id: u32, bytes: &[u8], numbers: &mut [u32])
    requires { Opened r.now × (line < lines) × (length bytes.now ≤ most_bytes) × Sums numbers.old }
    ensures { numbers.new ≡ plus numbers.old (on_line line (frame_adds wide (id_bytes id ++ bytes.now) (opened (open_part.get (drop 1 r.now))))) }
{
    let fate = fates::fate(r, wide, id, bytes);
    let held = shift_looks::held(r);
    let gone = lost(fate == shift_places::PASSED, held);
    shift_cells::add(numbers, line, shift_places::OFFERED, 1);
    shift_cells::add(numbers, line, fate, 1);
    shift_cells::add(numbers, line, shift_places::LOST, gone);
}

// A frame counts where it is a good one on the line of an open raw channel.
pub fn count_frame(mem: &[u8], line: u32, wide: u32, id: u32, bytes: &[u8], numbers: &mut [u32])
    requires { T (valid mem.now) × Sums numbers.old }
    ensures { (rates : List ℕ) → numbers.new ≡ plus numbers.old (adds rates (load mem.now) (frame line wide id bytes.now)) }
{
    let index = line as usize;
    if index >= LINES {
        return;
    }
    let code = codes::code_of(frame_tests::frame_code(wide, id, bytes));
    if code != codes::STATUS_NOERROR {
        return;
    }
    let a = REGIONS + index * REGION;
    if mem[a] == 0 {
        return;
    }
    count_offered(&mem[a..a + REGION], index, wide == 1, id, bytes, numbers);
}
