// The marking key: the listing of the slot on standard input, on standard output.
#![tactic(auto)]

use host_io::read_full;
use key_print::{print_listing, slot_room};

fn main(rt: HostRuntime) {
    let mut slot = slot_room();
    let n = read_full(&mut rt.stdin(), &mut slot);
    let _ = print_listing(&mut rt.stdout(), &slot[..n]);
}
