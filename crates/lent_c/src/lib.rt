// The dock's calls on a record that is lent as bytes, as C makes them (docs/RULES.md, section 14; include/keydock.h), each function under
// its own name. Nothing is decided here.
#![tactic(auto)]

ghost use Rattle.std.specs.Prelude.{◌≡◌};
ghost use Rattle.dock.specs.Calls.{Scan, Swap, Frame, Read};
ghost use Rattle.lent.specs.Lent.{number_for, bytes_after, power_number, power_bytes, indicators_number, scanning_number};

// Power-on, whatever the bytes were.
#[unsafe(no_mangle)]
pub extern "C" fn keydock_power_on(lent: &mut [u8]) -> i32
    ensures answer { result ≡ power_number lent.old }
    ensures bytes { lent.new ≡ power_bytes lent.old }
{
    lent::keydock_power_on(lent)
}

// A scan of the panel.
#[unsafe(no_mangle)]
pub extern "C" fn keydock_scan(lent: &mut [u8], scan: &[u8]) -> i32
    ensures answer { result ≡ number_for (Scan scan.now) lent.old }
    ensures bytes { lent.new ≡ bytes_after (Scan scan.now) lent.old }
{
    lent::keydock_scan(lent, scan)
}

// Another panel.
#[unsafe(no_mangle)]
pub extern "C" fn keydock_swap(lent: &mut [u8], new: &[u8]) -> i32
    ensures answer { result ≡ number_for (Swap new.now) lent.old }
    ensures bytes { lent.new ≡ bytes_after (Swap new.now) lent.old }
{
    lent::keydock_swap(lent, new)
}

// A frame from the host.
#[unsafe(no_mangle)]
pub extern "C" fn keydock_frame(lent: &mut [u8], number: u32) -> i32
    ensures answer { result ≡ number_for (Frame number) lent.old }
    ensures bytes { lent.new ≡ bytes_after (Frame number) lent.old }
{
    lent::keydock_frame(lent, number)
}

// The next byte for the host.
#[unsafe(no_mangle)]
pub extern "C" fn keydock_read(lent: &mut [u8]) -> i32
    ensures answer { result ≡ number_for Read lent.old }
    ensures bytes { lent.new ≡ bytes_after Read lent.old }
{
    lent::keydock_read(lent)
}

// The lamps that the host wants lit.
#[unsafe(no_mangle)]
pub extern "C" fn keydock_indicators(lent: &[u8]) -> i32
    ensures { result ≡ indicators_number lent.now }
{
    lent::keydock_indicators(lent)
}

// Whether the host wants scans to be heard.
#[unsafe(no_mangle)]
pub extern "C" fn keydock_scanning(lent: &[u8]) -> i32
    ensures { result ≡ scanning_number lent.now }
{
    lent::keydock_scanning(lent)
}
