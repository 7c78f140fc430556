// Bytes that wait at the front of an array with zeros behind them, for any number of places: the queue has 16, the replies have three.
ghost use Rattle.std.specs.Prelude.{◌≡◌, [], ◌∷◌, ◌++◌, ◌≤◌, drop};
ghost use Rattle.queue.specs.Queues.{tidy_array};

// Array and number are asked apart: a queue has the number as a usize, the replies as a byte.

// So many bytes wait, no more than there are places, and zeros stand behind them. The loop keeps a flag and runs to its end, so that the
// compiler takes all places at a time.
pub fn is_tidy_array<const PLACES: usize>(bytes: &[u8; PLACES], count: usize) -> bool
    ensures { result ≡ tidy_array PLACES bytes.now count }
{
    let mut good = count <= PLACES;
    for (i, byte) in bytes.iter().enumerate() {
        good = good & ((i < count) | (*byte == 0));
    }
    good
}

// Every byte but the first moves one place to the front, and a zero comes in behind.
pub fn moved_up<const PLACES: usize>(bytes: &[u8; PLACES]) -> [u8; PLACES]
    requires { 1 ≤ PLACES }
    ensures { result ≡ drop 1 bytes.now ++ 0 ∷ [] }
{
    let mut moved = [0; PLACES];
    let all = &bytes[..];
    moved[..PLACES - 1].copy_from_slice(&all[1..]);
    moved
}
