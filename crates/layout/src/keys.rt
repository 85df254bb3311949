// The client commands that a server has registered and not applied (`pending` of simulation.rs, a set of pairs): rows of two words, the
// client and the sequence number, rising. The caller keeps the count n; a function that changes it answers the new one.
ghost use Rattle.std.specs.Prelude.{◌≡◌, ◌+◌, ◌*◌, ◌≤◌, ◌<◌, length};
ghost use Rattle.laws.specs.Decides.{Decides};
ghost use Rattle.laws.specs.Lists.{is_some};
ghost use Rattle.laws.specs.Order.{pairs, lookup};
ghost use Rattle.words.specs.Words.{W};
ghost use Rattle.layout.specs.Code.{ok_n};
ghost use Rattle.layout.specs.Tables.{Tabled, rows_in};
ghost use Rattle.client.specs.Key.{key_of};
ghost use Rattle.layout.specs.Keys.{key_row, keys, Inserts, Removes};

use crate::rows;
use client::ClientKey;

// There is no room for one more key.
#[derive(Clone, Copy)]
pub struct Full;

// Whether a key is there.
pub fn contains(s: &[u8], n: usize, key: ClientKey) -> bool
    requires { 8 * (n * 2) ≤ length s.now }
    ensures { result ≡ is_some (lookup pairs key_of (key_of key) (rows_in key_row n s.now)) }
{
    rows::find(s, n, 2, (key.client as u64, key.seq)).is_ok()
}

// Puts a key in, unless it is there, and answers how many there are then; a key that is there needs no room.
pub fn insert(s: &mut [u8], n: usize, room: usize, key: ClientKey) -> Result<usize, Full>
    requires n_le_room { n ≤ room }
    requires room_in_bounds { 8 * (room * 2) ≤ length s.old }
    ensures { Inserts key n room result s.old s.new }
{
    let client = key.client as u64;
    match rows::find(s, n, 2, (client, key.seq)) {
        Ok(_) => Ok(n),
        Err(i) => {
            if room <= n {
                return Err(Full);
            }
            let at = rows::start(i, n, 2);
            rows::open_row(s, n, i, 2);
            words::store_all(s, at, &[client, key.seq]);
            Ok(n + 1)
        }
    }
}

// Takes a key out, if it is there.
pub fn remove(s: &mut [u8], n: usize, key: ClientKey) -> usize
    requires { 8 * (n * 2) ≤ length s.old }
    ensures { Removes key n result s.old s.new }
{
    match rows::find(s, n, 2, (key.client as u64, key.seq)) {
        Ok(i) => {
            rows::remove_row(s, n, i, 2);
            n - 1
        }
        Err(_) => n,
    }
}

// Whether every client is below `clients`.
fn clients_below(s: &[u8], n: usize, clients: u64) -> bool
    requires { 8 * (n * 2) ≤ length s.now }
    ensures { result ≡ ok_n (keys clients).row n (W s.now) }
{
    for i in 0..n {
        if clients <= words::load(s, i * 2) {
            return false;
        }
    }
    true
}

// Whether the bytes are a table of n keys of clients below `clients`.
pub fn check(s: &[u8], n: usize, clients: u64) -> bool
    ensures { Decides result (Tabled (keys clients) n s.now) }
{
    if !rows::padding(s, n, 2) {
        return false;
    }
    if !clients_below(s, n, clients) {
        return false;
    }
    rows::rising::<(u64, u64)>(s, n, 2)
}
