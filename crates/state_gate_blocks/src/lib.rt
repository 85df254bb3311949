// Whether the bytes of a server's block are the content of a server, and the blocks of all servers.
#![tactic(auto)]

ghost use Rattle.std.specs.Prelude.{◌≡◌, ◌*◌, ◌≤◌, length};
ghost use Rattle.words.specs.Words.{W};
ghost use Rattle.state.specs.Sizes.{block_words, Within};
ghost use Rattle.state_gate_blocks.specs.Blocks.{flagged, status_told, storage_state_ok, server_state_ok, fixed_ok, server_ok, servers_ok};

use layout::keys;
use state::{Capacity, sizes};
use storage::waiting;

// Whether a flag is 0 and its number 0, or the flag 1.
fn flagged(flag: u64, number: u64) -> bool
    ensures { result ≡ flagged flag number }
{
    if flag == 0 {
        return number == 0;
    }
    flag == 1
}

// Whether eight words are those of the fixed part of a storage.
fn storage_state(s: &[u8]) -> bool
    requires { 64 ≤ length s.now }
    ensures { result ≡ storage_state_ok (W s.now) }
{
    let vote = flagged(words::load(s, 1), words::load(s, 2));
    let durable_vote = flagged(words::load(s, 4), words::load(s, 5));
    vote & durable_vote
}

// Whether six words are those of a status, or of none.
fn status(s: &[u8]) -> bool
    requires { 48 ≤ length s.now }
    ensures { result ≡ status_told (W s.now) }
{
    let flag = words::load(s, 0);
    let role = words::load(s, 1);
    let term = words::load(s, 2);
    let known = words::load(s, 3);
    let leader = words::load(s, 4);
    let commit_index = words::load(s, 5);
    if flag == 0 {
        return (role == 0) & (term == 0) & (known == 0) & (leader == 0) & (commit_index == 0);
    }
    let hint = flagged(known, leader);
    (flag == 1) & (role <= 2) & hint
}

// Whether fourteen words are those of the rest of a server whose log has l places.
fn server_state(s: &[u8], l: u64) -> bool
    requires in_bounds { 112 ≤ length s.now }
    requires l_bound { l ≤ 1024 }
    ensures { result ≡ server_state_ok l (W s.now) }
{
    let status = status(s);
    let incarnation = words::load(s, 6);
    let crash = words::load(s, 9);
    let next = words::load(s, 10);
    let leading = flagged(words::load(s, 12), words::load(s, 13));
    status & (crash <= 1) & leading & (incarnation < 4294967296) & (1 <= next) & (next <= l + 1)
}

// Whether a block begins with 64 words of fixed size.
fn fixed(s: &[u8], f: Capacity) -> bool
    requires within { Within f }
    requires in_bounds { 512 ≤ length s.now }
    ensures { result ≡ fixed_ok f (W s.now) }
{
    let limits = f.limits;
    let storage = storage_state(s);
    let server = server_state(&s[64..176], limits.log_indexes);
    let unused = words::zero_words(s, 22, 64);
    storage & server & unused
}

// Whether a block is the content of a server.
fn block(s: &[u8], f: Capacity) -> bool
    requires within { Within f }
    requires s_len { length s.now ≡ 8 * block_words f }
    ensures { result ≡ server_ok f (W s.now) }
{
    let limits = f.limits;
    let l = limits.log_indexes;
    let p = limits.payload as usize;
    let writes = words::load(s, 6) as usize;
    let pending = words::load(s, 19) as usize;
    let log = sizes::log_words(f);
    let durable_at = 64 + log;
    let waiting_at = durable_at + log;
    let pending_at = waiting_at + sizes::waiting_words(f);
    let b = 8 * durable_at;
    let c = 8 * waiting_at;
    let d = 8 * pending_at;
    let e = s.len();
    let head = fixed(s, f);
    let current = raft_log::check(&s[512..b], l as usize, p);
    let durable = raft_log::check(&s[b..c], l as usize, p);
    let waiting = waiting::check(&s[c..d], writes, l, p);
    let keys = keys::check(&s[d..e], pending, f.clients);
    head & current & durable & waiting & keys
}

// Whether the blocks, one after the other, are the contents of all servers.
pub fn blocks(s: &[u8], f: Capacity) -> bool
    requires within { Within f }
    requires s_len { length s.now ≡ 8 * (f.servers * block_words f) }
    ensures { result ≡ servers_ok f (W s.now) }
{
    let n = f.servers as usize;
    let w = sizes::block_words(f);
    for i in 0..n {
        let at = sizes::block_at(f, i) - 512;
        let a = 8 * at;
        let e = 8 * (at + w);
        if !block(&s[a..e], f) {
            return false;
        }
    }
    true
}
