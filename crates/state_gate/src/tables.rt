// Whether the servers and the tables of an area are contents, each of as many rows as the header counts.
ghost use Rattle.std.specs.Prelude.{◌≡◌};
ghost use Rattle.state.specs.Changes.{Inside};
ghost use Rattle.state_gate_header.specs.Regions.{region_ok, regions_ok};

use checks::{entries, leaders};
use checks_durability::replies;
use clients::confirmations;
use layout::applied;
use queue::range::Ranges;
use queue::table;
use state::{Capacity, sizes};

// The servers' blocks.
pub fn servers(area: &[u8], f: Capacity) -> bool
    requires { Inside area.now f }
    ensures { result ≡ region_ok f area.now 9 }
{
    let e = 8 * sizes::queue_at(f);
    state_gate_blocks::blocks(&area[4096..e], f)
}

// The queue.
fn queue(area: &[u8], f: Capacity) -> bool
    requires { Inside area.now f }
    ensures { result ≡ region_ok f area.now 10 }
{
    let limits = f.limits;
    let n = words::load(&area[664..728], 0) as usize;
    let a = 8 * sizes::queue_at(f);
    let e = 8 * sizes::seen_at(f);
    let ranges = Ranges {
        servers: f.servers,
        clients: f.clients,
        indexes: limits.log_indexes,
        message: limits.message as usize,
    };
    table::check(&area[a..e], n, ranges)
}

// The entries seen.
fn seen(area: &[u8], f: Capacity) -> bool
    requires { Inside area.now f }
    ensures { result ≡ region_ok f area.now 11 }
{
    let limits = f.limits;
    let n = words::load(&area[664..728], 1) as usize;
    let a = 8 * sizes::seen_at(f);
    let e = 8 * sizes::leaders_at(f);
    entries::check(&area[a..e], n, limits.log_indexes, limits.payload as usize)
}

// The leaders.
fn leaders(area: &[u8], f: Capacity) -> bool
    requires { Inside area.now f }
    ensures { result ≡ region_ok f area.now 12 }
{
    let n = words::load(&area[664..728], 2) as usize;
    let a = 8 * sizes::leaders_at(f);
    let e = 8 * sizes::replies_at(f);
    leaders::check(&area[a..e], n, f.servers)
}

// The replies.
fn replies(area: &[u8], f: Capacity) -> bool
    requires { Inside area.now f }
    ensures { result ≡ region_ok f area.now 13 }
{
    let limits = f.limits;
    let n = words::load(&area[664..728], 3) as usize;
    let a = 8 * sizes::replies_at(f);
    let e = 8 * sizes::confirmations_at(f);
    replies::check(&area[a..e], n, limits.log_indexes, f.clients)
}

// The confirmations.
fn confirmations(area: &[u8], f: Capacity) -> bool
    requires { Inside area.now f }
    ensures { result ≡ region_ok f area.now 14 }
{
    let n = words::load(&area[664..728], 4) as usize;
    let a = 8 * sizes::confirmations_at(f);
    let e = 8 * sizes::applied_at(f);
    confirmations::check(&area[a..e], n)
}

// The applied payloads.
fn applied(area: &[u8], f: Capacity) -> bool
    requires { Inside area.now f }
    ensures { result ≡ region_ok f area.now 15 }
{
    let limits = f.limits;
    let n = words::load(&area[664..728], 5) as usize;
    let a = 8 * sizes::applied_at(f);
    let e = 8 * sizes::clients_at(f);
    applied::check(&area[a..e], n, limits.payload as usize)
}

// The clients.
fn clients(area: &[u8], f: Capacity) -> bool
    requires { Inside area.now f }
    ensures { result ≡ region_ok f area.now 16 }
{
    let n = f.clients as usize;
    let a = 8 * sizes::clients_at(f);
    let e = 8 * sizes::whole_words(f);
    clients::check(&area[a..e], n, f.servers)
}

// All tables behind the servers.
pub fn tables(area: &[u8], f: Capacity) -> bool
    requires { Inside area.now f }
    ensures { result ≡ regions_ok f area.now 10 7 }
{
    let queue = queue(area, f);
    let seen = seen(area, f);
    let leaders = leaders(area, f);
    let replies = replies(area, f);
    let confirmations = confirmations(area, f);
    let applied = applied(area, f);
    let clients = clients(area, f);
    queue & seen & leaders & replies & confirmations & applied & clients
}

// What document 01's formula leaves over: zeros.
pub fn spare(area: &[u8], f: Capacity) -> bool
    requires { Inside area.now f }
    ensures { result ≡ region_ok f area.now 17 }
{
    let a = 8 * sizes::whole_words(f);
    let e = config::area_length(f.servers, f.clients, f.limits) as usize;
    words::all_zero(&area[a..e])
}
