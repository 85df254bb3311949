// Replays recorded answers of the Rust's modules (data/, made by host/record): each row is computed again and compared. One line a file.
#![tactic(auto)]

ghost use Rattle.std.specs.Prelude.{◌≡◌, ◌<◌, IfOk, vec_len};

mod links; // operations on a network's links
mod events; // a queue's events and their order
mod disk; // operations on a disk
mod matching; // log matching of two logs
mod schedules; // random fault schedules
mod settings; // settings and limits

use config::Config;
use disk::Disk;
use events::Events;
use network::{Link, Network, Route};
use rng::Rng;
use schedules::Schedules;
use seeds::Stream;
use std::io::Read;
use std::rt::Files;
use std::{fs, io};
use units::{Duration, LogIndex, NodeId, PayloadShape, Term};

// State, value drawn, next state.
fn draw_agrees(row: &[u8; 24]) -> bool {
    let mut g = Rng::new(words::load(row, 0));
    (g.next_u64() == words::load(row, 1)) & (g.state == words::load(row, 2))
}

// State, bound, value, next state.
fn below_agrees(row: &[u8; 32]) -> bool {
    let mut g = Rng::new(words::load(row, 0));
    let value = g.below(words::load(row, 1));
    (value == Some(words::load(row, 2))) & (g.state == words::load(row, 3))
}

// The stream of a number; a server's has its id and incarnation. The match is the one that reads streams' numbers: `seeds` has none.
fn stream_of(number: u64, id: u64, incarnation: u32) -> Stream {
    match number {
        0 => Stream::Faults,
        1 => Stream::Network,
        2 => Stream::Workload,
        3 => Stream::Scenario,
        4 => Stream::Startup,
        _ => Stream::Server {
            id: NodeId(id),
            incarnation,
        },
    }
}

// Seed, stream, server, incarnation, tag, the stream's seed.
fn seed_agrees(row: &[u8; 48]) -> bool {
    let Ok(incarnation) = u32::try_from(words::load(row, 3)) else {
        return false;
    };
    let stream = stream_of(words::load(row, 1), words::load(row, 2), incarnation);
    let seed = seeds::stream_seed(words::load(row, 0), stream);
    (stream.tag() == words::load(row, 4)) & (seed == words::load(row, 5))
}

// Client, sequence, size asked for, length of the command, its bytes.
fn encode_agrees(row: &[u8; 288]) -> bool {
    let Ok(client) = u32::try_from(words::load(row, 0)) else {
        return false;
    };
    let size = words::load(row, 2);
    if 256 < size {
        return false;
    }
    let mut out = [0u8; 256];
    let length = client::encode(client, words::load(row, 1), size as usize, &mut out);
    (length as u64 == words::load(row, 3)) & (out[..] == row[32..288])
}

// Length of the command, 1 where it has a key, client, sequence, the command's bytes.
fn decode_agrees(row: &[u8; 288]) -> bool {
    let length = words::load(row, 0);
    if 256 < length {
        return false;
    }
    let end = 32 + length as usize;
    let held = words::load(row, 1);
    match client::decode(&row[32..end]) {
        Some(key) => (held == 1)
            & (u64::from(key.client) == words::load(row, 2))
            & (key.seq == words::load(row, 3)),
        None => held == 0,
    }
}

// Heartbeat interval, election timeout min, max, entries per message, entries in flight, 1 where `validate` accepts.
fn config_agrees(row: &[u8; 48]) -> bool {
    let settings = Config {
        heartbeat_interval: Duration(words::load(row, 0)),
        election_timeout_min: Duration(words::load(row, 1)),
        election_timeout_max: Duration(words::load(row, 2)),
        max_entries_per_message: words::load(row, 3),
        max_entries_in_flight: words::load(row, 4),
    };
    u64::from(settings.validate().is_ok()) == words::load(row, 5)
}

// A server that may be absent, from a flag.
fn node_of(present: u64, id: u64) -> Option<NodeId> {
    (present != 0).then_some(NodeId(id))
}

// A write's kind and four numbers, then its record's length. No enum of the kinds: storage's would be matched once, right after the match
// that reads it.
fn record_agrees(row: &[u8; 48]) -> bool {
    let (a, b) = (words::load(row, 1), words::load(row, 2));
    let (c, d) = (words::load(row, 3), words::load(row, 4));
    if 4294967296 < d {
        return false;
    }
    let shape = if c == 0 {
        PayloadShape::Noop
    } else {
        PayloadShape::Command { length: d as usize }
    };
    let bytes = match words::load(row, 0) {
        0 => record::hard_state_bytes(Term(a), node_of(b, c)),
        1 => record::put_bytes(LogIndex(a), Term(b), shape),
        _ => record::truncate_bytes(LogIndex(a)),
    };
    bytes == words::load(row, 5)
}

// Whether a row tells a route: delivered, delay, copied, the copy's delay.
fn route_told(route: Route, row: &[u8; 96]) -> bool {
    match route {
        Route::Dropped => words::zero_words(row, 6, 10),
        Route::Delivered { delay, duplicate } => (words::load(row, 6) == 1)
            & (words::load(row, 7) == delay.0)
            & (words::load(row, 8) == u64::from(duplicate.is_some()))
            & (words::load(row, 9) == duplicate.map_or(0, |after| after.0)),
    }
}

// One-way delay, loss, duplication, factor, 1 where the link from server 1 to server 2 is blocked, state; delivered, delay, copied, the
// copy's delay, draws, next state.
fn route_agrees(row: &[u8; 96]) -> bool {
    let delay = words::load(row, 0);
    let factor = words::load(row, 3);
    let Ok(loss_ppm) = u32::try_from(words::load(row, 1)) else {
        return false;
    };
    let Ok(duplicate_ppm) = u32::try_from(words::load(row, 2)) else {
        return false;
    };
    if 1099511627776 < delay || 65536 < factor {
        return false;
    }
    let mut blocked = [false; 64];
    blocked[1] = words::load(row, 4) == 1;
    let n = Network {
        base_delay: Duration(delay),
        loss_ppm,
        duplicate_ppm,
        delay_factor: factor,
        blocked,
        rng: Rng::new(words::load(row, 5)),
    };
    let routed = n.route(Link {
        from: NodeId(1),
        to: NodeId(2),
    });
    route_told(routed.route, row)
        & (routed.draws == words::load(row, 10))
        & (routed.network.rng.state == words::load(row, 11))
}

// How many rows were compared, how many of them differ, and the first that does, counted from 1.
#[derive(Clone, Copy)]
struct Tally {
    rows: usize,
    differ: usize,
    first: Option<usize>,
}

// Compares the rows of a file.
fn compared<R, F: FnMut(&R) -> bool>(rows: &[R], mut agrees: F) -> Tally
    requires { F.IsAlwaysCallable agrees }
{
    let mut differ = 0;
    let mut first = None;
    for (i, row) in rows.iter().enumerate() {
        if !agrees(row) {
            differ += 1;
            first = first.or(Some(i + 1));
        }
    }
    Tally {
        rows: rows.len(),
        differ,
        first,
    }
}

// Writes what the comparison of a file gave.
fn report(rt: &impl Print, name: &str, t: Tally) -> io::Result<()> {
    let rows = t.rows;
    let differ = t.differ;
    print!(rt; "{name}: {rows} rows, {differ} differ")?;
    if let Some(first) = t.first {
        print!(rt; ", the first is row {first}")?;
    }
    println!(rt;)
}

// Reads a file into a buffer, in place of what it held; gives how many bytes.
fn read(rt: &impl Files, path: &str, buffer: &mut Vec<u8>) -> io::Result<usize>
    ensures { IfOk result (λ n. n ≡ vec_len buffer.new) }
{
    buffer.clear();
    let mut file = fs::open(rt, path)?;
    file.read_to_end(buffer)
}

// The rows of N bytes of a file that is read into a buffer.
fn read_rows<'a, const N: usize>(
    rt: &impl Files,
    path: &str,
    buffer: &'a mut Vec<u8>,
) -> io::Result<&'a [[u8; N]]>
    requires { 0 < N }
{
    read(rt, path, buffer)?;
    Ok(buffer.as_chunks::<N>().0)
}

// The files whose rows stand alone.
fn replay_rows(rt: &(impl Files + Print), buffer: &mut Vec<u8>) -> io::Result<()> {
    let rows = read_rows::<24>(rt, "draws.bin", buffer)?;
    report(rt, "draws", compared(rows, draw_agrees))?;
    let rows = read_rows::<32>(rt, "below.bin", buffer)?;
    report(rt, "below", compared(rows, below_agrees))?;
    let rows = read_rows::<48>(rt, "seeds.bin", buffer)?;
    report(rt, "seeds", compared(rows, seed_agrees))?;
    let rows = read_rows::<288>(rt, "client_encode.bin", buffer)?;
    report(rt, "client encode", compared(rows, encode_agrees))?;
    let rows = read_rows::<288>(rt, "client_decode.bin", buffer)?;
    report(rt, "client decode", compared(rows, decode_agrees))?;
    let rows = read_rows::<48>(rt, "config.bin", buffer)?;
    report(rt, "config", compared(rows, config_agrees))?;
    let rows = read_rows::<176>(rt, "settings.bin", buffer)?;
    report(rt, "settings", compared(rows, settings::agrees))?;
    let rows = read_rows::<48>(rt, "records.bin", buffer)?;
    report(rt, "records", compared(rows, record_agrees))?;
    let rows = read_rows::<96>(rt, "routes.bin", buffer)?;
    report(rt, "routes", compared(rows, route_agrees))
}

fn main(rt: HostRuntime) -> io::Result<()> {
    let mut buffer = Vec::new(rt.alloc());
    replay_rows(&rt, &mut buffer)?;
    let rows = read_rows::<40>(&rt, "links.bin", &mut buffer)?;
    let mut network = links::start();
    let tally = compared(rows, |row| links::agrees(&mut network, row));
    report(&rt, "links", tally)?;
    let rows = read_rows::<104>(&rt, "queue.bin", &mut buffer)?;
    let mut queue = Events::new();
    let tally = compared(rows, |row| queue.agrees(row));
    report(&rt, "queue", tally)?;
    let rows = read_rows::<384>(&rt, "disk.bin", &mut buffer)?;
    let mut disk = Disk::new();
    let tally = compared(rows, |row| disk.agrees(row));
    report(&rt, "disk", tally)?;
    let rows = read_rows::<160>(&rt, "log_matching.bin", &mut buffer)?;
    let tally = compared(rows, matching::agrees);
    report(&rt, "log matching", tally)?;
    let rows = read_rows::<128>(&rt, "schedules.bin", &mut buffer)?;
    let mut lists = Schedules::new();
    let tally = compared(rows, |row| lists.agrees(row));
    report(&rt, "schedules", tally)
}
