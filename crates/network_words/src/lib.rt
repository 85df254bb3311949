// The network in a region of 5 words: loss, duplication, delay factor, blocked links, the generator's state. The base delay is the
// settings' one-way delay and is not stored.
#![tactic(auto)]

ghost use Rattle.std.specs.Prelude.{◌≡◌, ◌+◌, ◌*◌, ◌%◌, ◌^◌, ◌≤◌, length, get_or};
ghost use Rattle.laws.specs.Bools.{pick};
ghost use Rattle.laws.specs.Decides.{Decides};
ghost use Rattle.words.specs.Words.{W};
ghost use Rattle.layout.specs.Tables.{Content};
ghost use Rattle.layout.specs.Regions.{Loads, Stores};
ghost use Rattle.network.specs.Network.{network_in_range};
ghost use Rattle.network_words.specs.Links.{from_bits, bits};
ghost use Rattle.network_words.specs.NetworkCode.{network_code};

use network::Network;
use rng::Rng;
use std::array;
use units::Duration;

// The links as the bits of a word: link k is bit k.
fn word_of(links: [bool; 64]) -> u64
    ensures { result ≡ from_bits links }
{
    let mut word = 0;
    for k in (0..64).rev() {
        word = u64::from(links[k]) + 2 * word;
    }
    word
}

// The bits of a word as links: bit k is link k.
fn links_of(word: u64) -> [bool; 64]
    ensures { result ≡ bits 64 word }
{
    array::from_fn(|k| (word >> k) % 2 == 1)
}

// The rate in word i: a content has no more than 32 bits there.
fn load_rate(s: &[u8], i: usize) -> u32
    requires { 8 * i + 8 ≤ length s.now }
    ensures { result ≡ get_or (W s.now) i 0 % 2 ^ 32 }
{
    (words::load(s, i) % 4294967296) as u32
}

// The network whose content the region is.
pub fn load(s: &[u8], base_delay: Duration) -> Network
    requires { length s.now ≡ 40 }
    ensures { Loads (λ S. network_code S base_delay.0) s.now result }
{
    Network {
        base_delay,
        loss_ppm: load_rate(s, 0),
        duplicate_ppm: load_rate(s, 1),
        delay_factor: words::load(s, 2),
        blocked: links_of(words::load(s, 3)),
        rng: Rng {
            state: words::load(s, 4),
        },
    }
}

// Makes the region the content of a network.
pub fn store(s: &mut [u8], n: Network)
    requires { length s.old ≡ 40 }
    ensures { Stores (λ S. network_code S n.base_delay.0) network_in_range n s.new }
{
    let links = n.blocked;
    let row = [
        n.loss_ppm as u64,
        n.duplicate_ppm as u64,
        n.delay_factor,
        word_of(links),
        n.rng.state,
    ];
    words::store_all(s, 0, &row);
}

// Whether the region is the content of a network of so many servers with this base delay.
pub fn check(s: &[u8], servers: u64, base_delay: Duration) -> bool
    ensures { Decides result (Content (network_code servers base_delay.0) s.now) }
{
    if s.len() != 40 {
        return false;
    }
    let loss = words::load(s, 0);
    let duplication = words::load(s, 1);
    let factor = words::load(s, 2);
    let links = links_of(words::load(s, 3));
    let within = network::links_within(links, servers);
    (base_delay.0 <= 1099511627776)
        & (loss < 4294967296)
        & (duplication < 4294967296)
        & (1 <= factor)
        & (factor <= 65536)
        & within
}
