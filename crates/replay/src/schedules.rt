// schedules.bin: of each schedule a head, by which it is made again in a list of bytes 0xFF, then the bytes of the list after it: the
// entries, and what lies behind them.
ghost use Rattle.std.specs.Prelude.{◌≤◌};

use faults_chaos::ChaosConfig;
use faults_schedule::Made;
use rng::Rng;
use units::refusal::Refusal;
use units::{Duration, SimTime};

// The list of the last head: its length, and how much of it was compared.
#[derive(Drop)]
pub struct Schedules {
    list: [u8; 2048],
    size: usize,
    read: usize,
    ghost room: { size ≤ 2048 },
}

// A head's start, end, mean gap, longest duration.
fn config_of(head: &[u8; 128]) -> ChaosConfig {
    ChaosConfig {
        start: SimTime(words::load(head, 3)),
        end: SimTime(words::load(head, 4)),
        mean_gap: Duration(words::load(head, 5)),
        max_duration: Duration(words::load(head, 6)),
    }
}

// A generator's state after so many draws.
fn after_draws(state: u64, draws: u64) -> u64 {
    let mut g = Rng::new(state);
    for _ in 0..draws {
        g.next_u64();
    }
    g.state
}

// Whether an answer is a head's: a refusal's number, or the number of entries, and draws that lead from its state to the next.
fn answer_agrees(answer: Result<Made, Refusal>, head: &[u8; 128]) -> bool {
    let refusal = words::load(head, 0);
    let entries = words::load(head, 1);
    let before = words::load(head, 7);
    let after = words::load(head, 8);
    match answer {
        Err(refused) => (u64::from(refused) == refusal) & (entries == 0),
        Ok(made) => (refusal == 0)
            & (made.count == entries)
            & (after_draws(before, made.draws) == after),
    }
}

// The schedule of the servers whose ids are the bytes of a word, the lowest first, up to the last that is not 0, made in a list of bytes
// 0xFF.
fn made_again(
    list: &mut [u8],
    servers: u64,
    config: ChaosConfig,
    rng: &mut Rng,
) -> Result<Made, Refusal> {
    list.fill(255);
    let ids = servers.to_le_bytes();
    let n = 8 - (servers.leading_zeros() / 8) as usize;
    faults_schedule::chaos_schedule(&ids[0..n], config, list, rng)
}

// A head's length of the list, 0 where the list that is lent is shorter.
fn list_length(head: &[u8; 128]) -> usize
    ensures { result ≤ 2048 }
{
    let length = words::load(head, 9);
    if 2048 < length { 0 } else { length as usize }
}

impl Schedules {
    // A list of which nothing is left to compare.
    pub fn new() -> Schedules {
        Schedules {
            list: [0; 2048],
            size: 0,
            read: 0,
        }
    }

    // A head: refusal or 0, number of entries, servers, four times, state, next state, length of the list. The schedule is made in the
    // list.
    fn head_agrees(&mut self, head: &[u8; 128]) -> bool {
        self.size = list_length(head);
        self.read = 0;
        let size = self.size;
        let mut rng = Rng::new(words::load(head, 7));
        let answer = made_again(
            &mut self.list[0..size],
            words::load(head, 2),
            config_of(head),
            &mut rng,
        );
        answer_agrees(answer, head)
            & (rng.state == words::load(head, 8))
            & (size as u64 == words::load(head, 9))
    }

    // A row of schedules.bin: bytes of the last head's list where some are left, else a head.
    pub fn agrees(&mut self, row: &[u8; 128]) -> bool {
        if self.size <= self.read {
            return self.head_agrees(row);
        }
        let n = (self.size - self.read).min(128);
        let from = self.read;
        self.read += n;
        self.list[from..from + n] == row[0..n]
    }
}
