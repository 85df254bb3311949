// Deterministic random numbers (crates/consensus/src/rng.rs): the generator SplitMix64 of Steele, Lea and Flood, "Fast Splittable
// Pseudorandom Number Generators", OOPSLA 2014.
#![tactic(auto)]

ghost use Rattle.std.specs.Prelude.{◌≡◌, ◌<◌};
ghost use Rattle.rng.specs.Rng.{new, next_u64, under, below, bounded_number, below_number};

// A seeded SplitMix64 generator.
#[derive(Clone, Copy)]
pub struct Rng {
    pub state: u64,
}

// A draw: its value, and the generator after it.
#[derive(Clone, Copy)]
pub struct Drawn {
    pub value: u64,
    pub next: Rng,
}

impl Rng {
    // The generator of a seed.
    pub fn new(seed: u64) -> Rng
        ensures { result ≡ new seed }
    {
        Rng { state: seed }
    }

    // The next 64 random bits.
    #[tactic(auto, unfolding(crate::specs::Rng::next_u64, crate::specs::Rng::mix))]
    pub fn next_u64(&mut self) -> u64
        ensures { (result ≡ (next_u64 self.old).value) × (self.new ≡ (next_u64 self.old).next) }
    {
        self.state = self.state.wrapping_add(0x9E37_79B9_7F4A_7C15);
        let mut z = self.state;
        z = (z ^ (z >> 30)).wrapping_mul(0xBF58_476D_1CE4_E5B9);
        z = (z ^ (z >> 27)).wrapping_mul(0x94D0_49BB_1331_11EB);
        z ^ (z >> 31)
    }

    // A number below a positive bound, and the generator after the draw. By value, so that what is proved of a draw takes one premise for
    // both, as `d ≡ under g bound`.
    #[tactic(auto, unfolding(crate::specs::Rng::under), using(crate::specs::Laws::under_lt))]
    pub fn drawn_under(self, bound: u64) -> Drawn
        requires { 0 < bound }
        ensures { (result ≡ under self bound) × (result.value < bound) }
    {
        let mut next = self;
        let wide = u128::from(next.next_u64()) * u128::from(bound);
        Drawn {
            value: (wide >> 64) as u64,
            next,
        }
    }

    // A number below a bound; no number, and the generator as it was, where the bound is zero.
    #[tactic(auto, unfolding(crate::specs::Rng::below, crate::specs::Rng::below_number))]
    pub fn below(&mut self, bound: u64) -> Option<u64>
        ensures { (result ≡ (below self.old bound).value) × (self.new ≡ (below self.old bound).next)
            × (bounded_number result ≡ below_number bound) }
    {
        if bound == 0 {
            return None;
        }
        let draw = self.drawn_under(bound);
        *self = draw.next;
        Some(draw.value)
    }
}
