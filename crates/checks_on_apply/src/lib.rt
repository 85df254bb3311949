// A server applied a payload (on_apply of checks.rs): apply order first, then state machine safety. This asks what is to be reported
// and whether the payload is kept, over the region of applied payloads; the caller acts (`checks::violations::keep`,
// `checks::applied::append`).
#![tactic(auto)]

ghost use Rattle.std.specs.Prelude.{◌≡◌, ◌+◌, ◌*◌, ◌≤◌, length};
ghost use Rattle.layout.specs.Marked.{words_for};
ghost use Rattle.checks_on_apply.specs.OnApply.{AsksApply};

use checks::{applied, violations};
use units::LogIndex;
use units::refusal::Refusal;

// Question 10, answered no where the payloads have no room or the total no 64 bits; and, then too, whether another index was expected,
// whether another payload was applied at the index before, and whether the payload goes to the next free place.
#[derive(Clone, Copy)]
pub struct ApplyAsked {
    pub room: Result<(), Refusal>,
    pub late: bool,
    pub other: bool,
    pub next: bool,
}

// What an applied payload, lent in words, gives to report and to keep.
// (d) The regions and their counts come one by one: each is used once, and a struct of them would be made for this call alone.
pub fn on_apply(
    applied: &[u8],
    n: usize,
    room: u64,
    p: usize,
    total: u64,
    index: LogIndex,
    expected: u64,
    content: &[u8],
) -> ApplyAsked
    requires p_bound { p ≤ 256 }
    requires p_in_bounds { 8 * (n * (1 + words_for p)) ≤ length applied.now }
    requires content_len { length content.now ≡ 8 * (1 + words_for p) }
    ensures { AsksApply
        (record {
          applied = applied.now;
          count = n;
          room = room;
          longest = p;
          total = total;
          index = index;
          expected = expected;
          content = content.now;
        }) result }
{
    let late = index.0 != expected;
    let seen = applied::ask(applied, n, p, index, content);
    let other = seen.is_other();
    let next = seen.is_next();
    let rows = n as u64 + violations::one_if(next);
    let reports = violations::one_if(late) + violations::one_if(other);
    ApplyAsked {
        room: checks::where_fits(rows, room, total, reports, ()),
        late,
        other,
        next,
    }
}
