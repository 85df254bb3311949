// A server applied a payload (on_apply of checks.rs).
ghost use Rattle.std.specs.Prelude.{◌≡◌, ◌+◌, ◌*◌, ◌≤◌, ◌<◌, length};
ghost use Rattle.units.specs.Types.{payload_of};
ghost use Rattle.layout.specs.Marked.{words_for};
ghost use Rattle.state.specs.Changes.{Inside, Reads};
ghost use Rattle.state_asks.specs.Asks.{Asks, next_apply_of, ApplyTold, AsksRow};

use crate::numbers;
use checks_on_apply::ApplyAsked;
use layout::marked;
use state::{Capacity, sizes};
use units::LogIndex;

// The index that the server at a place is expected to apply next.
pub fn next_apply_of(area: &[u8], f: Capacity, k: usize) -> u64
    requires inside { Inside area.now f }
    requires k_lt_servers { k < f.servers }
    ensures { Reads area.now f result (next_apply_of k) }
{
    let at = numbers::block_at(area, f, k) + 8;
    let a = 8 * at;
    let e = 8 * (at + 14);
    words::load(&area[a..e], 10)
}

// What a payload that the server at a place applied gives, lent in words.
fn row_asked(area: &[u8], f: Capacity, k: usize, index: LogIndex, content: &[u8]) -> ApplyAsked
    requires inside { Inside area.now f }
    requires k_lt_servers { k < f.servers }
    requires content_len { length content.now ≡ 8 * (1 + words_for f.limits.payload) }
    ensures { AsksRow area.now f k index content.now result }
{
    let limits = f.limits;
    let p = limits.payload as usize;
    let expected = next_apply_of(area, f, k);
    let counts = state_header::counts_of(area, f);
    let n = numbers::rows_of(counts.applied, limits.log_indexes, 1 + (p + 7) / 8);
    let at = numbers::applied_at(area, f);
    let a = 8 * at;
    let e = 8 * (at + sizes::applied_words(f));
    checks_on_apply::on_apply(
        &area[a..e],
        n,
        limits.log_indexes,
        p,
        counts.total,
        index,
        expected,
        content,
    )
}

// The same of a payload by its kind and bytes, whose words are written to `content`.
fn payload_asked(
    area: &[u8],
    f: Capacity,
    k: usize,
    index: LogIndex,
    kind: u64,
    src: &[u8],
    content: &mut [u8],
) -> ApplyAsked
    requires inside { Inside area.now f }
    requires k_lt_servers { k < f.servers }
    requires kind_bound { kind ≤ 1 }
    requires src_len_bound { length src.now ≤ 256 * kind }
    requires src_len_bound_2 { length src.now ≤ f.limits.payload }
    requires content_len { length content.old ≡ 8 * (1 + words_for f.limits.payload) }
    ensures { Asks area.now f (ApplyTold k index (payload_of kind src.now) result) }
{
    marked::put_payload(content, kind, src);
    row_asked(area, f, k, index, content)
}

// What a payload that the server at a place applied gives to report and to keep.
pub fn apply_asked(
    area: &[u8],
    f: Capacity,
    k: usize,
    index: LogIndex,
    kind: u64,
    src: &[u8],
) -> ApplyAsked
    requires inside { Inside area.now f }
    requires k_lt_servers { k < f.servers }
    requires kind_bound { kind ≤ 1 }
    requires src_len_bound { length src.now ≤ 256 * kind }
    requires src_len_bound_2 { length src.now ≤ f.limits.payload }
    ensures { Asks area.now f (ApplyTold k index (payload_of kind src.now) result) }
{
    let limits = f.limits;
    let end = 8 * (1 + (limits.payload as usize + 7) / 8);
    let mut content = [0u8; 264];
    payload_asked(area, f, k, index, kind, src, &mut content[0..end])
}
