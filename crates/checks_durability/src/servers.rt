// The servers against the highest acknowledged index (the second part of check_durability of checks.rs): how far servers 1, 2 and so on
// have applied.
ghost use Rattle.std.specs.Prelude.{◌≡◌, ◌≤◌, length};
ghost use Rattle.checks_durability.specs.Servers.{CountsBelow};

// How many servers have applied less than the highest index.
#[tactic(auto, using(crate::specs::ServerLaws::counts_below))]
pub fn count_below(up_to: &[u64], highest: u64) -> u64
    requires { length up_to.now ≤ 8 }
    ensures { CountsBelow highest up_to.now result }
{
    up_to.iter().filter(|k| **k < highest).count() as u64
}
