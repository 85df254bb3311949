// A seal that cuts the input of a server whose crash flag is set: the server stops before the sync, a refused client is redirected, and what
// was owed goes on.
ghost use Rattle.std.specs.Prelude.{◌≡◌, ◌<◌};
ghost use Rattle.state.specs.Changes.{Inside, Reads};
ghost use Rattle.sim_owed.specs.Servers.{Opens};
ghost use Rattle.sim_seal.specs.Cuts.{cut_test, cut_at};

use answers::InputNumbers;
use sim_owed::{closes, owed_given, servers};
use state::{Capacity, OpenInput};

// Whether the state after a cut fits.
pub fn cut_fits(area: &[u8], f: Capacity, input: OpenInput) -> bool
    requires { Inside area.now f }
    ensures { Reads area.now f result (cut_test input) }
{
    let owed = owed_given(input.owed, input.next);
    let more = sim_replies::redirect_count(input);
    let told = sim_replies::redirect_room(area, f, input);
    let closes = closes::close_fits(area, f, owed, more, input.slot, false);
    told & closes
}

// The input is cut; `input` are its numbers with the verdict.
pub fn cut_input(area: &mut [u8], f: Capacity, input: OpenInput) -> InputNumbers
    requires inside { Inside area.old f }
    requires slot_lt_servers { input.slot < f.servers }
    ensures { Opens area.old area.new f result (cut_at input) }
{
    let owed = owed_given(input.owed, input.next);
    servers::stop_server(area, f, input.slot);
    sim_replies::redirect(area, f, input);
    closes::close_input(area, f, owed)
}
