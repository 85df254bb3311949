// Client commands (client.rs): the bytes at the start of a command that identify it.
#![tactic(auto)]

ghost use Rattle.std.specs.Prelude.{◌≡◌, ◌++◌, ◌≤◌, length, drop};
ghost use Rattle.client.specs.Key.{encode, decode};

// The client number of commands proposed directly by an experiment procedure.
pub const DIRECT: u32 = u32::MAX;

// What identifies a command: the client's number and the command's sequence number.
#[derive(Clone, Copy)]
pub struct ClientKey {
    pub client: u32,
    pub seq: u64,
}

// Writes a command of `size` bytes, at least 12, that identifies its client and sequence number to the front of `out`. Gives its length.
#[tactic(auto, using(crate::specs::Laws::length_is, crate::specs::Laws::encoded))]
pub fn encode(client: u32, seq: u64, size: usize, out: &mut [u8]) -> usize
    requires { (12 ≤ length out.old) × (size ≤ length out.old) }
    ensures { (result ≡ length (encode client seq size)) × (out.new ≡ encode client seq size ++ drop result out.old) }
{
    let end = size.max(12);
    words::put32(out, 0, u64::from(client));
    words::put64(out, 4, seq);
    words::fill_zero(out, 12, end);
    end
}

// The client number and sequence number of a command built by `encode`.
#[tactic(auto, unfolding(crate::specs::Key::decode))]
pub fn decode(command: &[u8]) -> Option<ClientKey>
    ensures { result ≡ decode command.now }
{
    if command.len() < 12 {
        return None;
    }
    Some(ClientKey {
        client: words::get32(command, 0) as u32,
        seq: words::get64(command, 4),
    })
}
