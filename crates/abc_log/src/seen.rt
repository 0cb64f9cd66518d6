ghost use Rattle.std.specs.Prelude.{◌≡◌, ◌<◌, ◌^◌, false, length, replicate, IfOk};
ghost use Rattle.abc_log.specs.Starts.{IsOneMore, started_from};

use abc_base::{NoMemory, Table};
use std::alloc::Global;
use std::marker::Model;

/// The first script that counts as started now and did not before.
fn started_since(before: &[bool], now: &[bool]) -> Option<usize>
    requires { length before.now ≡ length now.now }
    ensures { result ≡ started_from 0 before.now now.now }
{
    for script in 0..before.len() {
        if !before[script] && now[script] {
            return Some(script);
        }
    }
    None
}

/// Which scripts counted as started after the last step. Contracts see it as a list.
#[derive(Drop)]
pub struct Seen {
    flags: Vec<bool>,
}

impl Model for Seen {
    ghost use Rattle.std.specs.Prelude.{Bool, List};

    ghost Value = { List Bool };

    ghost view = { λ s. s.flags.items };
}

impl Seen {
    /// None is started yet.
    pub fn new(alloc: Global, count: usize) -> Result<Seen, NoMemory>
        ensures { IfOk result (λ seen. seen ≡ replicate count false) }
    {
        let flags = vec![in alloc; false; count]?;
        Ok(Seen { flags })
    }

    /// Which script the step started, if it did. It takes no memory.
    pub fn note(&mut self, now: &Table<bool>) -> Option<u32>
        requires more { IsOneMore self.old now.now }
        requires few { length now.now < 2 ^ 32 }
        ensures script { result ≡ started_from 0 self.old now.now }
        ensures seen { self.new ≡ now.now }
    {
        let script = started_since(&self.flags, now.as_slice())?;
        self.flags[script] = true;
        Some(script as u32)
    }
}
