ghost use Rattle.std.specs.Prelude.{◌≡◌};
ghost use Rattle.abc_base.specs.Hosts.{builtin_formulas};
ghost use Rattle.abc_host.specs.Calls.{AnyCallsAddInTurn};
ghost use Rattle.abc_host.specs.Tables.{formulas_of};

use crate::table::HostTable;
use abc_base::{BuiltinHost, Host};

/// After any list of calls of `add` a table means what it meant before and the formulas that were accepted, in order; and
/// each call answered by what was accepted before it.
pub fn adding_in_turn(_table: &HostTable)
    ensures { AnyCallsAddInTurn _table.now }
{}

/// A table with the formulas of the built-in host, in their order, means what that host means.
pub fn means_builtin_host(_table: &HostTable, _builtin: &BuiltinHost)
    requires { formulas_of _table.now ≡ builtin_formulas }
    ensures { ⟦<HostTable as Host>⟧.formulas _table.now ≡ ⟦<BuiltinHost as Host>⟧.formulas _builtin.now }
{}
