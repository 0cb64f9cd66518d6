ghost use Rattle.std.specs.Prelude.{◌≡◌, ◌<◌, ◌+◌, ◌++◌, ℕ, length};
ghost use Rattle.abc_heap_store.specs.Scopes.{nodes, top_of_scopes};
ghost use Rattle.abc_heap_values.specs.Filling.{HasRoom};

use crate::records::{ScopeEntry, ScopeId, ScopeNode};
use abc_heap_values::Reserved;

/// Adds nodes for some scopes above a saved one, and gives the top.
pub fn capture(
    scopes: &mut Reserved<ScopeNode>,
    saved: Option<ScopeId>,
    entries: &[ScopeEntry],
) -> Option<ScopeId>
    requires room { HasRoom scopes.old (length entries.now) }
    ensures scopes { scopes.new
        ≡ record {
          items = scopes.old.items ++ nodes (length scopes.old.items) saved entries.now;
          limit = scopes.old.limit;
        } }
    ensures top { result ≡ top_of_scopes (length scopes.old.items) saved entries.now }
{
    let mut parent = saved;
    for entry in entries {
        let at = scopes.len();
        scopes.push(ScopeNode {
            entry: *entry,
            parent,
        });
        parent = Some(ScopeId(at));
    }
    parent
}
