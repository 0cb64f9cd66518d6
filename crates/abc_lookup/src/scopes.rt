ghost use Rattle.std.specs.Prelude.{◌≡◌, ◌<◌, Some, length, map, reverse, true};
ghost use Rattle.std.specs.List.{find, range_with_len};
ghost use Rattle.abc_lookup.specs.Scripts.{HasNot};
ghost use Rattle.abc_lookup.specs.Steps.{IsScriptPlace, place_if_any};
ghost use Rattle.abc_objects.specs.Stands.{AreEntries, IsScope, StandsOver};
ghost use Rattle.abc_objects.specs.Values.{IsObject};
ghost use Rattle.abc_objects.specs.Candidates.{answer_of_search, where_public};
ghost use Rattle.abc_objects.specs.Scopes as search;
ghost use Rattle.abc_objects.specs.Scopes.{candidates_at, has, scope_places, saved_places, scope_things};
ghost use Rattle.abc_objects.specs.declared.found.Skip.TheVariants as skips;
ghost use Rattle.abc_link.specs.ScriptTraits.{script_traits};

use crate::place::Place;
use crate::query::Query;
use abc_heap_store::{ScopeEntry, ScopeId, What};
use abc_objects::Found;

/// Whether a script is the one that was tried last.
fn is_tried(tried: Option<u32>, script: u32) -> bool
    ensures { result ≡ true → tried ≡ Some script }
{
    match tried {
        Some(last) => last == script,
        None => false,
    }
}

impl Query<'_> {
    /// What a scope's object has of its own gives, and what a global object's delegates have.
    fn find_thing_in(&self, entry: ScopeEntry) -> Found
        requires over { StandsOver self.now.l.now self.now.a.now }
        requires inside { IsObject self.now.a.now entry.object }
        ensures { result
            ≡ answer_of_search self.now.l.now self.now.a.now self.now.name self.now.skip
            (scope_things self.now.a.now entry) }
    {
        if entry.with_flag {
            return self.find_own(entry.object);
        }
        match self.a.what(entry.object) {
            What::Global(_) => self.find_along(Some(entry.object)),
            _ => Found::Missing,
        }
    }

    /// The same, where the name holds the public namespace or any.
    fn find_public_in(&self, entry: ScopeEntry) -> Found
        requires over { StandsOver self.now.l.now self.now.a.now }
        requires inside { IsObject self.now.a.now entry.object }
        ensures { result
            ≡ answer_of_search self.now.l.now self.now.a.now self.now.name self.now.skip
            (where_public self.now.l.now self.now.name (scope_things self.now.a.now entry)) }
    {
        if !self.public {
            return Found::Missing;
        }
        self.find_thing_in(entry)
    }

    /// What a scope gives.
    fn find_in_scope(&self, entry: ScopeEntry) -> Found
        requires over { StandsOver self.now.l.now self.now.a.now }
        requires inside { IsObject self.now.a.now entry.object }
        ensures { result
            ≡ answer_of_search self.now.l.now self.now.a.now self.now.name self.now.skip
            (candidates_at self.now.l.now self.now.a.now self.now.name (search.InScope entry)) }
    {
        let declared = self.find_trait_of(entry.object);
        if declared.is_hit() {
            return declared;
        }
        declared.or(self.find_public_in(entry))
    }

    /// Whether a scope has the name.
    fn scope_has(&self, entry: ScopeEntry) -> bool
        requires over { StandsOver self.now.l.now self.now.a.now }
        requires inside { IsObject self.now.a.now entry.object }
        requires nothing { self.now.skip ≡ skips.Nothing }
        ensures { result ≡ has self.now.l.now self.now.a.now self.now.name (search.InScope entry) }
    {
        self.find_in_scope(entry).is_hit()
    }

    /// Whether the global object of a script has a declared trait of the name.
    fn script_has(&self, script: u32) -> bool
        requires over { StandsOver self.now.l.now self.now.a.now }
        requires script { script < length self.now.l.now.file.scripts }
        requires nothing { self.now.skip ≡ skips.Nothing }
        ensures { result ≡ has self.now.l.now self.now.a.now self.now.name (search.InScript script) }
    {
        self.find_trait_of(self.a.global(script)).is_hit()
    }

    /// What the host object's dynamic properties give.
    fn find_in_host(&self) -> Found
        requires { StandsOver self.now.l.now self.now.a.now }
        ensures { result
            ≡ answer_of_search self.now.l.now self.now.a.now self.now.name self.now.skip
            (candidates_at self.now.l.now self.now.a.now self.now.name search.InHost) }
    {
        if !self.public {
            return Found::Missing;
        }
        self.find_property(self.a.host_object())
    }

    /// Whether the host object has a dynamic property of the name.
    fn host_has(&self) -> bool
        requires over { StandsOver self.now.l.now self.now.a.now }
        requires nothing { self.now.skip ≡ skips.Nothing }
        ensures { result ≡ has self.now.l.now self.now.a.now self.now.name search.InHost }
    {
        self.find_in_host().is_hit()
    }

    /// The first local scope from the top down that has the name.
    fn find_local(&self, scopes: &[ScopeEntry]) -> Option<Place>
        requires over { StandsOver self.now.l.now self.now.a.now }
        requires scopes { AreEntries self.now.a.now scopes.now }
        requires nothing { self.now.skip ≡ skips.Nothing }
        ensures inside { IsScriptPlace self.now.l.now result }
        ensures first { place_if_any result
            ≡ find (has self.now.l.now self.now.a.now self.now.name)
            (map search.InScope (reverse scopes.now)) }
    {
        for i in (0..scopes.len()).rev() {
            let entry = scopes[i];
            if self.scope_has(entry) {
                return Some(Place::InScope(entry));
            }
        }
        None
    }

    /// The first saved scope that has the name.
    fn find_saved(&self, saved: Option<ScopeId>) -> Option<Place>
        requires over { StandsOver self.now.l.now self.now.a.now }
        requires saved { IsScope self.now.a.now saved }
        requires nothing { self.now.skip ≡ skips.Nothing }
        ensures inside { IsScriptPlace self.now.l.now result }
        ensures first { place_if_any result
            ≡ find (has self.now.l.now self.now.a.now self.now.name) (saved_places self.now.a.now saved) }
    {
        let mut at = saved;
        while let Some(s) = at {
            let node = self.a.scope(s);
            if self.scope_has(node.entry) {
                return Some(Place::InScope(node.entry));
            }
            at = node.parent;
        }
        None
    }

    /// Whether a script has the name, where another, or the same one, was tried before and has it not.
    fn try_script(&self, tried: Option<u32>, script: u32) -> bool
        requires over { StandsOver self.now.l.now self.now.a.now }
        requires script { script < length self.now.l.now.file.scripts }
        requires nothing { self.now.skip ≡ skips.Nothing }
        requires tried { HasNot (has self.now.l.now self.now.a.now self.now.name) tried }
        ensures { result ≡ has self.now.l.now self.now.a.now self.now.name (search.InScript script) }
    {
        if is_tried(tried, script) {
            return false;
        }
        self.script_has(script)
    }

    /// The first script among the owners of some traits whose global object has a declared trait of the name.
    fn find_owner(&self, places: &[u32]) -> Option<Place>
        requires over { StandsOver self.now.l.now self.now.a.now }
        requires nothing { self.now.skip ≡ skips.Nothing }
        requires places { Some places.now ≡ script_traits self.now.l.now.file self.now.text.now }
        ensures inside { IsScriptPlace self.now.l.now result }
        ensures first { place_if_any result
            ≡ find (has self.now.l.now self.now.a.now self.now.name)
            (map search.InScript (range_with_len 0 (length self.now.l.now.file.scripts))) }
    {
        let mut tried = None;
        for place in places {
            let script = self.l.script_of(*place);
            if self.try_script(tried, script) {
                return Some(Place::InScript(script));
            }
            tried = Some(script);
        }
        None
    }

    /// The first script whose global object has a declared trait of the name: one of those that have a trait of its text.
    fn find_script(&self) -> Option<Place>
        requires over { StandsOver self.now.l.now self.now.a.now }
        requires nothing { self.now.skip ≡ skips.Nothing }
        ensures inside { IsScriptPlace self.now.l.now result }
        ensures first { place_if_any result
            ≡ find (has self.now.l.now self.now.a.now self.now.name)
            (map search.InScript (range_with_len 0 (length self.now.l.now.file.scripts))) }
    {
        match self.l.script_traits(self.number) {
            Some(places) => self.find_owner(places.as_slice()),
            None => None,
        }
    }

    /// The first place that has the name: local scopes from the top down, saved ones down, the scripts, and the host
    /// object.
    pub(crate) fn find_place(&self, scopes: &[ScopeEntry], saved: Option<ScopeId>) -> Option<Place>
        requires over { StandsOver self.now.l.now self.now.a.now }
        requires scopes { AreEntries self.now.a.now scopes.now }
        requires saved { IsScope self.now.a.now saved }
        requires nothing { self.now.skip ≡ skips.Nothing }
        ensures inside { IsScriptPlace self.now.l.now result }
        ensures first { place_if_any result
            ≡ find (has self.now.l.now self.now.a.now self.now.name)
            (scope_places self.now.l.now self.now.a.now scopes.now saved) }
    {
        if let Some(place) = self.find_local(scopes) {
            return Some(place);
        }
        if let Some(place) = self.find_saved(saved) {
            return Some(place);
        }
        if let Some(place) = self.find_script() {
            return Some(place);
        }
        if self.host_has() {
            Some(Place::InHost)
        } else {
            None
        }
    }
}
