ghost use Rattle.std.specs.Prelude.{◌≡◌, ◌↔◌, ◌≤◌, ◌*◌, ◌-◌, ◌^◌, ◌<◌, All, AllPairs, IsTrue, MatchOption, false, length, min};
ghost use Rattle.std.specs.List.{sum_by};
ghost use Rattle.abc_tables.specs.Distinct.{Differ, DifferFrom, Rise};
ghost use Rattle.abc_tables.specs.Fitting.{FitBodies, FitsBody, HasNames, HasBodyParts, HasSizes};
ghost use Rattle.abc_tables.specs.Lengths.{body_len};
ghost use Rattle.abc_file_types.specs.Classes.{sizes_of as all_sizes};

use crate::body_lengths::len_over_code;
use crate::fitting_definitions::are_traits;
use crate::indices::{is_count, is_number, is_pool_index, is_position};
use abc_file_types::{Abc, Body, Handler, Sizes, ready_len};

/// How many methods one walk over the bodies looks for.
const WINDOW: usize = 1 << 16;

/// Whether some bytes spell the four sizes of a body.
fn has_sizes(body: &Body) -> bool
    ensures { IsTrue result ↔ HasSizes body.now }
{
    is_number(body.max_stack)
        && is_number(body.local_count)
        && is_number(body.init_scope)
        && is_number(body.max_scope)
}

/// Whether some bytes spell the type and the name of a handler.
fn has_names(handler: &Handler, sizes: &Sizes) -> bool
    ensures { IsTrue result ↔ HasNames sizes.now handler.now }
{
    is_pool_index(handler.exc_type, sizes.names) && is_pool_index(handler.var_name, sizes.names)
}

fn have_names(handlers: &[Handler], sizes: &Sizes) -> bool
    ensures { IsTrue result ↔ All (HasNames sizes.now) handlers.now }
{
    handlers.iter().all(|handler| has_names(handler, sizes))
}

/// Whether some bytes spell the parts of a body beside its code.
fn has_parts(body: &Body, sizes: &Sizes) -> bool
    ensures { IsTrue result ↔ HasBodyParts sizes.now body.now }
{
    is_position(body.method, sizes.methods)
        && has_sizes(body)
        && is_count(body.handlers.len())
        && have_names(body.handlers.as_slice(), sizes)
        && are_traits(&body.traits, sizes)
}

/// How many canonical bytes the body has, if some bytes spell it, whatever other bodies there are. It is 2^64 - 1 where
/// that is greater.
#[tactic(auto, using(crate::proofs::BodiesFit::body_fits))]
fn len_of_body(body: &Body, sizes: &Sizes) -> Option<u64>
    ensures { MatchOption result (FitsBody sizes.now body.now → ⊥)
        (λ n. FitsBody sizes.now body.now × (n ≡ min (body_len body.now) (2 ^ 64 - 1))) }
{
    if !has_parts(body, sizes) {
        return None;
    }
    let code = ready_len(body)?;
    Some(len_over_code(body, code))
}

/// What one walk tells of bodies.
#[derive(Clone, Copy, Debug)]
pub struct Walked {
    /// How many canonical bytes they have, or 2^64 - 1 where that is less.
    pub len: u64,
    /// Whether each is of a later method than the one before, as a compiler writes them.
    pub rise: bool,
}

/// Whether a body that has this method is of a later one than those before it, where these rise and this is the first
/// method after theirs.
fn rises(rise: bool, least: u64, method: u64) -> bool
    ensures { IsTrue result → IsTrue rise × (least ≤ method) }
{
    rise && least <= method
}

/// What one walk tells of bodies, if some bytes spell each, whatever the others are.
pub fn walk(bodies: &[Body], sizes: &Sizes) -> Option<Walked>
    ensures { MatchOption result (All (FitsBody sizes.now) bodies.now → ⊥)
        (λ w. All (FitsBody sizes.now) bodies.now × (w.len ≡ min (sum_by body_len bodies.now) (2 ^ 64 - 1))
        × (IsTrue w.rise → AllPairs Rise bodies.now)) }
{
    let mut walked = Walked { len: 0, rise: true };
    let mut least: u64 = 0;
    for body in bodies {
        let more = len_of_body(body, sizes)?;
        let method = body.method as u64;
        let len = walked.len.saturating_add(more);
        let rise = rises(walked.rise, least, method);
        walked = Walked { len, rise };
        least = method + 1;
    }
    Some(walked)
}

/// Whether no two of the bodies have one method among those from `low` on, as many as there are marks.
fn are_distinct_from(bodies: &[Body], low: usize, seen: &mut [bool]) -> bool
    requires { All (λ mark. mark ≡ false) seen.old }
    ensures { IsTrue result ↔ AllPairs (DifferFrom low (length seen.old)) bodies.now }
{
    for body in bodies {
        let method = body.method as usize;
        if low <= method && method - low < seen.len() {
            if seen[method - low] {
                return false;
            }
            seen[method - low] = true;
        }
    }
    true
}

/// Whether no two of the bodies have one method of this window.
fn are_distinct_in(bodies: &[Body], window: usize) -> bool
    requires { window < 2 ^ 32 }
    ensures { IsTrue result ↔ AllPairs (DifferFrom (window * WINDOW) WINDOW) bodies.now }
{
    let mut seen = [false; WINDOW];
    are_distinct_from(bodies, window * WINDOW, &mut seen)
}

/// Whether no two of the bodies have one method, where there are so many methods. The bodies are gone through once for
/// each window of methods.
fn are_distinct(bodies: &[Body], methods: u32) -> bool
    requires { All (λ b. b.method < methods) bodies.now }
    ensures { IsTrue result ↔ AllPairs Differ bodies.now }
{
    for window in 0..methods as usize / WINDOW + 1 {
        if !are_distinct_in(bodies, window) {
            return false;
        }
    }
    true
}

/// Whether no two of the bodies have one method, where there are so many methods. Bodies whose methods rise aren't gone through.
fn are_apart(bodies: &[Body], methods: u32, rise: bool) -> bool
    requires below { All (λ b. b.method < methods) bodies.now }
    requires rise { IsTrue rise → AllPairs Rise bodies.now }
    ensures { IsTrue result ↔ AllPairs Differ bodies.now }
{
    if rise {
        return true;
    }
    are_distinct(bodies, methods)
}

/// Whether some bytes spell bodies of which each is spelled by some, whatever the others are.
#[tactic(auto, using(crate::proofs::BodiesFit::bodies_fit, crate::proofs::BodiesFit::methods_below))]
pub fn fit_bodies(abc: &Abc, sizes: &Sizes, rise: bool) -> bool
    requires sizes { sizes.now ≡ all_sizes abc.now }
    requires each { All (FitsBody sizes.now) (abc.now).bodies }
    requires rise { IsTrue rise → AllPairs Rise (abc.now).bodies }
    ensures { IsTrue result ↔ FitBodies abc.now }
{
    let bodies = abc.bodies.as_slice();
    is_count(bodies.len()) && are_apart(bodies, sizes.methods, rise)
}
