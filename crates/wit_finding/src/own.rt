//! Where a package's own interfaces and worlds stand in a graph.

ghost use Rattle.std.specs.Prelude.{◌≡◌, ◌+◌, ◌<◌, ◌^◌, map, IfOk};
ghost use Rattle.wit_moves.specs.Plan.{with_place};
ghost use Rattle.wit_finding.specs.Own as spec;

use std::alloc::AllocError;
use wit_moves::{Features, Id, Interface, InterfacePlaces, Places, World, WorldPlaces};

/// Says where the next one stands: at that place, if it stays. Answers the place that is next then.
fn place_own<T>(places: &mut Places<T>, next: usize, stays: bool) -> Result<usize, AllocError>
    requires { next + 1 < 2 ^ 64 }
    ensures { IfOk result (λ n. record { places = places.new; next = n } ≡ with_place stays (record { places = places.old; next = next })) }
{
    if stays {
        places.push(Id::from_index(next))?;
        return Ok(next + 1);
    }
    places.leave_out()?;
    Ok(next)
}

/// Where the interfaces of a package stand behind those for which it asks: those that stay by their gates one behind the other, from
/// a place on.
pub fn own_interfaces(
    features: &Features,
    others: InterfacePlaces,
    base: usize,
    own: &[Interface],
) -> Result<InterfacePlaces, AllocError>
    ensures { IfOk result (λ places. places ≡ spec.placed features.now others base (map (λ d. d.stability) own.now)) }
{
    if own.len() >= usize::MAX - base {
        return Err(AllocError);
    }
    let mut places = others;
    let mut next = base;
    for interface in own {
        next = place_own(&mut places, next, features.keeps(&interface.stability))?;
    }
    Ok(places)
}

/// The same of worlds.
pub fn own_worlds(
    features: &Features,
    others: WorldPlaces,
    base: usize,
    own: &[World],
) -> Result<WorldPlaces, AllocError>
    ensures { IfOk result (λ places. places ≡ spec.placed features.now others base (map (λ w. w.stability) own.now)) }
{
    if own.len() >= usize::MAX - base {
        return Err(AllocError);
    }
    let mut places = others;
    let mut next = base;
    for world in own {
        next = place_own(&mut places, next, features.keeps(&world.stability))?;
    }
    Ok(places)
}
