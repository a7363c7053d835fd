// Who finds whom (document 01, "Finding").

#![tactic(auto)]

ghost use Rattle.std.specs.Prelude.{◌<◌};
ghost use Rattle.model.specs.Decides.{Decides};
ghost use Rattle.model.specs.Finding.{Finds};
ghost use Rattle.model.specs.SchemeBytes.{n};
ghost use Rattle.prepared.specs.Asking.{world_asked};
ghost use Rattle.finding.specs.Everyone.{Everyone};

use prepared::Accessor;

// Whether the accessor finds u.
pub fn finds(accessor: &Accessor<'_>, u: usize) -> bool
    requires { u < n accessor.now.scheme }
    ensures { Decides result (Finds (world_asked accessor.now) accessor.now.v u) }
{
    let mut seen = [0u16; 256];
    starts::begin(accessor.world, accessor.v, &mut seen);
    if seen[u] != 0 {
        return true; // the accessor, or its friend
    }
    if starts::allows(accessor, u, 0) {
        return true; // by search
    }
    if walk::walk(accessor, Some(u), &mut seen) {
        return true; // along a chain that begins at the accessor or its friend
    }
    starts::search(accessor, Some(u), &mut seen);
    walk::walk(accessor, Some(u), &mut seen)
}

// Marks everyone whom the accessor finds. The marks are lent: an array handed back would be copied.
pub fn everyone(accessor: &Accessor<'_>, found: &mut [u16; 256])
    ensures { Everyone (world_asked accessor.now) accessor.now.v found.new }
{
    *found = [0u16; 256];
    starts::begin(accessor.world, accessor.v, found);
    starts::search(accessor, None, found);
    walk::walk(accessor, None, found);
}
